//! Numbers in octets, the highest octet first.
ghost use Rattle.std.specs.Prelude.{◌≡◌, ◌%◌, ◌^◌, ◌<◌, ◌≤◌, length};
ghost use Rattle.base.specs.Octets.{big_endian, octets_of, NumbersKeep};

/// The number that octets write, the highest first: exact for up to eight of them, modulo 2^64 for more.
#[tactic(auto, using(crate::proofs::Numbers::reading))]
pub fn number(octets: &[u8]) -> u64
    ensures wrapped { result ≡ big_endian octets.now % 2 ^ 64 }
    ensures exact { length octets.now ≤ 8 → result ≡ big_endian octets.now }
{
    octets.iter().fold(0u64, |n, octet| {
        n.wrapping_mul(256).wrapping_add(u64::from(*octet))
    })
}

/// Writes a number into octets, the highest first: exact where they are enough for it, modulo 256 to their count where not.
#[tactic(auto, using(crate::proofs::Writing::writing))]
pub fn put_number(value: u64, octets: &mut [u8])
    ensures wrapped { octets.new ≡ octets_of (length octets.old) (value % 256 ^ length octets.old) }
    ensures exact { value < 256 ^ length octets.old → octets.new ≡ octets_of (length octets.old) value }
    ensures keeps { NumbersKeep }
{
    let mut rest = value;
    // By index: a copy from `to_be_bytes` takes twice as long, and nothing is known of octets after `iter_mut().rev()`.
    for i in (0..octets.len()).rev() {
        octets[i] = (rest % 256) as u8;
        rest /= 256;
    }
}
