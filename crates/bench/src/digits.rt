//! Octets from hexadecimal pairs.
ghost use Rattle.std.specs.Prelude.{◌≡◌, ℕ, ◌*◌, ◌<◌, ◌≤◌, List, ◌++◌, length, drop};
ghost use Rattle.base.specs.Octets.{Octets};
ghost use Rattle.bench.specs.Lines.{hex_digit, hex_pairs};

/// The value of a hexadecimal digit in capitals.
fn digit_value(octet: u8) -> u8
    ensures value { (d : ℕ) → d < 16 → octet ≡ hex_digit d → result ≡ d }
    ensures small { result < 16 }
{
    if octet < b'A' {
        octet.wrapping_sub(b'0') % 16
    } else {
        (octet - (b'A' - 10)) % 16
    }
}

/// Writes the octets of hexadecimal pairs to the start of a buffer; answers how many. By hand: the crate `hex` judges each digit, which
/// has been done before, and a long packet takes twice the time.
pub(crate) fn decode(digits: &[u8], buffer: &mut [u8]) -> usize
    requires { length digits.now ≤ 2 * length buffer.old }
    ensures { (os : List ℕ) → Octets os → digits.now ≡ hex_pairs os → (result ≡ length os) × (buffer.new ≡ os ++ drop (length os) buffer.old) }
{
    let count = digits.len() / 2;
    for i in 0..count {
        buffer[i] = digit_value(digits[2 * i]) * 16 + digit_value(digits[2 * i + 1]);
    }
    count
}
