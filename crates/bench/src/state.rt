//! What the bench keeps: one packet, empty at first, in 9,216 octets.
ghost use Rattle.std.specs.Prelude.{◌≡◌, ◌≤◌, length};

use packet::octets::MOST_OCTETS;

/// The packet is the first `count` octets of the buffer. It is no Vec: the calls take a buffer and a count, and an edit
/// may lengthen the packet in place.
#[derive(Drop)]
pub struct Bench {
    pub buffer: [u8; MOST_OCTETS],
    pub count: usize,
    ghost wide: { length buffer ≡ 9216 },
    ghost most: { count ≤ 9216 },
}

impl Bench {
    /// A bench whose packet is empty.
    pub(crate) fn new() -> Bench
        ensures { result.count ≡ 0 }
    {
        Bench {
            buffer: [0; MOST_OCTETS],
            count: 0,
        }
    }
}
