//! What an item is, and what its presence hangs on.
ghost use Rattle.std.specs.Prelude.{◌<◌};

/// A bits octet, whose bits have meanings of their own, or a number of one to eight octets.
#[derive(Clone, Copy, PartialEq, Eq, Debug)]
pub enum Kind {
    Bits,
    Number,
}

/// A governor: the bit of an earlier bits octet that says whether an item is present.
#[derive(Clone, Copy, PartialEq, Eq, Debug)]
pub struct Governor {
    pub item: u8,
    pub bit: u8,
    ghost octet: { bit < 8 },
}
