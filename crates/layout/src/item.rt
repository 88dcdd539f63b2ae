//! An item of a layout, which is always one that may exist.
ghost use Rattle.std.specs.Prelude.{◌≡◌, ◌^◌, ◌<◌, ◌≤◌};
ghost use Rattle.layout.specs.declared.kind.Kind.TheVariants.{Bits, Number};

use crate::kind::{Governor, Kind};

/// An item: its length in octets, the named bits of a bits octet (mask), the greatest value of a number (limit).
#[derive(Clone, Copy, PartialEq, Eq, Debug)]
pub struct Item {
    pub kind: Kind,
    pub governor: Option<Governor>,
    pub length: u8,
    pub mask: u8,
    pub limit: u64,
    ghost some: { 1 ≤ length },
    ghost most: { length ≤ 8 },
    ghost octet: { mask < 256 },
    ghost bits: { kind ≡ Bits → (length ≡ 1) × (limit ≡ 0) },
    ghost number: { kind ≡ Number → (mask ≡ 0) × (limit < 256 ^ length) },
}
