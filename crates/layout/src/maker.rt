//! The one maker of items from raw values.
ghost use Rattle.std.specs.Prelude.{◌≡◌, ◌+◌, ◌^◌, ◌≤◌};
ghost use Rattle.layout.specs.Makers.{MakesKind, MakesGovernor, MakesItem};

use crate::item::Item;
use crate::kind::{Governor, Kind};

/// The governor's item number that stands for none.
pub const NO_GOVERNOR: u8 = 255;

/// An item as it is written down: kind 0 for a bits octet and 1 for a number; `governor` and `bit` name the governor's bit,
/// or are 255 and 0 where there is none. The fields are octets of a file, and may write down no item: that is what the maker tells.
#[derive(Clone, Copy, PartialEq, Eq, Debug)]
pub struct RawItem {
    pub kind: u8,
    pub governor: u8,
    pub bit: u8,
    pub length: u8,
    pub mask: u8,
    pub limit: u64,
}

/// Raw values that write down no item.
#[derive(Clone, Copy, PartialEq, Eq, Debug)]
pub struct NoItem;

/// The kind of a raw value.
impl TryFrom<u8> for Kind {
    type Error = NoItem;

    ghost try_from_gives = { MakesKind };

    fn try_from(raw: u8) -> Result<Kind, NoItem> {
        match raw {
            0 => Ok(Kind::Bits),
            1 => Ok(Kind::Number),
            _ => Err(NoItem),
        }
    }
}

impl RawItem {
    /// The governor that the raw values name, or no governor.
    fn named_governor(&self) -> Result<Option<Governor>, NoItem>
        ensures { MakesGovernor self.now.governor self.now.bit result }
    {
        match (self.governor, self.bit) {
            (NO_GOVERNOR, 0) => Ok(None),
            (NO_GOVERNOR, _) => Err(NoItem),
            (item, bit) if bit < 8 => Ok(Some(Governor { item, bit })),
            _ => Err(NoItem),
        }
    }
}

/// The greatest number of so many octets.
fn greatest(length: u8) -> u64
    requires { length ≤ 8 }
    ensures { result + 1 ≡ 256 ^ length }
{
    match length {
        0 => 0,
        1 => 0xff,
        2 => 0xffff,
        3 => 0xff_ffff,
        4 => 0xffff_ffff,
        5 => 0xff_ffff_ffff,
        6 => 0xffff_ffff_ffff,
        7 => 0xff_ffff_ffff_ffff,
        _ => 0xffff_ffff_ffff_ffff,
    }
}

/// The item that raw values write down.
impl TryFrom<RawItem> for Item {
    type Error = NoItem;

    ghost try_from_gives = { MakesItem };

    fn try_from(raw: RawItem) -> Result<Item, NoItem> {
        let kind = Kind::try_from(raw.kind)?;
        let governor = raw.named_governor()?;
        let RawItem {
            length,
            mask,
            limit,
            ..
        } = raw;
        let exists = match kind {
            Kind::Bits => length == 1 && limit == 0,
            Kind::Number => (1..=8).contains(&length) && mask == 0 && limit <= greatest(length),
        };
        if !exists {
            return Err(NoItem);
        }
        Ok(Item {
            kind,
            governor,
            length,
            mask,
            limit,
        })
    }
}
