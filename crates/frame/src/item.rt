//! One item of a frame: its presence, its size, its limit, its row.
ghost use Rattle.std.specs.Prelude.{◌≡◌, ◌≤◌};
ghost use Rattle.layout.specs.Views.{meant, kind_meaning, governor_meaning};
ghost use Rattle.frame.specs.Surveys.{present_by_octets, size_by_octets, within_number, row_number};

use crate::row::Row;
use layout::item::Item;
use layout::kind::{Governor, Kind};

/// Whether an item with this governor is present; `octets` has the last octet of each item before it at least, 0 for an absent
/// one. (Write asks rows instead, layout masks.)
fn is_present(governor: Option<Governor>, octets: &[u8]) -> bool
    ensures { result ≡ present_by_octets (governor_meaning governor) octets.now }
{
    governor.is_none_or(|g| {
        let octet = octets.get(usize::from(g.item));
        octet.is_some_and(|o| (o >> g.bit) % 2 == 1)
    })
}

/// How many octets an item takes: none if it is absent.
pub(crate) fn size_in(item: &Item, octets: &[u8]) -> usize
    ensures is { result ≡ size_by_octets (meant item.now) octets.now }
    ensures few { result ≤ 8 }
{
    if is_present(item.governor, octets) {
        usize::from(item.length)
    } else {
        0
    }
}

/// Whether a value is within the item's limit.
pub(crate) fn is_within(item: &Item, value: u64) -> bool
    ensures { result ≡ within_number (kind_meaning item.now.kind) item.now.limit value }
{
    item.kind == Kind::Bits || value <= item.limit
}

/// The row of an item that takes `size` octets at `place`, which write `value`.
pub(crate) fn make_row(item: &Item, place: usize, size: usize, value: u64) -> Row
    ensures { result ≡ row_number (meant item.now) place size value }
{
    if size == 0 {
        return Row::default();
    }
    let value = match item.kind {
        Kind::Bits => value & u64::from(item.mask),
        Kind::Number => value,
    };
    Row {
        present: true,
        place,
        value,
    }
}
