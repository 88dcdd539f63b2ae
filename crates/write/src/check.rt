//! Question 22: whether rows fit the items of a layout.
ghost use Rattle.std.specs.Prelude.{◌≡◌, ◌≤◌, length, if◌then◌else◌, MatchResult, ◌≢◌};
ghost use Rattle.frame.specs.Pieces.{joined};
ghost use Rattle.layout.specs.Views.{meant, kind_meaning, governor_meaning};
ghost use Rattle.write.specs.declared.fault.WriteFault.TheVariants.{Unfit as of-unfit};
ghost use Rattle.write.specs.Writing.{flag_stands, may_have_as, row_fits, fit_at, first_unfit, pieces_for};

use crate::fault::WriteFault;
use crate::record::Record;
use frame::row::Row;
use layout::item::Item;
use layout::kind::{Governor, Kind};
use layout::layout::Layout;

/// Whether the flag that an item hangs on stands, by the rows (frame asks octets instead, layout masks).
fn has_flag(governor: Option<Governor>, rows: &[Row]) -> bool
    ensures { result ≡ flag_stands (governor_meaning governor) rows.now }
{
    governor.is_none_or(|g| {
        let row = rows.get(usize::from(g.item));
        row.is_some_and(|r| (r.value >> g.bit) % 2 == 1)
    })
}

/// Whether an item may have a value: no spare bit, or within the limit.
fn may_have(item: &Item, value: u64) -> bool
    ensures { result ≡ may_have_as (kind_meaning item.now.kind) (meant item.now) value }
{
    match item.kind {
        Kind::Bits => value & u64::from(item.mask) == value,
        Kind::Number => value <= item.limit,
    }
}

/// Whether a row fits its item: present as the flags say, 0 if absent, a value that the item may have if present.
fn is_fit(item: &Item, rows: &[Row], row: Row) -> bool
    ensures { result ≡ row_fits (meant item.now) rows.now row }
{
    if has_flag(item.governor, rows) {
        row.present && may_have(item, row.value)
    } else {
        !row.present && row.value == 0
    }
}

/// Whether row number `i` fits, and if it is the first, whether its upper half octet is the PDU type.
fn is_fit_at(i: usize, pdu_type: u8, item: &Item, rows: &[Row], row: Row) -> bool
    ensures { result ≡ fit_at pdu_type i (meant item.now) rows.now row }
{
    is_fit(item, rows, row) && (i != 0 || row.value / 16 == u64::from(pdu_type))
}

/// How many octets an item takes by its row: none if it is absent.
pub(crate) fn octets_in(item: &Item, row: Row) -> usize
    ensures is { result ≡ (if row.present then (meant item.now).len else 0) }
    ensures few { result ≤ 8 }
{
    if row.present {
        usize::from(item.length)
    } else {
        0
    }
}

/// Looks at each row in turn; answers how many octets the present items take.
pub(crate) fn check_rows<L: Layout>(given: &Record<'_, L>) -> Result<usize, WriteFault>
    ensures { MatchResult result (λ s. (first_unfit (L.meaning given.now.lawful.layout.now) given.now.rows.now ≡ given.now.lawful.count) × (s ≡ length (joined (pieces_for (L.meaning given.now.lawful.layout.now).items given.now.rows.now))) × (s ≤ 512)) (λ f. (f ≡ of-unfit (first_unfit (L.meaning given.now.lawful.layout.now) given.now.rows.now)) × (first_unfit (L.meaning given.now.lawful.layout.now) given.now.rows.now ≢ given.now.lawful.count)) }
{
    let pdu_type = given.lawful.layout.pdu_type();
    let mut size = 0;
    for (i, (item, row)) in given.lawful.items().zip(given.rows).enumerate() {
        if !is_fit_at(i, pdu_type, &item, given.rows, *row) {
            return Err(WriteFault::Unfit { item: i });
        }
        size += octets_in(&item, *row);
    }
    Ok(size)
}
