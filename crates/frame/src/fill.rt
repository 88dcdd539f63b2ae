//! The second pass over a frame, once nothing can be refused any more: a row for each item.
ghost use Rattle.std.specs.Prelude.{◌≡◌, ◌≤◌, [], length};
ghost use Rattle.frame.specs.Pieces.{cut_from};
ghost use Rattle.frame.specs.Rows.{filled};
ghost use Rattle.frame.specs.Surveys.{Surveyed};

use crate::frame::Frame;
use crate::item::{make_row, size_in};
use crate::row::Row;
use base::number::number;
use layout::lawful::LawfulLayout;
use layout::layout::Layout;

/// Fills the table with a row for each item; rows past them stay. `octets` has the last octet of each item.
pub(crate) fn fill_rows<L: Layout>(
    lawful: &LawfulLayout<'_, L>,
    frame: Frame<'_>,
    octets: &[u8],
    rows: &mut [Row],
)
    requires surveyed { Surveyed (L.meaning lawful.now.layout.now).items frame.place frame.octets.now octets.now }
    requires fits { lawful.now.count ≤ length rows.old }
    ensures { rows.new ≡ filled (L.meaning lawful.now.layout.now).items frame.entry.place (cut_from (L.meaning lawful.now.layout.now).items [] frame.entry.place frame.entry.octets.now) rows.old }
{
    let mut at = frame.place;
    let mut rest = frame.octets;
    for (i, item) in lawful.items().enumerate() {
        let size = size_in(&item, octets);
        let (piece, behind) = rest.split_at(size);
        // By number: of rows after `iter_mut` a proof knows only how many there are.
        rows[i] = make_row(&item, at, size, number(piece));
        at += size;
        rest = behind;
    }
}
