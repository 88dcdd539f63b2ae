//! A record: rows for the items of a layout.
ghost use Rattle.std.specs.Prelude.{◌≤◌, length};

use frame::row::Row;
use layout::lawful::LawfulLayout;
use layout::layout::Layout;

/// A lawful layout, and a table with a row for each of its items.
#[derive(Drop)]
pub(crate) struct Record<'a, L: Layout> {
    pub lawful: LawfulLayout<'a, L>,
    pub rows: &'a [Row],
    ghost enough: { lawful.count ≤ length rows.now },
}
