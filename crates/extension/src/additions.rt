//! What an extension adds to the layout below.
ghost use Rattle.std.specs.Prelude.{◌≡◌, ◌≤◌, length};

use crate::origin::MOST_ADDED;
use layout::lawful::MOST_ITEMS;
use layout::table::TableRow;

/// A mask for each of 64 places below, whose bits are named too, and up to 16 items with their names: the first `count` rows. It is
/// copied, which an `ArrayVec` of rows could not be.
#[derive(Clone, Copy)]
pub struct Additions {
    pub(crate) masks: [u8; MOST_ITEMS],
    pub(crate) rows: [TableRow; MOST_ADDED],
    pub(crate) count: usize,
    ghost wide: { length masks ≡ 64 },
    ghost full: { length rows ≡ 16 },
    ghost few: { count ≤ 16 },
}
