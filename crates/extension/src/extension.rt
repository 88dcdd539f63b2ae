//! An extension.
ghost use Rattle.std.specs.Prelude.{◌≡◌, length};

use crate::additions::Additions;
use layout::layout::Layout;

/// A layout with bits named and items added. It holds the layout below by value, and how many items that has.
#[derive(Drop)]
pub struct Extension<L: Layout> {
    pub(crate) below: L,
    pub(crate) count_below: usize,
    pub(crate) more: Additions,
    ghost counted: { count_below ≡ length (L.meaning below).items },
}
