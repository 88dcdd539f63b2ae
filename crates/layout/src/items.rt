//! The items of a layout, one after another.
ghost use Rattle.std.specs.Prelude.{◌≡◌, ◌-◌, ◌≤◌, length};
ghost use Rattle.std.specs.Iterator.{at_most};
ghost use Rattle.layout.specs.Itemized.{GivesItem};

use crate::item::Item;
use crate::layout::Layout;

/// The items of a layout from number `at` on.
#[derive(Drop)]
pub struct Items<'a, L: Layout> {
    pub layout: &'a L,
    pub at: usize,
    pub count: usize,
    ghost counted: { count ≡ length (L.meaning layout.now).items },
    ghost within: { at ≤ count },
}

impl<'a, L: Layout> Items<'a, L> {
    /// All items of a layout.
    pub fn new(layout: &'a L) -> Items<'a, L>
        ensures layout { result.layout.now ≡ layout.now }
        ensures start { result.at ≡ 0 }
        ensures count { result.count ≡ length (L.meaning layout.now).items }
    {
        Items {
            layout,
            at: 0,
            count: layout.count(),
        }
    }
}

impl<'a, L: Layout> Iterator for Items<'a, L> {
    type Item = Item;

    ghost next_gives = { λ s r t. ((t.layout ≡ s.layout) × (t.count ≡ s.count)) × GivesItem (L.meaning s.layout.now).items s.at r t.at };

    ghost remaining = { λ s. at_most (s.count - s.at) };

    // Not inlined, it makes a read 8 percent slower.
    #[inline(always)]
    fn next(&mut self) -> Option<Item> {
        // The layout is asked nothing past its end, where an answer may cost as much as any.
        if self.at >= self.count {
            return None;
        }
        let item = self.layout.item(self.at)?;
        self.at += 1;
        Some(item)
    }
}
