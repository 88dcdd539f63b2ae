//! Questions 1 to 3, which are put to every layout before it is used.
ghost use Rattle.std.specs.Prelude.{◌≡◌, ◌≤◌, ◌&&◌, length, IfOk, MatchOption, nat_le};
ghost use Rattle.base.specs.Answers.{answer_of, gives};
ghost use Rattle.layout.specs.Faults.{layout_refusal};
ghost use Rattle.layout.specs.Items.{item_at, EachMayExist};
ghost use Rattle.layout.specs.Masks.{governor_fits_masks};
ghost use Rattle.layout.specs.Questions.{lawful as passes, may_lead as leads};
ghost use Rattle.layout.specs.Misfits.{AllFit, MisfitsFirst};
ghost use Rattle.layout.specs.Tables.{TablesStand};
ghost use Rattle.layout.specs.Views.{meant, governor_meaning};

use crate::fault::LayoutFault;
use crate::item::Item;
use crate::items::Items;
use crate::kind::{Governor, Kind};
use crate::layout::Layout;
use arrayvec::ArrayVec;

/// The most items that a layout may have.
pub const MOST_ITEMS: usize = 64;

/// Whether a governor is an earlier bits octet, its bit named and not bits 7 to 4 of item 0; `earlier` has the masks of the
/// items before, and that of a number is 0. What looks like it in frame and write asks octets and rows: one function over
/// a closure would be longer than the three.
fn governor_fits(governor: Option<Governor>, earlier: &[u8]) -> bool
    ensures { result ≡ governor_fits_masks (governor_meaning governor) earlier.now }
{
    let Some(g) = governor else {
        return true;
    };
    let at = usize::from(g.item);
    match earlier.get(at) {
        Some(mask) => (mask >> g.bit) % 2 == 1 && !(at == 0 && g.bit >= 4),
        None => false,
    }
}

/// The first item whose governor does not fit, if there is one.
#[tactic(auto, using(crate::proofs::Misfits::fitted_start, crate::proofs::Misfits::fitted_all))]
fn first_misfit<L: Layout>(items: Items<'_, L>) -> Option<usize>
    requires all { items.at ≡ 0 }
    requires few { items.count ≤ 64 }
    ensures { MatchOption result (AllFit (L.meaning items.entry.layout.now).items) (λ i. MisfitsFirst (L.meaning items.entry.layout.now).items i) }
{
    let mut masks = ArrayVec::<u8, MOST_ITEMS>::new();
    for item in items {
        if !governor_fits(item.governor, &masks) {
            return Some(masks.len());
        }
        masks.push(item.mask);
    }
    None
}

/// Whether an item is an ungoverned bits octet with bits 7 to 4 named.
fn may_lead(item: &Item) -> bool
    ensures { result ≡ leads (meant item.now) }
{
    item.kind == Kind::Bits && item.governor.is_none() && item.mask / 16 == 15
}

/// Whether item 0 is there and may lead.
fn first_leads<L: Layout>(layout: &L) -> bool
    ensures { result ≡ leads (item_at (L.meaning layout.now).items 0) }
{
    layout.item(0).is_some_and(|first| may_lead(&first))
}

/// Whether a layout may have so many items.
fn may_count(count: usize) -> bool
    ensures { result ≡ (nat_le 1 count && nat_le count 64) }
{
    (1..=MOST_ITEMS).contains(&count)
}

/// A layout that passed questions 1 to 3, and how many items it has.
#[derive(Drop)]
pub struct LawfulLayout<'a, L: Layout> {
    pub layout: &'a L,
    pub count: usize,
    ghost counted: { count ≡ length (L.meaning layout.now).items },
    ghost few: { count ≤ 64 },
    ghost passed: { passes L.source (L.meaning layout.now) ≡ gives tt },
    ghost exist: { EachMayExist (L.meaning layout.now).items },
}

impl<'a, L: Layout> LawfulLayout<'a, L> {
    /// The items, one after another. Unlike `Items::new`, it asks the layout nothing.
    pub fn items(&self) -> Items<'a, L>
        ensures layout { result.layout.now ≡ self.now.layout.now }
        ensures start { result.at ≡ 0 }
        ensures count { result.count ≡ self.now.count }
    {
        Items {
            layout: self.layout,
            at: 0,
            count: self.count,
        }
    }
}

/// Puts questions 1 to 3 to a layout. The published ones pass.
#[tactic(auto, using(crate::proofs::Passing::asking, crate::proofs::Tabled::published_stands), unfolding(crate::specs::Questions::lawful))]
pub fn lawful<L: Layout>(layout: &L) -> Result<LawfulLayout<'_, L>, LayoutFault>
    ensures answer { answer_of (λ _. tt) layout_refusal result ≡ passes L.source (L.meaning layout.now) }
    ensures same { IfOk result (λ l. l.layout.now ≡ layout.now) }
    ensures published { TablesStand }
{
    let origin = layout.origin_number();
    let items = Items::new(layout);
    let count = items.count;
    if !may_count(count) {
        return Err(LayoutFault::Count { origin, count });
    }
    if !first_leads(layout) {
        return Err(LayoutFault::First { origin });
    }
    if let Some(item) = first_misfit(items) {
        return Err(LayoutFault::Governor { origin, item });
    }
    Ok(LawfulLayout { layout, count })
}
