//! The roles of a layout's bits.
ghost use Rattle.std.specs.Prelude.{◌≡◌, ◌<◌, length, MatchBool, MatchOption, ◌≢◌};
ghost use Rattle.layout.specs.Items.{governed_by};
ghost use Rattle.layout.specs.Views.{governor_meaning};
ghost use Rattle.layouts.specs.Roles.{Governs, NoneBelow, HasRole};

use crate::role::Role;
use layout::items::Items;
use layout::kind::Governor;
use layout::layout::Layout;

/// Whether a governor is this bit of this item. The item is a place and no octet, so the two are no `Governor` to compare with.
fn is_bit(governor: Option<Governor>, item: usize, bit: u8) -> bool
    ensures { MatchBool result (governor_meaning governor ≡ governed_by item bit) (governor_meaning governor ≢ governed_by item bit) }
{
    governor.is_some_and(|g| usize::from(g.item) == item && g.bit == bit)
}

/// The first item that a bit governs.
fn first_governed<L: Layout>(layout: &L, item: usize, bit: u8) -> Option<usize>
    ensures { MatchOption result (NoneBelow (L.meaning layout.now).items item bit (length (L.meaning layout.now).items)) (λ j. (j < length (L.meaning layout.now).items) × Governs (L.meaning layout.now).items item bit j × NoneBelow (L.meaning layout.now).items item bit j) }
{
    Items::new(layout).position(|governed| is_bit(governed.governor, item, bit))
}

/// The role of a bit of item number `item`, which has this mask.
pub(crate) fn role_of<L: Layout>(layout: &L, item: usize, mask: u8, bit: u8) -> Role
    requires { bit < 8 }
    ensures { HasRole (L.meaning layout.now).items item bit mask result }
{
    if item == 0 && bit >= 4 {
        return Role::PduType;
    }
    if let Some(item) = first_governed(layout, item, bit) {
        return Role::Flag { item };
    }
    if (mask >> bit) % 2 == 1 {
        Role::Value
    } else {
        Role::Spare
    }
}
