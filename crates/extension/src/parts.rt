//! What is added, item by item.
ghost use Rattle.std.specs.Prelude.{◌≡◌, ◌+◌, ◌<◌, ◌≤◌};
ghost use Rattle.std.specs.List.{slice_get};
ghost use Rattle.std.specs.Option.{option_map};
ghost use Rattle.layout.specs.Items.{governed_by};
ghost use Rattle.layout.specs.Tables.{row_meaning};
ghost use Rattle.layout.specs.Views.{meant, governor_meaning};
ghost use Rattle.extension.specs.Building.{name_below, name_added, name_governor, with_added, nothing_added};
ghost use Rattle.extension.specs.Extended.{named_too};
ghost use Rattle.extension.specs.Ready.{Ready};
ghost use Rattle.extension.specs.Views.{extras_of};

use crate::additions::Additions;
use crate::origin::MOST_ADDED;
use layout::item::Item;
use layout::kind::{Governor, Kind};
use layout::lawful::MOST_ITEMS;
use layout::name::Name;
use layout::table::TableRow;

/// The item with further bits named, if it is a bits octet.
pub(crate) fn with_bits(mut item: Item, bits: u8) -> Item
    ensures { meant result ≡ named_too bits (meant item) }
{
    if item.kind == Kind::Bits {
        item.mask |= bits;
    }
    item
}

impl Additions {
    /// Nothing added.
    pub(crate) fn new() -> Additions
        ensures { extras_of result ≡ nothing_added }
    {
        Additions {
            masks: [0; MOST_ITEMS],
            rows: [TableRow::default(); MOST_ADDED],
            count: 0,
        }
    }

    /// Added item number `k` with its name; none past the last.
    pub(crate) fn row(&self, k: usize) -> Option<TableRow>
        ensures { option_map row_meaning result ≡ slice_get (extras_of self.now).added k }
    {
        self.rows[..self.count].get(k).copied()
    }

    /// Names bits at a place below.
    pub(crate) fn name_below(&mut self, place: usize, bits: u8)
        requires { place < 64 }
        ensures extras { extras_of self.new ≡ name_below place bits (extras_of self.old) }
        ensures count { self.new.count ≡ self.old.count }
    {
        self.masks[place] |= bits;
    }

    /// Names bits in an added item.
    fn name_added(&mut self, k: usize, bits: u8)
        requires { k < self.old.count }
        ensures extras { extras_of self.new ≡ name_added k bits (extras_of self.old) }
        ensures count { self.new.count ≡ self.old.count }
    {
        let row = self.rows[k];
        let name = row.name;
        let item = with_bits(row.item, bits);
        self.rows[k] = TableRow { name, item };
    }

    /// Names a governor's bit, below a list of `low` items or in an added item. Only the extension knows what lies below.
    fn name_governor(&mut self, low: usize, governor: Governor)
        requires few { low ≤ 64 }
        requires within { governor.item < low + self.old.count }
        ensures extras { extras_of self.new ≡ name_governor low (governed_by governor.item governor.bit) (extras_of self.old) }
        ensures count { self.new.count ≡ self.old.count }
    {
        let at = usize::from(governor.item);
        let bits = 1u8 << governor.bit;
        if at < low {
            self.name_below(at, bits);
        } else {
            self.name_added(at - low, bits);
        }
    }

    /// Adds a row behind the others.
    fn push(&mut self, row: TableRow)
        requires { self.old.count < 16 }
        ensures { extras_of self.new ≡ with_added (row_meaning row) (extras_of self.old) }
    {
        self.rows[self.count] = row;
        self.count += 1;
    }

    /// Adds an item, over a layout of `low` items, and names its governor's bit.
    pub(crate) fn insert(&mut self, low: usize, name: Name, item: Item)
        requires { Ready low self.old.count (governor_meaning item.governor) }
        ensures { extras_of self.new ≡ with_added (record { name = name.letters; item = meant item }) (name_governor low (governor_meaning item.governor) (extras_of self.old)) }
    {
        if let Some(governor) = item.governor {
            self.name_governor(low, governor);
        }
        self.push(TableRow { name, item });
    }
}
