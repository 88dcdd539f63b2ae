//! The published kind of layout.
ghost use Rattle.layout.specs.Tables.{published_meaning, published_names};

use crate::item::Item;
use crate::layout::Layout;
use crate::name::Name;
use crate::named::NamedLayout;
use crate::table::Published;

/// The origin number of published layouts.
pub const PUBLISHED: u8 = 1;

impl Layout for Published {
    ghost meaning = { published_meaning };

    ghost source = { 1 };

    const ORIGIN: u8 = PUBLISHED;

    fn origin_number(&self) -> u8 {
        Self::ORIGIN
    }

    fn pdu_type(&self) -> u8 {
        match self {
            Published::Dl16 => 0,
            Published::Ul161 | Published::Ul163 | Published::Ul19 => 1,
        }
    }

    fn count(&self) -> usize {
        self.row_count()
    }

    fn item(&self, i: usize) -> Option<Item> {
        Some(self.row(i)?.item)
    }
}

impl NamedLayout for Published {
    ghost names = { published_names };

    fn name(&self, i: usize) -> Name {
        self.row(i).map_or(Name::NONE, |row| row.name)
    }
}
