//! An extension behind the interface of layouts.
ghost use Rattle.std.specs.Prelude.{length};
ghost use Rattle.extension.specs.Extended.{extended as over, extended_names};
ghost use Rattle.extension.specs.Views.{extras_of};

use crate::extension::Extension;
use crate::origin::EXTENSION;
use crate::parts::with_bits;
use layout::item::Item;
use layout::lawful::MOST_ITEMS;
use layout::layout::Layout;
use layout::name::Name;
use layout::named::NamedLayout;

/// The items below with their bits, then the added ones. Over more than 64 items nothing is added.
impl<L: Layout> Layout for Extension<L> {
    ghost meaning = { λ e. over (L.meaning e.below) (extras_of e.more) };

    ghost source = { 3 };

    const ORIGIN: u8 = EXTENSION;

    fn origin_number(&self) -> u8 {
        EXTENSION
    }

    fn pdu_type(&self) -> u8 {
        self.below.pdu_type()
    }

    #[tactic(auto, using(crate::proofs::Listing::extended_count, std::proofs::lemmas::Grind::common_steps))]
    fn count(&self) -> usize {
        if self.count_below > MOST_ITEMS {
            return self.count_below;
        }
        self.count_below + self.more.count
    }

    #[tactic(auto, using(crate::proofs::Listing::extended_low, crate::proofs::Listing::extended_high))]
    fn item(&self, i: usize) -> Option<Item> {
        if self.count_below > MOST_ITEMS {
            return self.below.item(i);
        }
        if i >= self.count_below {
            return Some(self.more.row(i - self.count_below)?.item);
        }
        let item = self.below.item(i)?;
        Some(with_bits(item, self.more.masks[i]))
    }
}

impl<L: NamedLayout> NamedLayout for Extension<L> {
    ghost names = { λ e. extended_names (length (L.meaning e.below).items) (L.names e.below) (extras_of e.more) };

    #[tactic(auto, using(crate::proofs::Listing::extended_length, crate::proofs::Listing::names_length, crate::proofs::Listing::names_high, std::proofs::lemmas::Option::slice_get_past))]
    fn name(&self, i: usize) -> Name {
        // Asked first, since only with an answer does the layout below say that it has a name for each item.
        let below = self.below.name(i);
        if self.count_below > MOST_ITEMS || i < self.count_below {
            return below;
        }
        let row = self.more.row(i - self.count_below);
        row.map_or(Name::NONE, |row| row.name)
    }
}
