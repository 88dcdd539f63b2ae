//! A kind of layout for trials: a PDU type and the caller's items, in their order. It stands alone, as one that a reader writes.
ghost use Rattle.std.specs.Prelude.{◌≤◌, map};
ghost use Rattle.layout.specs.Views.{meant};

use layout::item::Item;
use layout::layout::Layout;

/// The origin number of this kind; 1 to 3 are the product's.
pub const LISTED: u8 = 9;

/// A layout of the caller's items.
#[derive(Clone, Copy)]
pub struct Listed<'a> {
    pub pdu_type: u8,
    pub items: &'a [Item],
    ghost half: { pdu_type ≤ 15 },
}

impl<'a> Layout for Listed<'a> {
    ghost meaning = { λ l. record { pdu_type = l.pdu_type; items = map meant l.items.now } };

    ghost source = { 9 };

    const ORIGIN: u8 = LISTED;

    fn origin_number(&self) -> u8 {
        Self::ORIGIN
    }

    fn pdu_type(&self) -> u8 {
        self.pdu_type
    }

    #[tactic(auto, using(std::proofs::lemmas::Grind::common_steps))]
    fn count(&self) -> usize {
        self.items.len()
    }

    fn item(&self, i: usize) -> Option<Item> {
        self.items.get(i).copied()
    }
}
