//! The interface behind which every layout stands.
ghost use Rattle.std.specs.Prelude.{◌≡◌, ℕ, ◌≤◌, length};
ghost use Rattle.std.specs.List.{slice_get};
ghost use Rattle.std.specs.Option.{option_map};
ghost use Rattle.layout.specs.Items.{Meaning};
ghost use Rattle.layout.specs.Views.{meant};

use crate::item::Item;

/// A layout: whatever answers by its meaning, a PDU type and a list of items. Asking changes nothing.
pub trait Layout {
    /// The PDU type and the list of items.
    ghost meaning: { Self → Meaning };

    /// The origin number, as clauses name it.
    ghost source: { ℕ };

    /// The origin: which kind of layout this is. 1 is published, 2 a file, 3 an extension. It is a number and no enum, since anyone
    /// may write a kind with an origin of its own.
    const ORIGIN: u8;

    /// The origin, in a form that a contract can name: a ghost member of the constant's name is not to be had yet in an
    /// implementation with a lifetime parameter.
    fn origin_number(&self) -> u8
        ensures { result ≡ source };

    /// The PDU type, a half octet.
    fn pdu_type(&self) -> u8
        ensures value { result ≡ (meaning self.now).pdu_type }
        ensures half { result ≤ 15 };

    /// How many items there are.
    fn count(&self) -> usize
        ensures { result ≡ length (meaning self.now).items };

    /// Item number `i`, counted from 0; none past the end.
    fn item(&self, i: usize) -> Option<Item>
        ensures { option_map meant result ≡ slice_get (meaning self.now).items i };
}
