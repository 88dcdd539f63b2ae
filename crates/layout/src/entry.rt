//! Entries: items as they are written down, in a layout file or to be added, each with its name.
ghost use Rattle.std.specs.Prelude.{◌≡◌};
ghost use Rattle.std.specs.Option.{option_map};
ghost use Rattle.layout.specs.Entries.{is_name_octet, entry_accepted};
ghost use Rattle.layout.specs.Views.{meant};

use crate::item::Item;
use crate::maker::RawItem;
use crate::name::Name;

/// An item as it is written down, and its name.
#[derive(Clone, Copy)]
pub struct RawEntry {
    pub item: RawItem,
    pub name: Name,
}

/// Whether an octet may stand in a name: a capital letter or a digit. As one pattern the two tests are compiled to branches, and
/// with them a layout file is judged at half the speed.
fn is_name_octet(octet: u8) -> bool
    ensures { result ≡ is_name_octet octet }
{
    matches!(octet, b'A'..=b'Z') || matches!(octet, b'0'..=b'9')
}

impl RawEntry {
    /// Question 25: the entry's item, or none where the raw values are no item or the name is not three capitals or digits. A method
    /// and no `TryFrom`, since it is a question that calls put.
    pub fn accept(&self) -> Option<Item>
        ensures { option_map meant result ≡ entry_accepted self.now }
    {
        let [a, b, c] = self.name.letters;
        if !(is_name_octet(a) && is_name_octet(b) && is_name_octet(c)) {
            return None;
        }
        Item::try_from(self.item).ok()
    }
}
