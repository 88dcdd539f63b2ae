//! Names of items.
ghost use Rattle.std.specs.Prelude.{Some};
ghost use Rattle.layout.specs.Names.{name_text};

use std::fmt;

/// The name of an item: three octets, zeros where there is no item.
#[derive(Clone, Copy, PartialEq, Eq, Debug)]
pub struct Name {
    pub letters: [u8; 3],
}

impl Name {
    /// The name past the end of a layout: zeros and no Option, as the interface promises.
    pub const NONE: Name = Name { letters: [0; 3] };
}

/// The name's octets as characters.
impl fmt::Display for Name {
    ghost output = { λ name. Some (name_text name.letters) };

    fn fmt<W: fmt::Write>(&self, f: &mut fmt::Formatter<W>) -> fmt::Result {
        let [a, b, c] = self.letters;
        let a = char::from(a);
        let b = char::from(b);
        let c = char::from(c);
        write!(f, "{a}{b}{c}")
    }
}
