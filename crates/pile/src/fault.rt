//! Why one layout does not extend another.
ghost use Rattle.std.specs.Prelude.{Some};
ghost use Rattle.pile.specs.Words.{part_words};

use layout::fault::LayoutFault;
use std::fmt;

/// The part in which two items are not alike.
#[derive(Clone, Copy, PartialEq, Eq, Debug)]
pub enum Part {
    Kind,
    Governor,
    Length,
    Limit,
    /// A bit that the lower item names is spare in the upper.
    Mask,
}

/// The part in words, as they follow 'item 3 has another'.
impl fmt::Display for Part {
    ghost output = { λ part. Some (part_words part) };

    fn fmt<W: fmt::Write>(&self, f: &mut fmt::Formatter<W>) -> fmt::Result {
        f.write_str(match self {
            Part::Kind => "kind",
            Part::Governor => "governor",
            Part::Length => "length",
            Part::Limit => "limit",
            Part::Mask => "mask, which lacks a bit that is named below",
        })
    }
}

/// The first thing that fails. Items are counted from 0.
#[derive(Clone, Copy, PartialEq, Eq, Debug)]
pub enum ExtendsFault {
    /// The lower layout is not lawful.
    Lower(LayoutFault),
    /// The upper layout is not lawful.
    Upper(LayoutFault),
    /// The PDU types differ.
    PduType { lower: u8, upper: u8 },
    /// The upper layout ends before this item of the lower.
    Missing { item: usize },
    /// This item is not alike in the two layouts.
    Unlike { item: usize, part: Part },
    /// This further item of the upper layout has no governor, or hangs on a bit that the lower layout names.
    Stray { item: usize },
}
