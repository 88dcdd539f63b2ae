//! Two items compared.
ghost use Rattle.std.specs.Prelude.{MatchOption};
ghost use Rattle.layout.specs.Views.{meant};
ghost use Rattle.pile.specs.Extends.{Alike};
ghost use Rattle.pile.specs.Reasons.{Differs};

use crate::fault::Part;
use layout::item::Item;

/// The first part in which an upper item is not like the lower: alike but for the mask, which keeps every lower bit. As a Result
/// with `map_err` it was tried: the proof sees nothing of what a closure with captures answers.
pub(crate) fn difference(lower: &Item, upper: &Item) -> Option<Part>
    ensures { MatchOption result (Alike (meant lower.now) (meant upper.now)) (λ p. Differs p (meant lower.now) (meant upper.now)) }
{
    if lower.kind != upper.kind {
        return Some(Part::Kind);
    }
    if lower.governor != upper.governor {
        return Some(Part::Governor);
    }
    if lower.length != upper.length {
        return Some(Part::Length);
    }
    if lower.limit != upper.limit {
        return Some(Part::Limit);
    }
    if lower.mask & upper.mask != lower.mask {
        return Some(Part::Mask);
    }
    None
}
