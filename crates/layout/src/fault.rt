//! Why a layout is refused: the origin of the layout asked, and the place.
ghost use Rattle.std.specs.Prelude.{◌≡◌};
ghost use Rattle.layout.specs.Faults.{layout_refusal};

use base::question::Question;
use base::refusal::Refusal;

/// A no to one of the questions 1 to 3. The origin is a number, as `Layout::ORIGIN` is.
#[derive(Clone, Copy, PartialEq, Eq, Debug)]
pub enum LayoutFault {
    /// 1: has the layout 1 to 64 items?
    Count { origin: u8, count: usize },
    /// 2: is item 0 an ungoverned bits octet with bits 7 to 4 named?
    First { origin: u8 },
    /// 3: is each governor an earlier bits octet, its bit named and not bits 7 to 4 of item 0?
    Governor { origin: u8, item: usize },
}

/// The question, the place and the origin.
impl From<LayoutFault> for Refusal {
    ghost from_gives = { λ fault refusal. refusal ≡ layout_refusal fault };

    fn from(fault: LayoutFault) -> Refusal {
        let (origin, question, place) = match fault {
            LayoutFault::Count { origin, count } => (origin, Question::ItemCount, count),
            LayoutFault::First { origin } => (origin, Question::FirstItem, 0),
            LayoutFault::Governor { origin, item } => (origin, Question::Governors, item),
        };
        Refusal {
            question,
            place,
            origin: Some(origin),
        }
    }
}
