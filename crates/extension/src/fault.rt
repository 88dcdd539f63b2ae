//! Why a building step is refused.
ghost use Rattle.std.specs.Prelude.{◌≡◌};
ghost use Rattle.extension.specs.declared.fault.BuildFault.TheVariants.{Below as of-below};
ghost use Rattle.extension.specs.Faults.{build_refusal};

use crate::origin::EXTENSION;
use base::question::Question;
use base::refusal::Refusal;
use layout::fault::LayoutFault;

/// A no to one of the questions 1 to 3 of the layout below, or to one of 25 to 28.
#[derive(Clone, Copy, PartialEq, Eq, Debug)]
pub enum BuildFault {
    /// 1 to 3, of the layout below.
    Below(LayoutFault),
    /// 25: is the entry an item, and its name three capitals or digits? The number that the item would get.
    Entry { item: usize },
    /// 26: is there space for one more item, 16 added and 64 in all? The number of all items.
    Space { count: usize },
    /// 27: is the governor an earlier bits octet, its bit spare below or in an added item? The governor's item as the entry has it, 255
    /// for none: it is the place.
    Governor { governor: u8 },
    /// 28: are the bits to be named not none, and all spare in a bits octet below?
    Bits { item: usize },
}

impl From<LayoutFault> for BuildFault {
    ghost from_gives = { λ f r. r ≡ of-below f };

    fn from(cause: LayoutFault) -> BuildFault {
        BuildFault::Below(cause)
    }
}

/// The question, the place and the origin.
impl From<BuildFault> for Refusal {
    ghost from_gives = { λ fault refusal. refusal ≡ build_refusal fault };

    fn from(fault: BuildFault) -> Refusal {
        let (question, place) = match fault {
            BuildFault::Below(fault) => return fault.into(),
            BuildFault::Entry { item } => (Question::Entry, item),
            BuildFault::Space { count } => (Question::Space, count),
            BuildFault::Governor { governor } => (Question::AddedGovernor, governor as usize),
            BuildFault::Bits { item } => (Question::SpareBits, item),
        };
        Refusal {
            question,
            place,
            origin: Some(EXTENSION),
        }
    }
}
