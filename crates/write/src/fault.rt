//! Why a record is not written.
ghost use Rattle.std.specs.Prelude.{◌≡◌};
ghost use Rattle.write.specs.declared.fault.WriteFault.TheVariants.{Layout as of-layout};
ghost use Rattle.write.specs.Faults.{write_refusal};

use base::question::Question;
use base::refusal::Refusal;
use layout::fault::LayoutFault;

/// A no to one of the questions 1 to 4, 22 and 21.
#[derive(Clone, Copy, PartialEq, Eq, Debug)]
pub enum WriteFault {
    /// 1 to 3.
    Layout(LayoutFault),
    /// 4: has the table a row for each item? The table's row count.
    Rows { count: usize },
    /// 22: does each row fit? The first that does not.
    Unfit { item: usize },
    /// 21: is the new frame at most 1,018 octets, and the new packet at most 9,216 and no longer than the buffer? The new count.
    Space { count: usize },
}

impl From<LayoutFault> for WriteFault {
    ghost from_gives = { λ f r. r ≡ of-layout f };

    fn from(cause: LayoutFault) -> WriteFault {
        WriteFault::Layout(cause)
    }
}

/// The question, the place and the origin.
impl From<WriteFault> for Refusal {
    ghost from_gives = { λ fault refusal. refusal ≡ write_refusal fault };

    fn from(fault: WriteFault) -> Refusal {
        let (question, place) = match fault {
            WriteFault::Layout(f) => return f.into(),
            WriteFault::Rows { count } => (Question::TableRows, count),
            WriteFault::Unfit { item } => (Question::RowFits, item),
            WriteFault::Space { count } => (Question::Room, count),
        };
        Refusal {
            question,
            place,
            origin: None,
        }
    }
}
