//! Why octets are no layout file.
ghost use Rattle.std.specs.Prelude.{◌≡◌};
ghost use Rattle.layoutfile.specs.Faults.{file_refusal};

use crate::origin::FILE;
use base::question::Question;
use base::refusal::Refusal;

/// A no to one of the questions 23 to 25.
#[derive(Clone, Copy, PartialEq, Eq, Debug)]
pub enum FileFault {
    /// 23: has the file 8 octets or more, and does it start with `UPL` and version 1?
    Start,
    /// 24: is the file as long as its count asks, the count 1 to 64, the PDU type at most 15, the eighth octet 0?
    Size,
    /// 25: is the entry an item, and its name three capitals or digits?
    Entry { entry: usize },
}

/// The question, the place and the origin.
impl From<FileFault> for Refusal {
    ghost from_gives = { λ fault refusal. refusal ≡ file_refusal fault };

    fn from(fault: FileFault) -> Refusal {
        let (question, place) = match fault {
            FileFault::Start => (Question::FileStart, 0),
            FileFault::Size => (Question::FileSize, 5),
            FileFault::Entry { entry } => (Question::Entry, entry),
        };
        Refusal {
            question,
            place,
            origin: Some(FILE),
        }
    }
}
