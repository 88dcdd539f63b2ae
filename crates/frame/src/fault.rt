//! Why a frame cannot be opened, and why a read is refused. A fault that a lower layer met is held whole.
ghost use Rattle.std.specs.Prelude.{◌≡◌};
ghost use Rattle.frame.specs.declared.fault.FrameFault.TheVariants.{Layout as of-layout, Packet as of-packet};
ghost use Rattle.frame.specs.declared.fault.ReadFault.TheVariants.{Frame as of-frame};
ghost use Rattle.frame.specs.Faults.{frame_refusal, read_refusal};

use base::question::Question;
use base::refusal::Refusal;
use layout::fault::LayoutFault;
use packet::fault::PacketFault;

/// A no to one of the questions 11 to 13, or what the layout or the packet was refused for.
#[derive(Clone, Copy, PartialEq, Eq, Debug)]
pub enum FrameFault {
    Layout(LayoutFault),
    Packet(PacketFault),
    /// 11: is the frame's upper half octet the PDU type?
    PduType { place: usize },
    /// 12: does the item fit?
    Short { place: usize },
    /// 13: is a number within its limit?
    Limit { place: usize },
}

/// Why a read is refused: a frame fault, or a no to question 4.
#[derive(Clone, Copy, PartialEq, Eq, Debug)]
pub enum ReadFault {
    Frame(FrameFault),
    /// 4: has the table a row for each item?
    Rows { count: usize },
}

impl From<LayoutFault> for FrameFault {
    ghost from_gives = { λ f r. r ≡ of-layout f };

    fn from(fault: LayoutFault) -> FrameFault {
        FrameFault::Layout(fault)
    }
}

impl From<PacketFault> for FrameFault {
    ghost from_gives = { λ f r. r ≡ of-packet f };

    fn from(fault: PacketFault) -> FrameFault {
        FrameFault::Packet(fault)
    }
}

impl From<LayoutFault> for ReadFault {
    ghost from_gives = { λ f r. r ≡ of-frame (of-layout f) };

    fn from(fault: LayoutFault) -> ReadFault {
        ReadFault::Frame(fault.into())
    }
}

impl From<FrameFault> for ReadFault {
    ghost from_gives = { λ f r. r ≡ of-frame f };

    fn from(fault: FrameFault) -> ReadFault {
        ReadFault::Frame(fault)
    }
}

/// The question and the place, and the origin where a layout was asked.
impl From<FrameFault> for Refusal {
    ghost from_gives = { λ fault refusal. refusal ≡ frame_refusal fault };

    fn from(fault: FrameFault) -> Refusal {
        let (question, place) = match fault {
            FrameFault::Layout(f) => return f.into(),
            FrameFault::Packet(f) => return f.into(),
            FrameFault::PduType { place } => (Question::PduType, place),
            FrameFault::Short { place } => (Question::ItemFits, place),
            FrameFault::Limit { place } => (Question::Limit, place),
        };
        Refusal {
            question,
            place,
            origin: None,
        }
    }
}

/// The question and the place, and the origin where a layout was asked.
impl From<ReadFault> for Refusal {
    ghost from_gives = { λ fault refusal. refusal ≡ read_refusal fault };

    fn from(fault: ReadFault) -> Refusal {
        match fault {
            ReadFault::Frame(f) => f.into(),
            ReadFault::Rows { count } => Refusal {
                question: Question::TableRows,
                place: count,
                origin: None,
            },
        }
    }
}
