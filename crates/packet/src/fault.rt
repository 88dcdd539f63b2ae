//! Why a packet is refused, with the place.
ghost use Rattle.std.specs.Prelude.{◌≡◌};
ghost use Rattle.packet.specs.Faults.{packet_refusal};

use base::question::Question;
use base::refusal::Refusal;

/// A no to one of the questions 5 to 10.
#[derive(Clone, Copy, PartialEq, Eq, Debug)]
pub enum PacketFault {
    /// 5: has the packet 12 to 9,216 octets, all in the buffer?
    Count { count: usize },
    /// 6: are bits 7 to 4 of octet 0 equal to 3 and bit 2 set?
    Flags,
    /// 7: is octet 1 255?
    MessageType,
    /// 8: are octets 2 and 3 the count less 8?
    Length,
    /// 9: has each header a unit count above 0, and does it fit?
    Header { place: usize },
    /// 10: is there exactly one container?
    Container { place: usize },
}

/// The question and the place.
impl From<PacketFault> for Refusal {
    ghost from_gives = { λ fault refusal. refusal ≡ packet_refusal fault };

    fn from(fault: PacketFault) -> Refusal {
        let (question, place) = match fault {
            PacketFault::Count { count } => (Question::PacketCount, count),
            PacketFault::Flags => (Question::Flags, 0),
            PacketFault::MessageType => (Question::MessageType, 1),
            PacketFault::Length => (Question::StatedLength, 2),
            PacketFault::Header { place } => (Question::Header, place),
            PacketFault::Container { place } => (Question::Container, place),
        };
        Refusal {
            question,
            place,
            origin: None,
        }
    }
}
