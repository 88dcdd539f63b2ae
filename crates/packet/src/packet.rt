//! A packet whose count is right: question 5, and the questions 6 to 8 on its first octets.
ghost use Rattle.std.specs.Prelude.{◌≡◌, ◌≤◌, length};
ghost use Rattle.base.specs.Answers.{answer_of};
ghost use Rattle.packet.specs.Containers.{counted, first_octets};
ghost use Rattle.packet.specs.Faults.{packet_refusal};

use crate::fault::PacketFault;
use crate::octets::{
    EXTENDED, FIRST_OCTETS, FLAGS, G_PDU, GTP_1, LENGTH, MESSAGE_TYPE, MOST_OCTETS, UNCOUNTED,
};

// The octets of a packet, as many as question 5 allows.
#[derive(Clone, Copy)]
pub(crate) struct Packet<'a> {
    pub octets: &'a [u8],
    ghost least: { 12 ≤ length octets.now },
    ghost most: { length octets.now ≤ 9216 },
}

impl<'a> Packet<'a> {
    // Question 5, of the packet that is the first `count` octets of the buffer, where there are so many.
    #[tactic(auto, using(crate::proofs::Packets::counted_yes, crate::proofs::Packets::counted_no))]
    pub(crate) fn of(buffer: &'a [u8], count: usize) -> Result<Packet<'a>, PacketFault>
        ensures { answer_of (λ p. p.octets.now) packet_refusal result ≡ counted buffer.now count }
    {
        match buffer.get(..count) {
            Some(octets) if FIRST_OCTETS <= count && count <= MOST_OCTETS => Ok(Packet { octets }),
            _ => Err(PacketFault::Count { count }),
        }
    }

    // Questions 6 to 8: all that they look at stands in the first twelve octets.
    #[tactic(auto, using(crate::proofs::Packets::first_octets_asked))]
    pub(crate) fn check_first_octets(self) -> Result<(), PacketFault>
        ensures { answer_of (λ u. u) packet_refusal result ≡ first_octets self.entry.octets.now }
    {
        let packet = self.octets;
        let flags = packet[FLAGS];
        if flags >> 4 != GTP_1 || flags & EXTENDED == 0 {
            return Err(PacketFault::Flags);
        }
        if packet[MESSAGE_TYPE] != G_PDU {
            return Err(PacketFault::MessageType);
        }
        let stated = u16::from_be_bytes([packet[LENGTH], packet[LENGTH + 1]]);
        if usize::from(stated) != packet.len() - UNCOUNTED {
            return Err(PacketFault::Length);
        }
        Ok(())
    }
}
