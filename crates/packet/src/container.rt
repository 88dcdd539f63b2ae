//! The one PDU session container of a packet: questions 5 to 10.
ghost use Rattle.std.specs.Prelude.{◌≡◌};
ghost use Rattle.base.specs.Answers.{answer_of};
ghost use Rattle.packet.specs.Containers.{container as container-in};
ghost use Rattle.packet.specs.Faults.{packet_refusal};
ghost use Rattle.packet.specs.Laws.{WalkIsChain, PacketIsLaidOut};
ghost use Rattle.packet.specs.Views.{located_of, walked_of};
ghost use Rattle.packet.specs.Walks.{found_by};

use crate::fault::PacketFault;
use crate::packet::Packet;
use crate::walk::{Met, Walked};

/// What a packet holds: the place of the container's first octet, its frame, the chain's end, and the inner packet behind it.
#[derive(Clone, Copy, PartialEq, Eq, Debug)]
pub struct Found<'a> {
    pub place: usize,
    pub frame: &'a [u8],
    pub chain_end: usize,
    pub inner: &'a [u8],
}

/// Finds the one container of the packet that is the first `count` octets of the buffer, or gives the first
/// no to the questions 5 to 10. Buffer and count are two values: question 5 asks whether the buffer has so many octets.
#[tactic(auto, using(crate::proofs::Containers::asked_in_order, crate::proofs::Layouts::packet_is_laid_out))]
pub fn find_container(buffer: &[u8], count: usize) -> Result<Found<'_>, PacketFault>
    ensures answer { answer_of located_of packet_refusal result ≡ container-in buffer.now count }
    ensures chain { WalkIsChain }
    ensures laid_out { PacketIsLaidOut }
{
    let packet = Packet::of(buffer, count)?;
    packet.check_first_octets()?;
    one_container(packet.walk()?)
}

// Question 10, of a chain that was walked to its end.
#[tactic(auto, unfolding(base::specs::Answers::bind))]
fn one_container(walked: Walked<'_>) -> Result<Found<'_>, PacketFault>
    ensures { answer_of located_of packet_refusal result ≡ found_by (walked_of walked.entry) }
{
    let Walked {
        met,
        chain_end,
        inner,
    } = walked;
    match met {
        Met::Nothing => Err(PacketFault::Container { place: chain_end }),
        Met::One { frame, place } => Ok(Found {
            place,
            frame,
            chain_end,
            inner,
        }),
        Met::Second { place } => Err(PacketFault::Container { place }),
    }
}
