//! The walk over a packet's whole chain: it puts question 9 of each header, and remembers the containers that it meets.
ghost use Rattle.std.specs.Prelude.{◌≡◌};
ghost use Rattle.base.specs.Answers.{answer_of};
ghost use Rattle.packet.specs.Faults.{packet_refusal};
ghost use Rattle.packet.specs.Views.{header_meaning, RightCase, seen_of, walked_of};
ghost use Rattle.packet.specs.Walks.{seen_after, walk_of};

use crate::chain::{header_size, step};
use crate::fault::PacketFault;
use crate::header::Header;
use crate::octets::{FIRST_OCTETS, NEXT_TYPE};
use crate::packet::Packet;

// The containers met so far: none, one, or a second, of which the place is all that matters.
#[derive(Clone, Copy)]
pub(crate) enum Met<'a> {
    Nothing,
    One { frame: &'a [u8], place: usize },
    Second { place: usize },
}

// A chain walked to its end, and the octets behind it.
#[derive(Clone, Copy)]
pub(crate) struct Walked<'a> {
    pub met: Met<'a>,
    pub chain_end: usize,
    pub inner: &'a [u8],
}

impl<'a> Packet<'a> {
    // Walks the whole chain: question 9 is put of every header, also of those behind a second container.
    #[tactic(auto, using(crate::proofs::Walks::going_fits, crate::proofs::Walks::going_more))]
    pub(crate) fn walk(self) -> Result<Walked<'a>, PacketFault>
        ensures { answer_of walked_of packet_refusal result ≡ walk_of self.entry.octets.now }
    {
        let mut kind = self.octets[NEXT_TYPE];
        let mut rest = &self.octets[FIRST_OCTETS..];
        let mut place = FIRST_OCTETS;
        let mut met = Met::Nothing;
        while kind != 0 {
            let size = header_size(rest, place)?;
            let next = rest[size - 1];
            let (header, back) = step(kind, rest, place);
            met = noted(met, header);
            kind = next;
            rest = back;
            place += size;
        }
        Ok(Walked {
            met,
            chain_end: place,
            inner: rest,
        })
    }
}

// What is met, with one header more.
fn noted<'a>(met: Met<'a>, header: Header<'a>) -> Met<'a>
    requires { RightCase header }
    ensures { seen_of result ≡ seen_after (seen_of met.entry) (header_meaning header.entry) }
{
    match (met, header) {
        (Met::Nothing, Header::Container { frame, place }) => Met::One { frame, place },
        (Met::One { .. }, Header::Container { place, .. }) => Met::Second { place },
        _ => met,
    }
}
