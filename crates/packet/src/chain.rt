//! The chain of extension headers, a header at a time: question 9, and the step over one header.
ghost use Rattle.std.specs.Prelude.{◌≡◌, drop};
ghost use Rattle.std.specs.List.{between};
ghost use Rattle.base.specs.Answers.{answer_of};
ghost use Rattle.packet.specs.Chains.{header_at, header_size, size_answer, behind};
ghost use Rattle.packet.specs.Faults.{packet_refusal};
ghost use Rattle.packet.specs.Views.{header_meaning, RightCase};

use crate::fault::PacketFault;
use crate::header::Header;
use crate::octets::CONTAINER;

/// Question 9 of the header that starts `rest` at `place`: is its unit count above 0, and does it fit?
/// Answers how many octets the header has.
pub fn header_size(rest: &[u8], place: usize) -> Result<usize, PacketFault>
    ensures { answer_of (λ n. n) packet_refusal result ≡ size_answer rest.now place }
{
    let size = stated_size(rest);
    if size == 0 || size > rest.len() {
        return Err(PacketFault::Header { place });
    }
    Ok(size)
}

/// One step of the walk: the header of type `kind` (a number, as `Header` has it) that starts `rest` at `place`, and the octets behind it.
/// Question 9 stands before it; of a header that does not fit, both have what octets there are.
pub fn step<'a>(kind: u8, rest: &'a [u8], place: usize) -> (Header<'a>, &'a [u8])
    ensures header { header_meaning result.0 ≡ header_at kind place rest.now }
    ensures case { RightCase result.0 }
    ensures rest { result.1.now ≡ behind rest.now }
{
    let size = stated_size(rest);
    let content = octets_between(rest, 1, size.saturating_sub(1));
    let header = if kind == CONTAINER {
        Header::Container {
            frame: content,
            place,
        }
    } else {
        Header::Other {
            kind,
            content,
            place,
        }
    };
    (header, octets_from(rest, size))
}

// The octets of the first header by its unit count, four to a unit; none where there is no count.
fn stated_size(rest: &[u8]) -> usize
    ensures { result ≡ header_size rest.now }
{
    rest.first().map_or(0, |units| 4 * usize::from(*units))
}

// The octets from `from` up to `to`, those of them that there are.
fn octets_between(octets: &[u8], from: usize, to: usize) -> &[u8]
    ensures { result.now ≡ between from to octets.now }
{
    octets_from(octets.get(..to).unwrap_or(octets), from)
}

// The octets from `from` on, those of them that there are.
fn octets_from(octets: &[u8], from: usize) -> &[u8]
    ensures { result.now ≡ drop from octets.now }
{
    octets.get(from..).unwrap_or(&[])
}
