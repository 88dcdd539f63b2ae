//! The first pass over a frame: questions 11 to 13. Nothing is written yet.
ghost use Rattle.std.specs.Prelude.{◌≡◌, [], slice_index};
ghost use Rattle.base.specs.Answers.{answer_of};
ghost use Rattle.frame.specs.Faults.{frame_refusal};
ghost use Rattle.frame.specs.Pieces.{cut_from, cut_frame};
ghost use Rattle.frame.specs.Surveys.{surveyed, gathered_of};

use crate::fault::FrameFault;
use crate::frame::Frame;
use crate::item::{is_within, size_in};
use arrayvec::ArrayVec;
use base::number::number;
use layout::lawful::{LawfulLayout, MOST_ITEMS};
use layout::layout::Layout;

/// What the first pass gathers: the last octet of each item, which is what governors look at, the number of items that are
/// present, and the tail.
#[derive(Drop)]
pub(crate) struct Survey<'a> {
    pub octets: ArrayVec<u8, MOST_ITEMS>,
    pub present: usize,
    pub tail: &'a [u8],
}

/// Questions 12 and 13, item by item.
fn survey_items<'a, L: Layout>(
    lawful: &LawfulLayout<'_, L>,
    frame: Frame<'a>,
) -> Result<Survey<'a>, FrameFault>
    ensures { answer_of gathered_of frame_refusal result ≡ surveyed (cut_from (L.meaning lawful.now.layout.now).items [] frame.entry.place frame.entry.octets.now) }
{
    let mut octets = ArrayVec::<u8, MOST_ITEMS>::new();
    let mut present = 0;
    let mut at = frame.place;
    let mut rest = frame.octets;
    for item in lawful.items() {
        let size = size_in(&item, &octets);
        let Some((piece, behind)) = rest.split_at_checked(size) else {
            return Err(FrameFault::Short { place: at });
        };
        let value = number(piece);
        if !is_within(&item, value) {
            return Err(FrameFault::Limit { place: at });
        }
        octets.push((value % 256) as u8);
        present += usize::from(size > 0);
        at += size;
        rest = behind;
    }
    Ok(Survey {
        octets,
        present,
        tail: rest,
    })
}

/// The first octet, 0 where there is none.
fn first_octet(octets: &[u8]) -> u8
    ensures { result ≡ slice_index octets.now 0 }
{
    octets.first().copied().unwrap_or(0)
}

/// Questions 11 to 13.
pub(crate) fn survey_frame<'a, L: Layout>(
    lawful: &LawfulLayout<'_, L>,
    frame: Frame<'a>,
) -> Result<Survey<'a>, FrameFault>
    ensures { answer_of gathered_of frame_refusal result ≡ surveyed (cut_frame (L.meaning lawful.now.layout.now) frame.entry.place frame.entry.octets.now) }
{
    if first_octet(frame.octets) / 16 != lawful.layout.pdu_type() {
        return Err(FrameFault::PduType { place: frame.place });
    }
    survey_items(lawful, frame)
}
