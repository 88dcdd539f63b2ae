//! A packet opened by a layout: questions 4 to 13. Nothing is written yet.
ghost use Rattle.std.specs.Prelude.{◌≡◌, MatchResult};
ghost use Rattle.base.specs.Answers.{answer_of, refused};
ghost use Rattle.frame.specs.Faults.{frame_refusal, read_refusal};
ghost use Rattle.frame.specs.Reading.{opened_for_read, opened_packet};
ghost use Rattle.frame.specs.Views.{opened_of, gathered_packet, IsOpen};

use crate::fault::{FrameFault, ReadFault};
use crate::frame::Frame;
use crate::survey::{Survey, survey_frame};
use layout::lawful::LawfulLayout;
use layout::layout::Layout;
use packet::container::find_container;

/// A packet whose frame was found and surveyed, and the inner packet in it.
#[derive(Drop)]
pub(crate) struct Open<'a> {
    pub frame: Frame<'a>,
    pub survey: Survey<'a>,
    pub inner: &'a [u8],
}

/// Questions 5 to 13. The frame stands behind the container's unit count.
fn open_packet<'a, L: Layout>(
    lawful: &LawfulLayout<'_, L>,
    buffer: &'a [u8],
    count: usize,
) -> Result<Open<'a>, FrameFault>
    ensures { answer_of opened_of frame_refusal result ≡ gathered_packet (opened_packet (L.meaning lawful.now.layout.now) buffer.now count) }
{
    let found = find_container(buffer, count)?;
    let frame = Frame {
        octets: found.frame,
        place: found.place + 1,
    };
    let survey = survey_frame(lawful, frame)?;
    Ok(Open {
        frame,
        survey,
        inner: found.inner,
    })
}

/// Questions 4 to 13, for a table of so many rows.
pub(crate) fn open_for_read<'a, L: Layout>(
    lawful: &LawfulLayout<'_, L>,
    row_count: usize,
    buffer: &'a [u8],
    count: usize,
) -> Result<Open<'a>, ReadFault>
    ensures { MatchResult result (λ o. IsOpen (L.meaning lawful.now.layout.now) row_count o (opened_for_read L.source (L.meaning lawful.now.layout.now) row_count buffer.now count)) (λ f. opened_for_read L.source (L.meaning lawful.now.layout.now) row_count buffer.now count ≡ refused (read_refusal f)) }
{
    if lawful.count > row_count {
        return Err(ReadFault::Rows { count: row_count });
    }
    let open = open_packet(lawful, buffer, count)?;
    Ok(open)
}
