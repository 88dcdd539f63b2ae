//! Read: questions 1 to 13, and then a row for each item.
ghost use Rattle.std.specs.Prelude.{◌≡◌};
ghost use Rattle.base.specs.Answers.{answer_of};
ghost use Rattle.frame.specs.Faults.{read_refusal};
ghost use Rattle.frame.specs.Laws.{ReadingIsOnlyCut, RowsShowItems};
ghost use Rattle.frame.specs.Reading.{read_answer, read_table};
ghost use Rattle.frame.specs.Views.{told_of};
ghost use Rattle.frame.specs.Worked.{WorkedFrames};

use crate::fault::ReadFault;
use crate::fill::fill_rows;
use crate::open::{Open, open_for_read};
use crate::row::Row;
use layout::lawful::lawful;
use layout::layout::Layout;

/// What read hands out besides the rows: how many items are present, and the tail and the inner packet as parts of the packet.
#[derive(Clone, Copy)]
pub struct Reading<'a> {
    pub present: usize,
    pub tail: &'a [u8],
    pub inner: &'a [u8],
}

/// Reads the packet that is the first `count` octets of the buffer: questions 1 to 13, then a row for each item in the table.
/// Rows past the items stay, and a refusal changes no row.
pub fn read<'a, L: Layout>(
    layout: &L,
    buffer: &'a [u8],
    count: usize,
    rows: &mut [Row],
) -> Result<Reading<'a>, ReadFault>
    ensures answer { answer_of told_of read_refusal result ≡ read_answer L.source (L.meaning layout.now) buffer.now count rows.old }
    ensures table { rows.new ≡ read_table L.source (L.meaning layout.now) buffer.now count rows.old }
    ensures only_cut { ReadingIsOnlyCut }
    ensures rows_show { RowsShowItems }
    ensures worked { WorkedFrames }
{
    let lawful = lawful(layout)?;
    let Open {
        frame,
        survey,
        inner,
    } = open_for_read(&lawful, rows.len(), buffer, count)?;
    fill_rows(&lawful, frame, &survey.octets, rows);
    Ok(Reading {
        present: survey.present,
        tail: survey.tail,
        inner,
    })
}
