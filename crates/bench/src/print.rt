//! The text of the bench's answers.
ghost use Rattle.std.specs.Prelude.{◌≡◌, ◌++◌, length, take, string_bytes, OnOk};
ghost use Rattle.bench.specs.Texts.{row_text, rows_text, no_text, ok_text, reply_text};

use crate::reply::Reply;
use base::refusal::Refusal;
use frame::row::Row;
use layout::layout::Layout;
use layout::name::Name;
use layout::named::NamedLayout;
use std::alloc::AllocError;

/// Adds the line of an item that is present: its name and its value.
fn push_row(out: &mut String, name: Name, row: Row) -> Result<(), AllocError>
    ensures { OnOk result (string_bytes out.new ≡ string_bytes out.old ++ row_text name.letters row) }
{
    if !row.present {
        return Ok(());
    }
    let value = row.value;
    writeln!(out, "{name} {value}")
}

/// Adds the line of a refusal.
fn push_no(out: &mut String, refusal: Refusal) -> Result<(), AllocError>
    ensures { OnOk result (string_bytes out.new ≡ string_bytes out.old ++ no_text refusal) }
{
    let number = refusal.question.number();
    let place = refusal.place;
    writeln!(out, "NO {number} {place}")
}

/// Adds the line that ends an accepted answer.
fn push_ok(out: &mut String, count: usize) -> Result<(), AllocError>
    ensures { OnOk result (string_bytes out.new ≡ string_bytes out.old ++ ok_text count) }
{
    writeln!(out, "OK {count}")
}

/// Adds a line for each present item of the first rows, one row for each item of the layout.
#[tactic(auto, using(crate::proofs::Printing::rows_more))]
fn push_rows<N: NamedLayout>(out: &mut String, layout: &N, rows: &[Row]) -> Result<(), AllocError>
    ensures { OnOk result (string_bytes out.new ≡ string_bytes out.old ++ rows_text (N.names layout.now) 0 (take (length (N.meaning layout.now).items) rows.now)) }
{
    let shown = layout.count().min(rows.len());
    for (i, row) in rows[..shown].iter().enumerate() {
        push_row(out, layout.name(i), *row)?;
    }
    Ok(())
}

/// Adds the lines of a read by a layout: its rows, and how many items are present.
fn push_shown<N: NamedLayout>(
    out: &mut String,
    layout: &N,
    rows: &[Row],
    present: usize,
) -> Result<(), AllocError>
    ensures { OnOk result (string_bytes out.new ≡ string_bytes out.old ++ (rows_text (N.names layout.now) 0 (take (length (N.meaning layout.now).items) rows.now) ++ ok_text present)) }
{
    push_rows(out, layout, rows)?;
    push_ok(out, present)
}

/// Adds the lines of a reply; the rows of a read are in the table.
pub fn push_reply(
    out: &mut String,
    reply: Result<Reply, Refusal>,
    rows: &[Row],
) -> Result<(), AllocError>
    ensures { OnOk result (string_bytes out.new ≡ string_bytes out.old ++ reply_text reply rows.now) }
{
    match reply {
        Err(refusal) => push_no(out, refusal),
        Ok(Reply::Kept { count }) => push_ok(out, count),
        Ok(Reply::Shown { layout, present }) => push_shown(out, &layout, rows, present),
    }
}
