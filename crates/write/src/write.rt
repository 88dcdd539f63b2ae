//! Write: questions 1 to 4, 22 and 21, and the call.
ghost use Rattle.std.specs.Prelude.{◌≡◌, ℕ, ◌+◌, ◌≤◌, ◌&&◌, length, IfOk, MatchResult, nat_le};
ghost use Rattle.base.specs.Answers.{answer_of, refused, gives};
ghost use Rattle.frame.specs.Pieces.{joined};
ghost use Rattle.write.specs.Faults.{write_refusal};
ghost use Rattle.write.specs.Writing.{first_unfit, pieces_for, padding, plain_frame, packet_of, written, write_answer, write_buffer};
ghost use Rattle.write.specs.Laws.{WrittenReadsBack, PlainRewrites, RowsBehindDoNotCount};

use crate::check::check_rows;
use crate::fault::WriteFault;
use crate::put::put_packet;
use crate::record::Record;
use frame::row::Row;
use layout::lawful::lawful;
use layout::layout::Layout;
use packet::octets::MOST_OCTETS;

/// The octets in front of the frame: the first twelve of a G-PDU, and the container's unit count.
pub(crate) const HEAD: usize = 13;

/// The most octets of a frame: a unit count is one octet.
const MOST_FRAME: usize = 1018;

/// What is known of a packet before an octet of it is put: the record, whose rows fit, how many octets its items take, the
/// frame's octets, and the packet's.
#[derive(Drop)]
pub(crate) struct Plan<'a, L: Layout> {
    pub record: Record<'a, L>,
    pub inner: &'a [u8],
    pub size: usize,
    pub frame: usize,
    pub count: usize,
    ghost fit: { first_unfit (L.meaning record.lawful.layout.now) record.rows.now ≡ record.lawful.count },
    ghost sized: { size ≡ length (joined (pieces_for (L.meaning record.lawful.layout.now).items record.rows.now)) },
    ghost framed: { frame ≡ length (plain_frame (L.meaning record.lawful.layout.now).items record.rows.now) },
    ghost small: { frame ≤ 1018 },
    ghost counted: { count ≡ frame + length inner.now + 14 },
    ghost most: { count ≤ 9216 },
}

/// The fewest octets that make a frame of so many octets 4n - 2 long.
fn padding_of(size: usize) -> usize
    ensures { result ≡ padding size }
{
    (6 - size % 4) % 4
}

/// Question 21.
fn may_hold(frame: usize, count: usize, room: usize) -> bool
    ensures { result ≡ (nat_le frame 1018 && (nat_le count 9216 && nat_le count room)) }
{
    frame <= MOST_FRAME && count <= MOST_OCTETS && count <= room
}

/// Puts questions 1 to 4, 22 and 21.
fn plan_packet<'a, L: Layout>(
    layout: &'a L,
    rows: &'a [Row],
    inner: &'a [u8],
    room: usize,
) -> Result<Plan<'a, L>, WriteFault>
    ensures answer { MatchResult result (λ _. (t : ℕ) → written L.source (L.meaning layout.now) rows.now t inner.now room ≡ gives (packet_of t (plain_frame (L.meaning layout.now).items rows.now) inner.now)) (λ f. (t : ℕ) → written L.source (L.meaning layout.now) rows.now t inner.now room ≡ refused (write_refusal f)) }
    ensures layout { IfOk result (λ p. p.record.lawful.layout.now ≡ layout.now) }
    ensures rows { IfOk result (λ p. p.record.rows.now ≡ rows.now) }
    ensures inner { IfOk result (λ p. p.inner.now ≡ inner.now) }
    ensures held { IfOk result (λ p. p.count ≤ room) }
{
    let lawful = lawful(layout)?;
    if lawful.count > rows.len() {
        return Err(WriteFault::Rows { count: rows.len() });
    }
    let record = Record { lawful, rows };
    let size = check_rows(&record)?;
    let frame = size + padding_of(size);
    let count = HEAD + 1 + frame + inner.len();
    if !may_hold(frame, count, room) {
        return Err(WriteFault::Space { count });
    }
    Ok(Plan {
        record,
        inner,
        size,
        frame,
        count,
    })
}

/// Writes a packet into the first octets of a buffer: of the rows a frame in plain form, a TEID and an inner packet. Answers the
/// packet's count, or the first no to questions 1 to 4, 22 and 21, and then changes no octet.
#[tactic(auto, using(crate::proofs::Rewriting::plain_rewrites, crate::proofs::Behind::rows_behind))]
pub fn write<L: Layout>(
    layout: &L,
    rows: &[Row],
    teid: u32,
    inner: &[u8],
    buffer: &mut [u8],
) -> Result<usize, WriteFault>
    ensures answer { answer_of (λ n. n) write_refusal result ≡ write_answer (written L.source (L.meaning layout.now) rows.now teid inner.now (length buffer.old)) }
    ensures buffer { buffer.new ≡ write_buffer (written L.source (L.meaning layout.now) rows.now teid inner.now (length buffer.old)) buffer.old }
    ensures reads_back { WrittenReadsBack }
    ensures rewrites { PlainRewrites }
    ensures behind { RowsBehindDoNotCount }
{
    let plan = plan_packet(layout, rows, inner, buffer.len())?;
    put_packet(&plan, teid, &mut buffer[..plan.count]);
    Ok(plan.count)
}
