//! Writing: what is made of rows, the parts of question 22, the bounds of 21, and buffers that stay.
use crate::layouts::{made, octet};
use crate::listed::Listed;
use crate::packets::UNTOUCHED;
use base::refusal::Refusal;
use frame::read::read;
use frame::row::Row;
use layout::layout::Layout;
use layout::maker::{NO_GOVERNOR, RawItem};
use layout::table::Published;
use write::write::write;

/// What buffers hold before a packet is written.
const OLD: u8 = 0xaa;

/// The TEID of each packet.
const TEID: u32 = 0x0102_0304;

/// A row for each item of UL 19, which has the most, and one more; those named are present with these values.
fn rows_of(present: &[(usize, u64)]) -> [Row; 16] {
    let mut rows = [Row::default(); 16];
    for (i, value) in present {
        if let Some(row) = rows.get_mut(*i) {
            *row = Row {
                present: true,
                place: 0,
                value: *value,
            };
        }
    }
    rows
}

/// Whether a read of the packet shows these rows again, with the inner packet and a tail that is only padding.
fn reads_back<L: Layout>(layout: &L, packet: &[u8], rows: &[Row], inner: &[u8]) -> bool {
    let mut shown = UNTOUCHED;
    let Ok(reading) = read(layout, packet, packet.len(), &mut shown) else {
        return false;
    };
    let same = rows
        .iter()
        .zip(&shown)
        .take(layout.count())
        .all(|(a, b)| a.present == b.present && a.value == b.value);
    same && reading.inner == inner
        && reading.tail.len() <= 3
        && reading.tail.iter().all(|octet| *octet == 0)
}

/// Whether the rows that a read of the packet shows, in a table with more rows behind them, are written to the same packet.
fn rewrites<L: Layout>(rt: &HostRuntime, layout: &L, packet: &[u8]) -> anyhow::Result<bool> {
    let mut shown = UNTOUCHED;
    let Ok(reading) = read(layout, packet, packet.len(), &mut shown) else {
        return Ok(false);
    };
    let mut again = Vec::new(rt.alloc());
    again.resize(packet.len(), OLD)?;
    let written = write(layout, &shown, TEID, reading.inner, &mut again);
    Ok(written == Ok(packet.len()) && again.as_slice() == packet)
}

/// Writes a packet with so many octets of inner packet into a buffer of so many octets. Prints the first of its octets and
/// whether it reads back, or the refusal; and how many octets of the buffer are as they were, from the end.
fn show<L: Layout>(
    rt: &HostRuntime,
    case: &str,
    layout: &L,
    rows: &[Row],
    inner: usize,
    room: usize,
) -> anyhow::Result<()> {
    let mut buffer = Vec::new(rt.alloc());
    buffer.resize(room, OLD)?;
    let mut payload = Vec::new(rt.alloc());
    payload.resize(inner, 0x45)?;
    match write(layout, rows, TEID, &payload, &mut buffer) {
        Ok(count) => {
            let packet = buffer.get(..count).unwrap_or(&[]);
            print!(rt; "{case}: {count}:")?;
            for octet in packet.iter().take(40) {
                print!(rt; " {octet:02x}")?;
            }
            let back = reads_back(layout, packet, rows, &payload);
            let again = rewrites(rt, layout, packet)?;
            print!(rt; "; reads back {back}, written again {again}")?;
        }
        Err(fault) => {
            let refusal = Refusal::from(fault);
            print!(rt; "{case}: {refusal}")?;
        }
    }
    let old = buffer
        .iter()
        .rev()
        .take_while(|octet| **octet == OLD)
        .count();
    println!(rt; "; {old} of {room} stay")?;
    Ok(())
}

/// Frames of published layouts.
fn run_frames(rt: &HostRuntime) -> anyhow::Result<()> {
    let least = rows_of(&[(0, 0), (1, 9)]);
    show(rt, "the least", &Published::Dl16, &least, 1, 20)?;
    let paged = rows_of(&[(0, 0), (1, 0x89), (2, 160)]);
    show(rt, "padded", &Published::Dl16, &paged, 0, 24)?;
    let stamped = rows_of(&[(0, 0x0c), (1, 9), (3, u64::MAX), (4, 0x0001_02ff)]);
    show(rt, "a stamp", &Published::Dl16, &stamped, 2, 40)?;
    let congested = rows_of(&[(0, 16), (1, 69), (9, 2), (11, 9574)]);
    show(rt, "congestion", &Published::Ul19, &congested, 0, 20)
}

/// Question 22: rows that are there or not, against their flags.
fn run_flags(rt: &HostRuntime) -> anyhow::Result<()> {
    let dl = &Published::Dl16;
    let unflagged = rows_of(&[(0, 0), (1, 9), (4, 1)]);
    show(rt, "present, flag 0", dl, &unflagged, 0, 30)?;
    let missing = rows_of(&[(0, 4), (1, 9)]);
    show(rt, "absent, flag 1", dl, &missing, 0, 30)?;
    let mut valued = rows_of(&[(0, 0), (1, 9)]);
    valued[3].value = 1;
    show(rt, "absent with a value", dl, &valued, 0, 30)
}

/// Question 22: numbers at their limit and over it.
fn run_limits(rt: &HostRuntime) -> anyhow::Result<()> {
    let at = rows_of(&[(0, 16), (1, 64), (9, 2), (11, 10000)]);
    show(rt, "at the limit", &Published::Ul19, &at, 0, 20)?;
    let over = rows_of(&[(0, 16), (1, 64), (9, 2), (11, 10001)]);
    show(rt, "over the limit", &Published::Ul19, &over, 0, 20)?;
    let long = rows_of(&[(0, 4), (1, 9), (4, 1 << 24)]);
    show(rt, "a number too long", &Published::Dl16, &long, 0, 30)
}

/// Question 22: octets with bits that they may not have.
fn run_octets(rt: &HostRuntime) -> anyhow::Result<()> {
    let dl = &Published::Dl16;
    let spare = rows_of(&[(0, 1), (1, 9)]);
    show(rt, "a spare bit", dl, &spare, 0, 30)?;
    let wide = rows_of(&[(0, 0), (1, 265)]);
    show(rt, "a value of nine bits", dl, &wide, 0, 30)?;
    let other = rows_of(&[(0, 16), (1, 9)]);
    show(rt, "another type", dl, &other, 0, 30)
}

/// Question 4.
fn run_tables(rt: &HostRuntime) -> anyhow::Result<()> {
    let dl = &Published::Dl16;
    let rows = rows_of(&[(0, 0), (1, 9)]);
    show(rt, "5 rows to write", dl, &rows[..5], 0, 16)?;
    show(rt, "4 rows to write", dl, &rows[..4], 0, 16)
}

/// Two questions whose answers are no: the first in order refuses.
fn run_orders(rt: &HostRuntime) -> anyhow::Result<()> {
    let rows = rows_of(&[(0, 1), (1, 9)]);
    show(
        rt,
        "4 rows, a spare bit",
        &Published::Dl16,
        &rows[..4],
        0,
        16,
    )?;
    show(
        rt,
        "a spare bit, a short buffer",
        &Published::Dl16,
        &rows,
        0,
        15,
    )
}

/// The bounds of question 21, and a layout that is refused.
fn run_bounds(rt: &HostRuntime) -> anyhow::Result<()> {
    let rows = rows_of(&[(0, 0), (1, 9)]);
    show(rt, "one octet short", &Published::Dl16, &rows, 4, 19)?;
    show(rt, "just enough", &Published::Dl16, &rows, 4, 20)?;
    show(rt, "no buffer", &Published::Dl16, &rows, 0, 0)?;
    show(rt, "9,216 octets", &Published::Dl16, &rows, 9200, 9300)?;
    show(rt, "9,217 octets", &Published::Dl16, &rows, 9201, 9300)?;
    let raws: [RawItem; 65] = [octet(NO_GOVERNOR, 0, 0xf0); 65];
    let items = made(rt, &raws)?;
    let layout = Listed {
        pdu_type: 0,
        items: &items,
    };
    show(rt, "65 items to write", &layout, &rows, 0, 30)
}

/// Runs the cases on writing.
pub(crate) fn run(rt: &HostRuntime) -> anyhow::Result<()> {
    run_frames(rt)?;
    run_flags(rt)?;
    run_limits(rt)?;
    run_octets(rt)?;
    run_tables(rt)?;
    run_orders(rt)?;
    run_bounds(rt)
}
