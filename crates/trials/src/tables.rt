//! Tables: question 4, rows that stay, and faults that are found late.
use crate::layouts::{made, number, octet};
use crate::listed::Listed;
use crate::packets::{UNTOUCHED, packet, written};
use base::refusal::Refusal;
use frame::read::read;
use frame::row::Row;
use layout::layout::Layout;
use layout::maker::{NO_GOVERNOR, RawItem};
use layout::table::Published;

/// Reads a packet with this frame into a table of so many rows, and prints the answer and the rows that are not as they were.
fn show<L: Layout>(
    rt: &HostRuntime,
    case: &str,
    layout: &L,
    chain: &[u8],
    table: usize,
) -> anyhow::Result<()> {
    let mut rows = UNTOUCHED;
    let octets = packet(rt, 0x85, chain, 0)?;
    let size = table.min(rows.len());
    match read(layout, &octets, octets.len(), &mut rows[..size]) {
        Ok(reading) => {
            let present = reading.present;
            print!(rt; "{case}: {present} present, tail")?;
            show_octets(rt, reading.tail)?;
        }
        Err(fault) => {
            let refusal = Refusal::from(fault);
            print!(rt; "{case}: {refusal}")?;
        }
    }
    let count = written(&rows);
    println!(rt; "; {count} rows written")?;
    if count < 6 {
        show_rows(rt, &rows[..count])?;
    }
    Ok(())
}

/// Prints octets.
fn show_octets(rt: &HostRuntime, octets: &[u8]) -> anyhow::Result<()> {
    for octet in octets {
        print!(rt; " {octet}")?;
    }
    Ok(())
}

/// Prints rows.
fn show_rows(rt: &HostRuntime, rows: &[Row]) -> anyhow::Result<()> {
    for row in rows {
        let present = row.present as u8;
        let place = row.place;
        let value = row.value;
        println!(rt; "  {present} {place} {value}")?;
    }
    Ok(())
}

/// Question 4, and the rows past the items.
fn run_published(rt: &HostRuntime) -> anyhow::Result<()> {
    let frame = [2, 0x04, 0x89, 0xbf, 1, 2, 3, 0];
    show(rt, "5 rows for 5 items", &Published::Dl16, &frame, 5)?;
    show(rt, "4 rows for 5 items", &Published::Dl16, &frame, 4)?;
    show(rt, "64 rows for 5 items", &Published::Dl16, &frame, 64)?;
    show(rt, "another PDU type", &Published::Ul161, &frame, 64)?;
    show(
        rt,
        "a number that does not fit",
        &Published::Dl16,
        &[1, 0x0c, 0x09, 0],
        64,
    )
}

/// A layout whose last item has a limit and hangs on an octet that is governed itself.
fn run_listed(rt: &HostRuntime) -> anyhow::Result<()> {
    let raws = [
        octet(NO_GOVERNOR, 0, 0xf3),
        octet(0, 0, 0x0f),
        number(0, 1, 3, 70000),
        octet(1, 3, 0xff),
        number(3, 7, 2, 300),
    ];
    let items = made(rt, &raws)?;
    let layout = Listed {
        pdu_type: 3,
        items: &items,
    };
    show_limits(rt, &layout)?;
    show(rt, "an absent governor", &layout, &[1, 0x30, 0xff, 0], 64)?;
    show(
        rt,
        "without the third",
        &layout,
        b"\x02\x31\x08\x80\x01\x01\x01\x00",
        64,
    )?;
    show(
        rt,
        "an octet that does not fit",
        &layout,
        &[1, 0x31, 0x08, 0],
        64,
    )
}

/// All five items, with numbers at and over their limits.
fn show_limits<L: Layout>(rt: &HostRuntime, layout: &L) -> anyhow::Result<()> {
    let right = b"\x03\x3f\xff\x01\x11\x70\x80\x01\x2c\x08\x09\x00";
    let late = b"\x03\x3f\xff\x01\x11\x70\x80\x01\x2d\x08\x09\x00";
    let early = b"\x03\x3f\xff\x01\x11\x71\x80\x01\x2c\x08\x09\x00";
    show(rt, "all five", layout, right, 64)?;
    show(rt, "the last is over its limit", layout, late, 64)?;
    show(rt, "an early one is over its limit", layout, early, 64)
}

/// 64 items.
fn run_many(rt: &HostRuntime) -> anyhow::Result<()> {
    let raws: [RawItem; 64] = [octet(NO_GOVERNOR, 0, 0xf0); 64];
    let items = made(rt, &raws)?;
    let layout = Listed {
        pdu_type: 0,
        items: &items,
    };
    let mut chain = [0u8; 68];
    chain[0] = 17;
    show(rt, "64 items", &layout, &chain, 64)?;
    show(rt, "64 items, 63 rows", &layout, &chain, 63)?;
    let raws: [RawItem; 65] = [octet(NO_GOVERNOR, 0, 0xf0); 65];
    let items = made(rt, &raws)?;
    let layout = Listed {
        pdu_type: 0,
        items: &items,
    };
    show(rt, "65 items", &layout, &chain, 64)
}

/// Runs the cases on tables.
pub(crate) fn run(rt: &HostRuntime) -> anyhow::Result<()> {
    run_published(rt)?;
    run_listed(rt)?;
    run_many(rt)
}
