//! The packet's bounds, and the walk over its headers.
use base::refusal::Refusal;
use frame::read::read;
use frame::row::Row;
use layout::table::Published;
use packet::chain::{header_size, step};
use packet::container::find_container;
use packet::header::Header;

/// A table of rows that no read writes.
pub const UNTOUCHED: [Row; 64] = [Row {
    present: true,
    place: 7777,
    value: 7777,
}; 64];

/// A G-PDU: the first type, the chain's octets, and so many octets of inner packet. The kind trials make one of a frame; a crate for
/// both would be longer than the two.
pub(crate) fn packet(
    rt: &HostRuntime,
    first: u8,
    chain: &[u8],
    inner: usize,
) -> anyhow::Result<Vec<u8>> {
    let mut octets = Vec::new(rt.alloc());
    let length = chain.len().saturating_add(inner).saturating_add(4);
    let high = ((length / 256) % 256) as u8;
    let low = (length % 256) as u8;
    octets.extend_from_slice(&[0x34, 0xff, high, low, 0, 0, 0, 7, 0, 0, 0, first])?;
    octets.extend_from_slice(chain)?;
    octets.resize(octets.len().saturating_add(inner), 0x45)?;
    Ok(octets)
}

/// Prints what a read by DL 16 of the first `count` octets answers, and how many rows it wrote.
pub(crate) fn show(
    rt: &HostRuntime,
    case: &str,
    buffer: &[u8],
    count: usize,
) -> anyhow::Result<()> {
    let mut rows = UNTOUCHED;
    match read(&Published::Dl16, buffer, count, &mut rows) {
        Ok(reading) => {
            let present = reading.present;
            let tail = reading.tail.len();
            let inner = reading.inner.len();
            print!(rt; "{case}: {present} present, tail {tail}, inner {inner}")?;
        }
        Err(fault) => {
            let refusal = Refusal::from(fault);
            print!(rt; "{case}: {refusal}")?;
        }
    }
    let written = written(&rows);
    println!(rt; "; {written} rows written")?;
    Ok(())
}

/// How many rows are not as they were.
pub(crate) fn written(rows: &[Row]) -> usize {
    rows.iter().filter(|row| row.place != 7777).count()
}

/// Prints the container that is found.
fn find(rt: &HostRuntime, case: &str, packet: &[u8]) -> anyhow::Result<()> {
    match find_container(packet, packet.len()) {
        Ok(found) => {
            let place = found.place;
            let frame = found.frame.len();
            let end = found.chain_end;
            let inner = found.inner.len();
            println!(rt;
                "{case}: container at {place}, frame of {frame}, end {end}, inner {inner}"
            )?;
        }
        Err(fault) => {
            let refusal = Refusal::from(fault);
            println!(rt; "{case}: {refusal}")?;
        }
    }
    Ok(())
}

/// Prints each header of a chain of at most eight.
fn walk(rt: &HostRuntime, first: u8, chain: &[u8]) -> anyhow::Result<()> {
    let mut kind = first;
    let mut rest = chain;
    let mut at = 0usize;
    for _ in 0..8 {
        let Ok(size) = header_size(rest, at) else {
            println!(rt; "no header at {at}")?;
            break;
        };
        let (header, behind) = step(kind, rest, at);
        match header {
            Header::Container { frame, place } => {
                let len = frame.len();
                println!(rt; "container at {place}, frame of {len}")?;
            }
            Header::Other {
                kind,
                content,
                place,
            } => {
                let len = content.len();
                println!(rt; "type {kind} at {place}, content of {len}")?;
            }
        }
        kind = rest.get(size.saturating_sub(1)).copied().unwrap_or(0);
        rest = behind;
        at = at.saturating_add(size);
        if kind == 0 {
            let len = rest.len();
            println!(rt; "chain's end at {at}, {len} behind it")?;
            break;
        }
    }
    Ok(())
}

/// The bounds of question 5.
fn run_bounds(rt: &HostRuntime) -> anyhow::Result<()> {
    let container = [1, 0x00, 0x09, 0x00];
    let longest = packet(rt, 0x85, &container, 9200)?;
    show(rt, "9216 octets", &longest, longest.len())?;
    let longer = packet(rt, 0x85, &container, 9201)?;
    show(rt, "9217 octets", &longer, longer.len())?;
    show(rt, "11 octets", &longest, 11)?;
    let shortest = packet(rt, 0, &[], 0)?;
    show(rt, "12 octets", &shortest, 12)?;
    show(rt, "a count beyond the buffer", &shortest, 13)
}

/// Questions 6 to 8: the packet with one octet replaced.
fn run_first_octets(rt: &HostRuntime) -> anyhow::Result<()> {
    let right = packet(rt, 0x85, &[1, 0, 9, 0], 1)?;
    show_replaced(rt, "version 2", &right, 0, 0x54)?;
    show_replaced(rt, "protocol type 0", &right, 0, 0x24)?;
    show_replaced(rt, "no extension header flag", &right, 0, 0x33)?;
    show_replaced(rt, "all other flags set", &right, 0, 0x3f)?;
    show_replaced(rt, "an echo request", &right, 1, 1)?;
    show_replaced(rt, "a length of 8", &right, 3, 8)?;
    show_replaced(rt, "a length of 10", &right, 3, 10)
}

/// Prints what a read answers of the octets with another one at a place.
fn show_replaced(
    rt: &HostRuntime,
    case: &str,
    right: &[u8],
    place: usize,
    octet: u8,
) -> anyhow::Result<()> {
    let octets = replaced(rt, right, place, octet)?;
    show(rt, case, &octets, octets.len())
}

/// The octets with another one at a place.
fn replaced(rt: &HostRuntime, octets: &[u8], place: usize, octet: u8) -> anyhow::Result<Vec<u8>> {
    let mut copy = octets.to_vec(rt.alloc())?;
    if let Some(at) = copy.get_mut(place) {
        *at = octet;
    }
    Ok(copy)
}

/// Questions 9 and 10.
fn run_chains(rt: &HostRuntime) -> anyhow::Result<()> {
    let one = packet(rt, 0x40, &[1, 0, 0, 0x85, 1, 0, 9, 0], 1)?;
    find(rt, "one container", &one)?;
    let two = packet(rt, 0x85, &[1, 0, 9, 0x85, 1, 0, 9, 0], 0)?;
    find(rt, "two containers", &two)?;
    let none = packet(rt, 0x40, &[1, 0, 0, 0], 3)?;
    find(rt, "no container", &none)?;
    let zero = packet(rt, 0x85, &[1, 0, 9, 0x85, 0, 0, 9, 0], 0)?;
    find(rt, "unit count 0 before a second container", &zero)?;
    let long = packet(rt, 0x85, &[2, 0, 9, 0], 3)?;
    find(rt, "a header one octet too long", &long)?;
    let fits = packet(rt, 0x85, &[2, 0, 9, 0], 4)?;
    find(
        rt,
        "a header that just fits, of which the next does not",
        &fits,
    )?;
    let gone = packet(rt, 0x85, &[1, 0, 9, 0x85], 0)?;
    find(rt, "a header announced behind the last octet", &gone)
}

/// Runs the cases on packets.
pub(crate) fn run(rt: &HostRuntime) -> anyhow::Result<()> {
    run_bounds(rt)?;
    run_first_octets(rt)?;
    run_chains(rt)?;
    walk(
        rt,
        0x40,
        &[1, 0, 0, 0x85, 2, 1, 2, 3, 4, 5, 6, 0xc0, 1, 9, 9, 0, 0x45],
    )?;
    walk(rt, 0x40, &[1, 0, 0, 0x85, 0, 0])
}
