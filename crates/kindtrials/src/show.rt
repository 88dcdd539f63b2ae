//! A layout's items, and what a read by it shows.
ghost use Rattle.std.specs.Prelude.{◌<◌};

use crate::build::print_no;
use frame::read::read;
use frame::row::Row;
use layout::item::Item;
use layout::items::Items;
use layout::lawful::MOST_ITEMS;
use layout::layout::Layout;
use layout::maker::NO_GOVERNOR;
use layout::name::Name;
use layout::named::NamedLayout;

/// Prints an item: its number, name, kind, governor (255 and 0 for none), length, mask and limit.
fn show_item(rt: &HostRuntime, i: usize, name: Name, item: &Item) -> anyhow::Result<()> {
    // The numbers of a script's lines, which no `From` has: not every governor of an `Item` has them.
    let kind = item.kind as u8;
    let (g, bit) = item
        .governor
        .map_or((NO_GOVERNOR, 0), |governor| (governor.item, governor.bit));
    let length = item.length;
    let mask = item.mask;
    let limit = item.limit;
    println!(rt; "{i} {name} {kind} {g} {bit} {length} {mask} {limit}")?;
    Ok(())
}

/// Prints the origin, PDU type and items of a layout.
pub(crate) fn show_items<N: NamedLayout>(rt: &HostRuntime, layout: &N) -> anyhow::Result<()> {
    let origin = N::ORIGIN;
    let pdu_type = layout.pdu_type();
    let count = layout.count();
    println!(rt; "origin {origin} type {pdu_type} count {count}")?;
    for (i, item) in Items::new(layout).enumerate() {
        show_item(rt, i, layout.name(i), &item)?;
    }
    Ok(())
}

/// The value of a hexadecimal digit in capitals. Any other octet has one too: a script's digits are not judged.
fn digit(octet: u8) -> u8
    ensures { result < 16 }
{
    if octet < b'A' {
        octet.wrapping_sub(b'0') % 16
    } else {
        (octet - (b'A' - 10)) % 16
    }
}

/// A packet of which the only header is a container with a frame, given in hexadecimal pairs (see the trials' `packet`). A last digit
/// without a second is passed over.
fn packet(rt: &HostRuntime, digits: &str) -> anyhow::Result<Vec<u8>> {
    let mut frame = Vec::new(rt.alloc());
    for [high, low] in digits.as_bytes().as_chunks::<2>().0 {
        frame.push(digit(*high) * 16 + digit(*low))?;
    }
    let units = ((frame.len().saturating_add(2) / 4) % 256) as u8;
    let length = frame.len().saturating_add(6) % 65536;
    let mut octets = [
        0x34,
        0xff,
        (length / 256) as u8,
        (length % 256) as u8,
        0,
        0,
        0,
        7,
        0,
        0,
        0,
        0x85,
        units,
    ]
    .to_vec(rt.alloc())?;
    octets.extend_from_slice(&frame)?;
    octets.push(0)?;
    Ok(octets)
}

/// Prints the rows of present items.
fn show_rows<N: NamedLayout>(rt: &HostRuntime, layout: &N, rows: &[Row]) -> anyhow::Result<()> {
    for (i, row) in rows.iter().enumerate() {
        if row.present {
            let name = layout.name(i);
            let place = row.place;
            let value = row.value;
            println!(rt; "{name} {place} {value}")?;
        }
    }
    Ok(())
}

/// Reads a frame by a layout, and prints the present items, then their number and the tail's.
pub(crate) fn show_reading<N: NamedLayout>(
    rt: &HostRuntime,
    layout: &N,
    digits: &str,
) -> anyhow::Result<()> {
    let octets = packet(rt, digits)?;
    let mut rows = [Row::default(); MOST_ITEMS];
    match read(layout, &octets, octets.len(), &mut rows) {
        Ok(reading) => {
            let present = reading.present;
            let tail = reading.tail.len();
            show_rows(rt, layout, &rows)?;
            println!(rt; "OK {present} {tail}")?;
            Ok(())
        }
        Err(fault) => print_no(rt, fault.into()),
    }
}
