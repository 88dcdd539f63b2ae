//! The frame of a layout, drawn with eight columns, bit 7 to 0.
use crate::role::Role;
use crate::roles::role_of;
use layout::item::Item;
use layout::items::Items;
use layout::kind::Kind;
use layout::named::NamedLayout;

/// The line between two rows.
const RULE: &str = "+-----+-----+-----+-----+-----+-----+-----+-----+";

/// Prints the cell of a bit: a flag has the name of the first item that it governs.
fn draw_bit<N: NamedLayout>(rt: &HostRuntime, layout: &N, role: Role) -> anyhow::Result<()> {
    match role {
        Role::PduType => {}
        Role::Value => print!(rt; "|value")?,
        Role::Spare => print!(rt; "|spare")?,
        Role::Flag { item } => {
            let name = layout.name(item);
            print!(rt; "|{name}? ")?;
        }
    }
    Ok(())
}

/// Prints the row of a bits octet.
fn draw_octet<N: NamedLayout>(
    rt: &HostRuntime,
    layout: &N,
    i: usize,
    mask: u8,
) -> anyhow::Result<()> {
    if i == 0 {
        print!(rt; "|       PDU type        ")?;
    }
    for bit in (0u8..8).rev() {
        draw_bit(rt, layout, role_of(layout, i, mask, bit))?;
    }
    Ok(())
}

/// Prints the row of an item.
fn draw_item<N: NamedLayout>(
    rt: &HostRuntime,
    layout: &N,
    i: usize,
    item: &Item,
) -> anyhow::Result<()> {
    let name = layout.name(i);
    match item.kind {
        Kind::Bits => draw_octet(rt, layout, i, item.mask)?,
        Kind::Number => print!(rt; "|                      {name}                      ")?,
    }
    let length = item.length;
    match item.governor {
        None => println!(rt; "|  {length}       {name}")?,
        Some(_) => println!(rt; "|  0 or {length}  {name}")?,
    }
    println!(rt; "{RULE}")?;
    Ok(())
}

/// Draws the frame of a lawful layout: its items, and the padding behind them.
pub(crate) fn draw<N: NamedLayout>(rt: &HostRuntime, layout: &N) -> anyhow::Result<()> {
    println!(rt; "   7     6     5     4     3     2     1     0     octets")?;
    println!(rt; "{RULE}")?;
    for (i, item) in Items::new(layout).enumerate() {
        draw_item(rt, layout, i, &item)?;
    }
    println!(rt; "|                    padding                    |  0 to 3")?;
    println!(rt; "{RULE}")?;
    Ok(())
}
