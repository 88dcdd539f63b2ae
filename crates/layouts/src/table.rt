//! A layout's items, one a line.
use layout::item::Item;
use layout::items::Items;
use layout::kind::{Governor, Kind};
use layout::name::Name;
use layout::named::NamedLayout;
use std::alloc::Global;
use std::fmt::Write;

/// A governor as one text, since a column pads a text and not what `Display` writes part by part.
fn governor_text(heap: Global, governor: Option<Governor>) -> anyhow::Result<String> {
    match governor {
        None => Ok(String::from_str(heap, "none")?),
        Some(Governor { item, bit }) => Ok(format!(in heap; "({item},{bit})")?),
    }
}

/// The named bits of a mask by their numbers, a dot for each spare one; one text for the same reason.
fn bits_text(heap: Global, mask: u8) -> anyhow::Result<String> {
    let mut text = String::new(heap);
    for bit in (0u8..8).rev() {
        if (mask >> bit) % 2 == 1 {
            write!(text, "{bit}")?;
        } else {
            text.push('.')?;
        }
    }
    Ok(text)
}

/// Prints the line of an item.
fn list_item(rt: &HostRuntime, i: usize, name: Name, item: &Item) -> anyhow::Result<()> {
    let governor = governor_text(rt.alloc(), item.governor)?;
    let length = item.length;
    match item.kind {
        Kind::Bits => {
            let bits = bits_text(rt.alloc(), item.mask)?;
            println!(rt; "{i:>4}  {name}   bits    {governor:<8}  {length:>6}  {bits:<10}  -")?;
        }
        Kind::Number => {
            let limit = item.limit;
            println!(rt;
                "{i:>4}  {name}   number  {governor:<8}  {length:>6}  -           {limit}"
            )?;
        }
    }
    Ok(())
}

/// Prints the items of a layout.
pub(crate) fn list<N: NamedLayout>(rt: &HostRuntime, layout: &N) -> anyhow::Result<()> {
    println!(rt; "item  name  kind    governor  octets  named bits  limit")?;
    for (i, item) in Items::new(layout).enumerate() {
        list_item(rt, i, layout.name(i), &item)?;
    }
    Ok(())
}
