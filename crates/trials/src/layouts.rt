//! Questions 1 to 3, the maker of items, and names.
use crate::listed::Listed;
use base::refusal::Refusal;
use layout::item::Item;
use layout::items::Items;
use layout::lawful::lawful;
use layout::layout::Layout;
use layout::maker::{NO_GOVERNOR, RawItem};
use layout::named::NamedLayout;
use layout::table::Published;

/// A bits octet with these named bits, by this governor.
pub(crate) fn octet(governor: u8, bit: u8, mask: u8) -> RawItem {
    RawItem {
        kind: 0,
        governor,
        bit,
        length: 1,
        mask,
        limit: 0,
    }
}

/// A number of so many octets with a limit, by this governor.
pub(crate) fn number(governor: u8, bit: u8, length: u8, limit: u64) -> RawItem {
    RawItem {
        kind: 1,
        governor,
        bit,
        length,
        mask: 0,
        limit,
    }
}

/// The items that raw values write down; those that are none are left out.
pub(crate) fn made(rt: &HostRuntime, raws: &[RawItem]) -> anyhow::Result<Vec<Item>> {
    let mut items = Vec::new(rt.alloc());
    for raw in raws {
        if let Ok(item) = Item::try_from(*raw) {
            items.push(item)?;
        }
    }
    Ok(items)
}

/// Prints what questions 1 to 3 answer of a layout of these items.
fn ask(rt: &HostRuntime, case: &str, raws: &[RawItem]) -> anyhow::Result<()> {
    let items = made(rt, raws)?;
    let layout = Listed {
        pdu_type: 1,
        items: &items,
    };
    match lawful(&layout) {
        Ok(_) => println!(rt; "{case}: lawful")?,
        Err(fault) => {
            let refusal = Refusal::from(fault);
            println!(rt; "{case}: {refusal}")?;
        }
    }
    Ok(())
}

/// Prints whether the raw values are an item.
fn try_item(rt: &HostRuntime, case: &str, raw: RawItem) -> anyhow::Result<()> {
    let answer = if Item::try_from(raw).is_ok() {
        "an item"
    } else {
        "no item"
    };
    println!(rt; "{case}: {answer}")?;
    Ok(())
}

fn ask_counts(rt: &HostRuntime) -> anyhow::Result<()> {
    let first = octet(NO_GOVERNOR, 0, 255);
    ask(rt, "no items", &[])?;
    ask(rt, "1 item", &[first])?;
    ask(rt, "64 items", &[first; 64])?;
    ask(rt, "65 items", &[first; 65])
}

fn ask_first(rt: &HostRuntime) -> anyhow::Result<()> {
    ask(rt, "item 0 a number", &[number(NO_GOVERNOR, 0, 1, 255)])?;
    ask(rt, "item 0 governed", &[octet(0, 0, 255)])?;
    ask(rt, "item 0 without bit 7", &[octet(NO_GOVERNOR, 0, 127)])?;
    ask(rt, "item 0 without bit 4", &[octet(NO_GOVERNOR, 0, 239)])?;
    ask(
        rt,
        "item 0 with bits 7 to 4 alone",
        &[octet(NO_GOVERNOR, 0, 240)],
    )
}

fn ask_governors(rt: &HostRuntime) -> anyhow::Result<()> {
    let first = octet(NO_GOVERNOR, 0, 255);
    ask(rt, "governed by itself", &[first, octet(1, 0, 255)])?;
    ask(
        rt,
        "governed by a later item",
        &[first, octet(2, 0, 255), first],
    )?;
    ask(
        rt,
        "governed by a number",
        &[first, number(NO_GOVERNOR, 0, 1, 255), octet(1, 0, 255)],
    )?;
    ask(
        rt,
        "governed by a spare bit",
        &[first, octet(NO_GOVERNOR, 0, 254), octet(1, 0, 255)],
    )?;
    ask(
        rt,
        "governed by bit 4 of item 0",
        &[first, octet(0, 4, 255)],
    )?;
    ask(
        rt,
        "governed by bit 3 of item 0",
        &[first, octet(0, 3, 255)],
    )?;
    ask(
        rt,
        "governed by bit 7 of item 1",
        &[first, octet(NO_GOVERNOR, 0, 128), octet(1, 7, 0)],
    )?;
    ask(
        rt,
        "two that fail",
        &[first, first, octet(9, 0, 0), octet(8, 0, 0)],
    )
}

fn try_items(rt: &HostRuntime) -> anyhow::Result<()> {
    let plain = number(NO_GOVERNOR, 0, 8, 18446744073709551615);
    try_item(rt, "the widest number", plain)?;
    try_item(rt, "length 9", RawItem { length: 9, ..plain })?;
    try_item(rt, "length 0", number(NO_GOVERNOR, 0, 0, 0))?;
    try_item(rt, "limit 256 in one octet", number(NO_GOVERNOR, 0, 1, 256))?;
    try_item(rt, "limit 255 in one octet", number(NO_GOVERNOR, 0, 1, 255))?;
    try_item(rt, "a number with a mask", RawItem { mask: 1, ..plain })?;
    try_item(
        rt,
        "a bits octet of two octets",
        RawItem {
            length: 2,
            ..octet(0, 0, 1)
        },
    )?;
    try_item(
        rt,
        "a bits octet with a limit",
        RawItem {
            limit: 1,
            ..octet(0, 0, 1)
        },
    )?;
    try_item(rt, "bit 8", octet(0, 8, 1))?;
    try_item(rt, "bit 1 of no governor", octet(NO_GOVERNOR, 1, 1))?;
    try_item(rt, "kind 2", RawItem { kind: 2, ..plain })
}

/// The constant of a kind of layout, as generic code reads it.
fn constant_of<L: Layout>(_layout: &L) -> u8 {
    L::ORIGIN
}

/// Prints the names of a published layout, and the octets of the name past its end.
fn name_items(rt: &HostRuntime, layout: Published) -> anyhow::Result<()> {
    for (i, _) in Items::new(&layout).enumerate() {
        let name = layout.name(i);
        print!(rt; "{name} ")?;
    }
    let [a, b, c] = layout.name(layout.count()).letters;
    println!(rt; "{a} {b} {c}")?;
    Ok(())
}

/// Runs the cases on layouts.
pub(crate) fn run(rt: &HostRuntime) -> anyhow::Result<()> {
    ask_counts(rt)?;
    ask_first(rt)?;
    ask_governors(rt)?;
    try_items(rt)?;
    name_items(rt, Published::Dl16)?;
    name_items(rt, Published::Ul19)?;
    let published = constant_of(&Published::Dl16);
    let listed = constant_of(&Listed {
        pdu_type: 0,
        items: &[],
    });
    println!(rt; "origins {published} {listed}")?;
    Ok(())
}
