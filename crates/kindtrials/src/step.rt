//! The lines of a level.
use layout::entry::RawEntry;
use layout::maker::RawItem;
use layout::name::Name;

/// A step on an extension.
#[derive(Clone, Copy)]
pub(crate) enum Step<'a> {
    Add(RawEntry),
    NameBits { item: usize, bits: u8 },
    Show,
    Read { digits: &'a str },
}

/// A word of a line; nothing where it is missing.
fn word(line: &str, place: usize) -> &str {
    line.split(' ').nth(place).unwrap_or("")
}

/// A word of a line as an octet; 0 where it is missing.
fn octet(line: &str, place: usize) -> anyhow::Result<u8> {
    Ok(line.split(' ').nth(place).unwrap_or("0").parse::<u8>()?)
}

/// The entry of a line: kind, the governor's item and bit, length, mask, name, limit.
fn entry(line: &str) -> anyhow::Result<RawEntry> {
    let name = word(line, 6).as_bytes();
    let letters = [0usize, 1, 2].map(|i| name.get(i).copied().unwrap_or(0));
    let limit = line.split(' ').nth(7).unwrap_or("0").parse::<u64>()?;
    let item = RawItem {
        kind: octet(line, 1)?,
        governor: octet(line, 2)?,
        bit: octet(line, 3)?,
        length: octet(line, 4)?,
        mask: octet(line, 5)?,
        limit,
    };
    Ok(RawEntry {
        item,
        name: Name { letters },
    })
}

/// The step that a line is, or none where it ends the level. No `FromStr`: a step borrows from its line.
pub(crate) fn step_in(line: &str) -> anyhow::Result<Option<Step<'_>>> {
    let step = match word(line, 0) {
        "add" => Step::Add(entry(line)?),
        "name" => Step::NameBits {
            item: usize::from(octet(line, 1)?),
            bits: octet(line, 2)?,
        },
        "show" => Step::Show,
        "read" => Step::Read {
            digits: word(line, 1),
        },
        _ => return Ok(None),
    };
    Ok(Some(step))
}
