//! Questions 23 to 25, which are put to the octets of a layout file.
ghost use Rattle.std.specs.Prelude.{◌≡◌, ◌+◌, ◌*◌, length, not, position};
ghost use Rattle.base.specs.Answers.{answer_of};
ghost use Rattle.layoutfile.specs.Faults.{file_refusal};
ghost use Rattle.layoutfile.specs.Files.{starts_well, well_sized, entry_in, is_item, file_questions};
ghost use Rattle.layoutfile.specs.Laws.{FilesAreWritten};

use crate::decode::{ENTRY, HEAD, decode_entry, entries_of};
use crate::fault::FileFault;
use layout::lawful::MOST_ITEMS;

/// Where the PDU type stands.
pub(crate) const TYPE_AT: usize = 5;

/// Where the count stands.
const COUNT_AT: usize = 6;

/// Whether there are 8 octets that start with `UPL` and version 1.
fn starts_well(octets: &[u8]) -> bool
    ensures { result ≡ starts_well octets.now }
{
    octets.len() >= HEAD && octets.starts_with(b"UPL\x00\x01")
}

/// Whether the file is as long as its count asks, the count 1 to 64, the PDU type at most 15, the eighth octet 0.
fn is_well_sized(octets: &[u8]) -> bool
    ensures { result ≡ well_sized octets.now }
{
    if octets.len() < HEAD {
        return false;
    }
    let count = usize::from(octets[COUNT_AT]);
    octets.len() == HEAD + ENTRY * count
        && (1..=MOST_ITEMS).contains(&count)
        && octets[TYPE_AT] <= 15
        && octets[7] == 0
}

/// Whether 16 octets write down an item, its name three capitals or digits.
fn is_item(entry: &[u8; ENTRY]) -> bool
    ensures { result ≡ is_item (entry_in entry.now) }
{
    decode_entry(entry).accept().is_some()
}

/// The first entry that is no item, or whose name is none, if there is one.
fn first_wrong_entry(entries: &[[u8; ENTRY]]) -> Option<usize>
    ensures { result ≡ position (λ entry. not (is_item (entry_in entry))) entries.now }
{
    entries.iter().position(|entry| !is_item(entry))
}

/// Puts questions 23 to 25 to the octets of a layout file.
#[tactic(auto, using(crate::proofs::Passing::asking, crate::proofs::Written::files_are_written))]
pub fn check_file(octets: &[u8]) -> Result<(), FileFault>
    ensures answer { answer_of (λ u. u) file_refusal result ≡ file_questions octets.now }
    ensures written { FilesAreWritten }
{
    if !starts_well(octets) {
        return Err(FileFault::Start);
    }
    if !is_well_sized(octets) {
        return Err(FileFault::Size);
    }
    if let Some(entry) = first_wrong_entry(entries_of(octets)) {
        return Err(FileFault::Entry { entry });
    }
    Ok(())
}
