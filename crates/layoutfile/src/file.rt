//! A layout over the octets of a file.
ghost use Rattle.std.specs.Prelude.{◌≡◌, ◌≤◌, map};
ghost use Rattle.layoutfile.specs.Files.{entry_in, EachIsItem, items_of, file_items, file_type};

use crate::decode::ENTRY;

/// The layout that a file's octets write down. The octets stay where they are, and an entry is decoded when it is asked for.
/// Octets that fail questions 23 to 25 are a layout of type 0 without items.
#[derive(Clone, Copy)]
pub struct FileLayout<'a> {
    /// The whole file, by which contracts say what the layout means.
    pub(crate) octets: &'a [u8],
    pub(crate) pdu_type: u8,
    /// Its entries; none where it fails.
    pub(crate) entries: &'a [[u8; ENTRY]],
    ghost typed: { pdu_type ≡ file_type octets.now },
    ghost half: { pdu_type ≤ 15 },
    ghost accepted: { EachIsItem (map entry_in entries.now) },
    ghost listed: { file_items octets.now ≡ items_of (map entry_in entries.now) },
}
