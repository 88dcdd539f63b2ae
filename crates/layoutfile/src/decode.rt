//! Entries from octets.
ghost use Rattle.std.specs.Prelude.{◌≡◌, ◌+◌, ◌*◌, map, length};
ghost use Rattle.layoutfile.specs.Files.{stated_count, entry_in, entries};

use base::number::number;
use layout::entry::RawEntry;
use layout::maker::RawItem;
use layout::name::Name;

/// The octets before the entries.
pub(crate) const HEAD: usize = 8;

/// The octets of an entry.
pub(crate) const ENTRY: usize = 16;

/// The entry that 16 octets write down: kind, the governor's item and bit, length, mask, name in three, limit in eight.
/// No `From`: the entry belongs to the crate below, which does not know files.
pub(crate) fn decode_entry(octets: &[u8; ENTRY]) -> RawEntry
    ensures { result ≡ entry_in octets.now }
{
    let [kind, governor, bit, length, mask, a, b, c, ..] = *octets;
    RawEntry {
        item: RawItem {
            kind,
            governor,
            bit,
            length,
            mask,
            limit: number(&octets[8..]),
        },
        name: Name { letters: [a, b, c] },
    }
}

/// The entries behind a file's head, sixteen octets each.
pub(crate) fn entries_of(octets: &[u8]) -> &[[u8; ENTRY]]
    requires { length octets.now ≡ 8 + 16 * stated_count octets.now }
    ensures { map entry_in result.now ≡ entries octets.now }
{
    octets[HEAD..].as_chunks().0
}
