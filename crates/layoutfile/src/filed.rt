//! The file kind behind the interface of layouts.
ghost use Rattle.std.specs.Prelude.{◌≡◌, ◌≤◌, [], ◌∷◌, map, length, IfOk};
ghost use Rattle.std.specs.List.{slice_get};
ghost use Rattle.base.specs.Answers.{answer_of};
ghost use Rattle.layoutfile.specs.Faults.{file_refusal};
ghost use Rattle.layoutfile.specs.Files.{entry_in, file_questions, file_meaning, file_names};

use crate::check::{TYPE_AT, check_file};
use crate::decode::{decode_entry, entries_of};
use crate::fault::FileFault;
use crate::file::FileLayout;
use crate::origin::FILE;
use layout::entry::RawEntry;
use layout::item::Item;
use layout::layout::Layout;
use layout::name::Name;
use layout::named::NamedLayout;

/// The layout of octets that pass questions 23 to 25, or the first no to one of these.
impl<'a> TryFrom<&'a [u8]> for FileLayout<'a> {
    type Error = FileFault;

    ghost try_from_gives = { λ octets result. (answer_of (λ _. tt) file_refusal result ≡ file_questions octets.now) × IfOk result (λ layout. layout.octets.now ≡ octets.now) };

    #[tactic(auto, using(crate::proofs::Passing::passing))]
    fn try_from(octets: &'a [u8]) -> Result<FileLayout<'a>, FileFault> {
        check_file(octets)?;
        Ok(FileLayout {
            octets,
            pdu_type: octets[TYPE_AT],
            entries: entries_of(octets),
        })
    }
}

impl<'a> FileLayout<'a> {
    /// The layout of any octets: of type 0 and without items where they fail questions 23 to 25.
    pub fn new(octets: &'a [u8]) -> FileLayout<'a>
        ensures { result.octets.now ≡ octets.now }
    {
        match FileLayout::try_from(octets) {
            Ok(layout) => layout,
            Err(_) => FileLayout {
                octets,
                pdu_type: 0,
                entries: &[],
            },
        }
    }

    /// Entry number `i`, and none past the end.
    fn entry(&self, i: usize) -> Option<RawEntry>
        ensures { result ≡ slice_get (map entry_in self.now.entries.now) i }
    {
        self.entries.get(i).map(decode_entry)
    }
}

impl<'a> Layout for FileLayout<'a> {
    ghost meaning = { λ f. file_meaning f.octets.now };

    ghost source = { 2 };

    const ORIGIN: u8 = FILE;

    fn origin_number(&self) -> u8 {
        Self::ORIGIN
    }

    fn pdu_type(&self) -> u8 {
        self.pdu_type
    }

    #[tactic(auto, using(crate::proofs::Passing::counted))]
    fn count(&self) -> usize {
        self.entries.len()
    }

    #[tactic(auto, using(crate::proofs::Passing::item_here, crate::proofs::Passing::item_past))]
    // Not inlined, it makes a walk over the items a fifth slower.
    #[inline(always)]
    fn item(&self, i: usize) -> Option<Item> {
        self.entry(i)?.accept()
    }
}

impl<'a> NamedLayout for FileLayout<'a> {
    ghost names = { λ f. file_names f.octets.now };

    #[tactic(auto, using(crate::proofs::Passing::naming))]
    fn name(&self, i: usize) -> Name {
        self.entry(i).map_or(Name::NONE, |entry| entry.name)
    }
}
