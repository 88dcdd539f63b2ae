//! Building an extension: adding items and naming bits.
ghost use Rattle.std.specs.Prelude.{◌≡◌, ◌<◌, not, ◌&&◌, IfOk, OnErr, OnOk, ◌==◌, bit_and, nat_lt};
ghost use Rattle.base.specs.Answers.{answer_of};
ghost use Rattle.base.specs.Octets.{bit};
ghost use Rattle.layout.specs.Items.{is_bits};
ghost use Rattle.layout.specs.Views.{meant, governor_meaning};
ghost use Rattle.extension.specs.Building.{may_hang_on, may_add, add_entry, may_name, may_name_bits, name_bits, nothing_added, BuiltExtends};
ghost use Rattle.extension.specs.Faults.{build_refusal};
ghost use Rattle.extension.specs.Ready.{Ready};
ghost use Rattle.extension.specs.Views.{extras_of};

use crate::additions::Additions;
use crate::extension::Extension;
use crate::fault::BuildFault;
use crate::origin::MOST_ADDED;
use layout::entry::RawEntry;
use layout::item::Item;
use layout::kind::{Governor, Kind};
use layout::lawful::{MOST_ITEMS, lawful};
use layout::layout::Layout;

/// Whether an item is a bits octet in which a bit is spare.
fn has_spare(item: &Item, place: u8) -> bool
    requires { place < 8 }
    ensures { result ≡ (is_bits (meant item.now).kind && bit place (meant item.now).mask == 0) }
{
    item.kind == Kind::Bits && (item.mask >> place) % 2 == 0
}

/// Whether an item is a bits octet in which bits, not none, are all spare.
fn has_all_spare(item: &Item, bits: u8) -> bool
    ensures { result ≡ (is_bits (meant item.now).kind && (not (bits == 0) && bit_and bits (meant item.now).mask == 0)) }
{
    item.kind == Kind::Bits && bits != 0 && bits & item.mask == 0
}

/// Whether there is space for one more item: 16 added and 64 in all.
fn has_space(added: usize, count: usize) -> bool
    ensures { result ≡ (nat_lt added 16 && nat_lt count 64) }
{
    added < MOST_ADDED && count < MOST_ITEMS
}

impl<L: Layout> Extension<L> {
    /// An extension of a layout that adds nothing yet.
    pub fn new(below: L) -> Extension<L>
        ensures below { result.below ≡ below }
        ensures nothing { extras_of result.more ≡ nothing_added }
    {
        Extension {
            count_below: below.count(),
            below,
            more: Additions::new(),
        }
    }

    /// Question 27: whether a governor is an earlier bits octet, its bit spare below or in an added item.
    fn may_hang_on(&self, governor: Option<Governor>) -> bool
        ensures { result ≡ may_hang_on (L.meaning self.now.below) (extras_of self.now.more) (governor_meaning governor) }
    {
        let Some(Governor { item, bit }) = governor else {
            return false;
        };
        let at = usize::from(item);
        if at < self.count_below {
            let octet = self.below.item(at);
            return octet.is_some_and(|octet| has_spare(&octet, bit));
        }
        let row = self.more.row(at - self.count_below);
        row.is_some_and(|row| row.item.kind == Kind::Bits)
    }

    /// Puts the questions of adding: 1 to 3 of the layout below, 25, 26, 27.
    #[tactic(auto, unfolding(crate::specs::Building::may_add, crate::specs::Building::item_or, base::specs::Answers::bind, base::specs::Answers::ask))]
    fn judge(&self, entry: &RawEntry) -> Result<Item, BuildFault>
        ensures answer { answer_of meant build_refusal result ≡ may_add L.source (L.meaning self.now.below) (extras_of self.now.more) entry.now }
        ensures ready { IfOk result (λ i. Ready self.now.count_below self.now.more.count (governor_meaning i.governor)) }
    {
        let below = lawful(&self.below)?;
        let added = self.more.count;
        let count = below.count + added;
        let item = entry.accept().ok_or(BuildFault::Entry { item: count })?;
        if !has_space(added, count) {
            return Err(BuildFault::Space { count });
        }
        if !self.may_hang_on(item.governor) {
            return Err(BuildFault::Governor {
                governor: entry.item.governor,
            });
        }
        Ok(item)
    }

    /// Adds an item behind the others, and names its governor's bit. The entry is written as in a layout file.
    #[tactic(auto, using(crate::proofs::Sound::built_extends))]
    pub fn add(&mut self, entry: RawEntry) -> Result<(), BuildFault>
        ensures answer { answer_of (λ _. extras_of self.new.more) build_refusal result ≡ add_entry L.source (L.meaning self.old.below) (extras_of self.old.more) entry }
        ensures unchanged { OnErr result (self.new.more ≡ self.old.more) }
        ensures below { self.new.below ≡ self.old.below }
        ensures extends { BuiltExtends }
    {
        let item = self.judge(&entry)?;
        self.more.insert(self.count_below, entry.name, item);
        Ok(())
    }

    /// Question 28: whether bits are not none, and all spare in a bits octet below.
    fn may_name(&self, item: usize, bits: u8) -> bool
        ensures { result ≡ may_name (L.meaning self.now.below) item bits }
    {
        let octet = self.below.item(item);
        octet.is_some_and(|octet| has_all_spare(&octet, bits))
    }

    /// Puts the questions of naming: 1 to 3 of the layout below, 28.
    #[tactic(auto, unfolding(crate::specs::Building::may_name_bits, base::specs::Answers::bind, base::specs::Answers::ask))]
    fn judge_bits(&self, item: usize, bits: u8) -> Result<(), BuildFault>
        ensures answer { answer_of (λ u. u) build_refusal result ≡ may_name_bits L.source (L.meaning self.now.below) item bits }
        ensures within { OnOk result (item < 64) }
    {
        lawful(&self.below)?;
        if !self.may_name(item, bits) {
            return Err(BuildFault::Bits { item });
        }
        Ok(())
    }

    /// Names bits of a bits octet below.
    #[tactic(auto, using(crate::proofs::Sound::built_extends))]
    pub fn name_bits(&mut self, item: usize, bits: u8) -> Result<(), BuildFault>
        ensures answer { answer_of (λ _. extras_of self.new.more) build_refusal result ≡ name_bits L.source (L.meaning self.old.below) (extras_of self.old.more) item bits }
        ensures unchanged { OnErr result (self.new.more ≡ self.old.more) }
        ensures below { self.new.below ≡ self.old.below }
        ensures extends { BuiltExtends }
    {
        self.judge_bits(item, bits)?;
        self.more.name_below(item, bits);
        Ok(())
    }
}
