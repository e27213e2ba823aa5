//! All entries.

ghost use Rattle.std.specs.Prelude.{◌≡◌, ◌⊎◌, ◌+◌, ◌++◌, ◌<◌, ◌≤◌, [], length, Some, None, OnOk, OnErr, IfOk, IfErr, option_copied, IfSome};
ghost use Rattle.qz_grading.specs.declared.refusal.Refusal.TheVariants as refusal;
ghost use Rattle.qz_grading.specs.Grading.{at_place};
ghost use Rattle.qz_terms.specs.declared.request.Request.TheVariants as request;
ghost use Rattle.qz_bank.specs.Banks.{IsBank, IsEntry, change_cause, changed, entry_cause, grown, import_cause, imported, latest, newest, size_cause, version};
ghost use Rattle.qz_bank.specs.Changes.{CanImport, CanPut, CanRenew, with_change};

use crate::entry::{edited, first_versions, tuned};
use crate::room::{make_room, take_room};
use crate::{Entry, Prepared};
use qz_decimal::Fraction;
use qz_grading::{Bank, MOST_TOGETHER, Question, Refusal, Thing, canonical_size_is_at_most};
use qz_terms::{MOST_ENTRIES, MOST_VERSIONS};
use qz_text::{Listed, Text};
use std::alloc::Global;
use std::marker::Model;

/// The entries of a bank, seen as their list. They count from 1, and none is ever taken away.
///
/// A bank changes in two moves. A change is prepared first: that decides every refusal and takes all the memory, and leaves the
/// bank as it is. It is put then, which takes none.
#[derive(Drop)]
pub struct Entries {
    entries: Vec<Entry>,
}

impl Model for Entries {
    ghost use Rattle.std.specs.Prelude.{List};
    ghost use Rattle.qz_bank.specs.declared.entry.Entry.{Entry};
    ghost use Rattle.qz_bank.specs.Banks.{IsBank};

    ghost Value = { List Entry };

    ghost view = { λ e. e.entries.items };

    ghost invariant = { λ e. IsBank e.entries.items };
}

impl Entries {
    /// A bank without an entry. It takes no memory.
    pub fn new(alloc: Global) -> Entries
        ensures { result ≡ [] }
    {
        Entries {
            entries: Vec::new(alloc),
        }
    }

    /// Prepares an import: each question of a bank becomes the first version of a new entry.
    ///
    /// More than 20,000 entries are `TooMany`.
    pub fn prepare_import(&self, alloc: Global, bank: Bank) -> Result<Prepared, Refusal>
        ensures ready { IfOk result (CanPut self.now) }
        ensures change { IfOk result (λ p. with_change self.now p ≡ imported self.now bank) }
        ensures free { OnOk result (import_cause self.now bank ≡ None) }
        ensures refused { IfErr result (λ r. (r ≡ Refusal.Memory) ⊎ (import_cause self.now bank ≡ Some r)) }
    {
        let before = self.entries.len();
        let count = bank.items.as_slice().len();
        if count > MOST_ENTRIES as usize - before {
            return Err(Refusal::TooMany {
                limit: MOST_ENTRIES,
            });
        }
        let made = first_versions(alloc, bank)?;
        let room = make_room(alloc, before, count)?;
        Ok(Prepared::Import { made, room })
    }

    /// The question of a version of an entry, if it is there.
    pub fn version(&self, entry: u32, number: u32) -> Option<&Question>
        ensures { option_copied result ≡ version self.now entry number }
    {
        let versions = self.entry(entry)?.versions.as_slice();
        versions.get((number as usize).checked_sub(1)?)
    }

    /// The number of an entry's latest version, if the entry is there.
    pub fn latest(&self, entry: u32) -> Option<u32>
        ensures { result ≡ latest self.now entry }
    {
        Some(self.entry(entry)?.versions.as_slice().len() as u32)
    }

    /// Prepares a new version of an entry, which keeps the penalty and the hints of the one before.
    ///
    /// An entry that isn't there is `Unknown`. More than 1,000 versions are `TooMany`, and then a version whose canonical text and
    /// hints have together more than 262,144 bytes.
    pub fn prepare_edit(
        &self,
        alloc: Global,
        entry: u32,
        gift: Question,
    ) -> Result<Prepared, Refusal>
        ensures ready { IfOk result (CanPut self.now) }
        ensures change { IfOk result (λ p. with_change self.now p ≡ changed self.now entry (request.Edit entry gift)) }
        ensures free { OnOk result (change_cause self.now entry (request.Edit entry gift) ≡ None) }
        ensures refused { IfErr result (λ r. (r ≡ Refusal.Memory) ⊎ (change_cause self.now entry (request.Edit entry gift) ≡ Some r)) }
    {
        let newer = edited(alloc, self.newest(entry)?, gift)?;
        self.prepare_version(alloc, entry, newer)
    }

    /// Prepares a new version of an entry, which is the one before with this penalty (in 10^-7) and these hints. It is refused as
    /// an edit is.
    pub fn prepare_tune(
        &self,
        alloc: Global,
        entry: u32,
        penalty: Fraction,
        hints: Listed<Text>,
    ) -> Result<Prepared, Refusal>
        ensures ready { IfOk result (CanPut self.now) }
        ensures change { IfOk result (λ p. with_change self.now p ≡ changed self.now entry (request.Tune entry penalty hints)) }
        ensures free { OnOk result (change_cause self.now entry (request.Tune entry penalty hints) ≡ None) }
        ensures refused { IfErr result (λ r. (r ≡ Refusal.Memory) ⊎ (change_cause self.now entry (request.Tune entry penalty hints) ≡ Some r)) }
    {
        let newer = tuned(alloc, self.newest(entry)?, penalty, hints)?;
        self.prepare_version(alloc, entry, newer)
    }

    /// Puts a change that was prepared for this bank. It takes no memory.
    pub fn put(&mut self, prepared: Prepared)
        requires { CanPut self.old prepared }
        ensures { self.new ≡ with_change self.old prepared }
    {
        match prepared {
            Prepared::Import { made, room } => self.add_entries(made, room),
            Prepared::Version { entry, newer, room } => self.add_version(entry, newer, room),
        }
    }

    fn entry(&self, number: u32) -> Option<&Entry>
        ensures place { option_copied result ≡ at_place self.now number }
        ensures kept { IfSome result (λ entry. IsEntry entry.now) }
    {
        self.entries.get((number as usize).checked_sub(1)?)
    }

    /// The latest version of an entry that may have one more.
    fn newest(&self, entry: u32) -> Result<&Question, Refusal>
        ensures there { IfOk result (λ question. newest self.now entry ≡ Some question.now) }
        ensures free { OnOk result (entry_cause self.now entry ≡ None) }
        ensures refused { IfErr result (λ r. entry_cause self.now entry ≡ Some r) }
    {
        let Some(entry) = self.entry(entry) else {
            return Err(Refusal::Unknown { what: Thing::Entry });
        };
        let versions = entry.versions.as_slice();
        if versions.len() >= MOST_VERSIONS as usize {
            return Err(Refusal::TooMany {
                limit: MOST_VERSIONS,
            });
        }
        Ok(&versions[versions.len() - 1])
    }

    /// Prepares this version as one more of an entry.
    fn prepare_version(
        &self,
        alloc: Global,
        entry: u32,
        newer: Question,
    ) -> Result<Prepared, Refusal>
        requires { entry_cause self.now entry ≡ None }
        ensures ready { IfOk result (CanPut self.now) }
        ensures change { IfOk result (λ p. with_change self.now p ≡ grown self.now entry newer) }
        ensures free { OnOk result (size_cause newer ≡ None) }
        ensures refused { IfErr result (λ r. (r ≡ Refusal.Memory) ⊎ (size_cause newer ≡ Some r)) }
    {
        if !canonical_size_is_at_most(&newer, MOST_TOGETHER) {
            return Err(Refusal::TooMany {
                limit: MOST_TOGETHER as u32,
            });
        }
        let count = self.latest(entry).unwrap_or(0);
        let room = make_room(alloc, count as usize, 1)?;
        Ok(Prepared::Version { entry, newer, room })
    }

    /// These entries come last.
    fn add_entries(&mut self, mut made: Vec<Entry>, room: Vec<Entry>)
        requires { CanImport self.old made room }
        ensures { self.new ≡ self.old ++ made.items }
    {
        take_room(&mut self.entries, made.len(), room);
        self.entries.append(&mut made).unwrap();
    }

    /// An entry gets this version more.
    fn add_version(&mut self, entry: u32, newer: Question, room: Vec<Question>)
        requires { CanRenew self.old entry room }
        ensures { self.new ≡ grown self.old entry newer }
    {
        self.entries[entry as usize - 1].add(newer, room);
    }
}
