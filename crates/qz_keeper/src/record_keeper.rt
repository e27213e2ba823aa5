//! A keeper of records.

ghost use Rattle.std.specs.Prelude.{◌≡◌, ◌≤◌, ◌++◌, ◌∷◌, [], ℕ, List, length, Ok, Some, None, is_none, option_map, true, false, IfOk, IfSome, IsErrOf, MatchResult};
ghost use Rattle.std.specs.Option.{option_copied};
ghost use Rattle.qz_disks.specs.declared.keeper.KeepErr.TheVariants.{Fault};
ghost use Rattle.qz_disks.specs.Keepers.{EndsAppending, with_one_more};
ghost use Rattle.qz_record.specs.Records.{is_spellable};
ghost use Rattle.qz_terms.specs.declared.limits.TheConstants.{MOST_RECORD};
ghost use Rattle.qz_terms.specs.Kept.{IsKept};
ghost use Rattle.qz_terms.specs.Spelling.{spelling};
ghost use Rattle.qz_keeper.specs.Custody.{Appends, FindsOut, IsReady, pending};
ghost use Rattle.qz_keeper.specs.Recording.{Serves, failure};

use crate::recorder::Recorder;
use qz_disks::{KeepErr, Keeper};
use qz_record::spell;
use qz_terms::Record;
use qz_text::Bytes;
use std::alloc::Global;
use std::marker::Model;
use std::mem;

/// A keeper of records: of their spellings, and of the record in doubt.
///
/// A record whose append answered `Fault` is in doubt: it is kept or not, and `find` tells. One that is kept then waits here until
/// its list has it.
#[derive(Drop)]
pub struct RecordKeeper<K: Keeper> {
    keeper: K,
    doubt: Option<Record>,
    found: Option<Record>,
}

impl<K: Keeper> Model for RecordKeeper<K> {
    ghost use Rattle.qz_keeper.specs.Custody.{Custody, IsInCustody};

    ghost Value = { Custody K };

    ghost view = { λ k. record { keeper = k.keeper; doubt = k.doubt; found = k.found } };

    ghost invariant = { λ k. IsInCustody (K.doubt k.keeper) k.doubt k.found };
}

impl<K: Keeper> Recorder for RecordKeeper<K> {
    ghost use Rattle.qz_keeper.specs.Recording.{CanTake, TakesRecord};

    ghost ready = { CanTake };

    ghost records = { TakesRecord K.kept K.sound K.faults };

    fn take(&mut self, alloc: Global, made: Record) -> Result<Record, KeepErr> {
        self.append(alloc, made)
    }
}

impl<K: Keeper> RecordKeeper<K> {
    /// The records of a keeper, none of whose payloads is in doubt.
    pub fn new(keeper: K) -> RecordKeeper<K>
        requires { K.doubt keeper ≡ None }
        ensures { result ≡ record { keeper = keeper; doubt = None; found = None } }
    {
        RecordKeeper {
            keeper,
            doubt: None,
            found: None,
        }
    }

    /// The keeper, with the spelling of the record in doubt in doubt.
    pub fn into_keeper(self) -> K
        ensures keeper { result ≡ self.keeper }
        ensures doubt { K.doubt result ≡ option_map spelling self.doubt }
    {
        self.keeper
    }

    /// Whether no record is in doubt, and none that was found waits for its list.
    pub fn is_settled(&self) -> bool
        ensures { result ≡ is_none (pending self.now) }
    {
        match &self.doubt {
            Some(_) => false,
            None => self.found.is_none(),
        }
    }

    /// The record that was found to be kept, and that its list doesn't have yet.
    pub fn found(&self) -> Option<&Record>
        ensures { option_copied result ≡ self.now.found }
    {
        self.found.as_ref()
    }

    /// The list has the record that was found.
    pub fn settle(&mut self)
        ensures { self.new ≡ record self.old { found = None } }
    {
        drop(self.found.take());
    }

    /// Keeps one more record, whose spelling has at most 67,108,864 bytes, and gives it back. After `Fault` it is in doubt,
    /// and after `Memory` it isn't kept.
    pub fn append(&mut self, alloc: Global, made: Record) -> Result<Record, KeepErr>
        requires ready { IsReady self.old }
        requires kept { IsKept made }
        requires size { length (spelling made) ≤ MOST_RECORD }
        ensures given { IfOk result (λ given. given ≡ made) }
        ensures list { Appends (K.kept self.old.keeper) (K.kept self.new.keeper)
            self.new.doubt made (failure result) }
        ensures none_found { self.new.found ≡ None }
        ensures served { Serves (K.sound self.old.keeper) (K.sound self.new.keeper)
            (K.faults self.old.keeper) (K.faults self.new.keeper) (IsErrOf result Fault) }
    {
        match keep(&mut self.keeper, alloc, &made) {
            Ok(()) => Ok(made),
            Err(KeepErr::Fault) => {
                // None was in doubt.
                drop(self.doubt.replace(made));
                Err(KeepErr::Fault)
            }
            Err(KeepErr::Memory) => {
                drop(made);
                Err(KeepErr::Memory)
            }
        }
    }

    /// Finds out what became of the record in doubt: from then on none is in doubt, and where it was kept it is found. `count` is
    /// the number of records kept without it. After an error all is as it was, and the record still in doubt.
    ///
    /// Where none is in doubt nothing is done.
    pub fn find(&mut self, alloc: Global, count: u64) -> Result<(), KeepErr>
        requires { self.old.found ≡ None
            → IfSome (K.kept self.old.keeper) (λ payloads. length payloads ≡ count) }
        ensures found { IfSome self.old.doubt (λ r. FindsOut (K.kept self.old.keeper)
            (K.kept self.new.keeper) r self.new.doubt self.new.found result) }
        ensures settled { self.old.doubt ≡ None → (result ≡ Ok tt) × (self.new ≡ self.old) }
        ensures served { Serves (K.sound self.old.keeper) (K.sound self.new.keeper)
            (K.faults self.old.keeper) (K.faults self.new.keeper) (IsErrOf result Fault) }
    {
        let Some(doubt) = &self.doubt else {
            return Ok(());
        };
        let payload = spell(alloc, doubt)?;
        let payloads = self.keeper.reopen(alloc)?;
        let doubt = self.doubt.take();
        if ends_with(&payloads.items, count, payload.as_slice()) {
            drop(mem::replace(&mut self.found, doubt));
            return Ok(());
        }
        drop(doubt);
        Ok(())
    }
}

// Appends the spelling of a record to a keeper's payloads.
fn keep<K: Keeper>(keeper: &mut K, alloc: Global, made: &Record) -> Result<(), KeepErr>
    requires settled { K.doubt keeper.old ≡ None }
    requires kept { IsKept made.now }
    requires size { length (spelling made.now) ≤ MOST_RECORD }
    ensures list { EndsAppending (K.kept keeper.old) (K.kept keeper.new) (K.doubt keeper.new)
        (spelling made.now) result }
    ensures spellable { MatchResult result (λ _. is_spellable made.now ≡ true)
        (λ e. e ≡ Fault → is_spellable made.now ≡ true) }
    ensures served { Serves (K.sound keeper.old) (K.sound keeper.new)
        (K.faults keeper.old) (K.faults keeper.new) (IsErrOf result Fault) }
{
    let payload = spell(alloc, made)?;
    keeper.append(alloc, payload.as_slice())
}

// Whether so many payloads and then this one were found.
fn ends_with(found: &[Bytes], count: u64, payload: &[u8]) -> bool
    ensures yes { result ≡ true → (front : List (List ℕ)) × (length front ≡ count)
        × (found.now ≡ with_one_more payload.now front) }
    ensures no { result ≡ false → (front : List (List ℕ)) → length front ≡ count
        → found.now ≡ with_one_more payload.now front → ⊥ }
{
    match found.split_last() {
        Some((last, front)) => front.len() as u64 == count && last.as_slice() == payload,
        None => false,
    }
}
