//! What the records of each user tell of that user.

ghost use Rattle.std.specs.Prelude.{◌≡◌, ◌+◌, ◌-◌, ◌<◌, ◌^◌, ℕ, List, [], ◌∷◌, ◌++◌, length, OnOk};
ghost use Rattle.qz_terms.specs.History.{place, time, next_attempt};
ghost use Rattle.qz_terms.specs.declared.record.Record.{Record};
ghost use Rattle.qz_index.specs.Owners.{AreTallied, HasTally, tally};

use crate::events::is_start;
use qz_room::{fill, make};
use qz_terms::Record;
use qz_text::NoMemory;
use std::alloc::Global;
use std::collections::BTreeMap;

/// How many records a user has, the moment of the last in seconds since 1970 (0 where there is none), and the number of the next
/// attempt.
#[derive(Clone, Copy)]
pub(crate) struct Tally {
    pub(crate) records: u64,
    pub(crate) last: u64,
    pub(crate) next: u32,
}

/// Of a user without a record.
const NONE: Tally = Tally {
    records: 0,
    last: 0,
    next: 1,
};

/// Each user's tally. User 0, whose records are nobody's, is one as any other.
#[derive(Drop)]
pub(crate) struct Owners {
    pub(crate) tallies: BTreeMap<u32, Tally>,
}

impl Owners {
    pub(crate) fn new(alloc: Global) -> Owners
        ensures { AreTallied result [] }
    {
        Owners {
            tallies: BTreeMap::new(alloc),
        }
    }

    fn tally(&self, user: u32) -> Tally
        ensures { result ≡ tally self.now user }
    {
        match self.tallies.get(&user) {
            Some(tally) => *tally,
            None => NONE,
        }
    }

    pub(crate) fn place(&self, user: u32) -> u64
        ensures { (h : List Record) → AreTallied self.now h → result ≡ place h user }
    {
        self.tally(user).records
    }

    pub(crate) fn time(&self, user: u32, now: u64) -> u64
        ensures { (h : List Record) → AreTallied self.now h → result ≡ time h user now }
    {
        now.max(self.tally(user).last)
    }

    pub(crate) fn next_number(&self, user: u32) -> u32
        ensures { (h : List Record) → AreTallied self.now h → result ≡ (next_attempt h user).nth }
    {
        self.tally(user).next
    }

    pub(crate) fn grow(&mut self, user: u32) -> Result<(), NoMemory>
        ensures room { OnOk result (HasTally self.new user) }
        ensures same { (u : ℕ) → tally self.new u ≡ tally self.old u }
    {
        make(&mut self.tallies, user, NONE)
    }

    pub(crate) fn put(&mut self, records: &[Record], record: &Record)
        requires tallied { AreTallied self.old records.now }
        requires room { HasTally self.old («record».now).owner }
        requires few { length records.now + 1 < 2 ^ 32 - 1 }
        ensures { AreTallied self.new (records.now ++ «record».now ∷ []) }
    {
        let old = self.tally(record.owner);
        let new = Tally {
            records: old.records + 1,
            last: record.moment,
            next: old.next + u32::from(is_start(record)),
        };
        fill(&mut self.tallies, record.owner, new);
    }
}
