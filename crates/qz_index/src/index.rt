//! A shard's list by plain keys: users, versions, quizzes and jobs.

ghost use Rattle.std.specs.Prelude.{◌≡◌, ◌+◌, ◌-◌, ◌<◌, ◌^◌, ◌++◌, ◌∷◌, All, List, [], IfOk, IfSome, OnOk, length, option_copied};
ghost use Rattle.qz_grading.specs.Questions.{IsQuestion};
ghost use Rattle.qz_terms.specs.declared.record.Record.{Record};
ghost use Rattle.qz_terms.specs.History.{attempts, floor, is_skipped, next_attempt, place, takers, time, version};
ghost use Rattle.qz_terms.specs.Kept.{IsKept};
ghost use Rattle.qz_index.specs.Attempts.{IsNext};
ghost use Rattle.qz_index.specs.Indexed.{HasRoomFor, IsIndexed};
ghost use Rattle.qz_index.specs.Jobs.{done_in};
ghost use Rattle.qz_index.specs.Orders.{attempt_after};

use crate::attempts::Attempts;
use crate::done::DoneJobs;
use crate::floors::Floors;
use crate::orders::Orders;
use crate::owners::Owners;
use crate::skips::Skips;
use crate::versions::Versions;
use qz_grading::{AttemptId, Question};
use qz_terms::Record;
use qz_text::NoMemory;
use std::alloc::Global;

/// Maps beside a list of records. What each call tells, it tells of every list that this is the index of. A look-up takes a time
/// that grows with the logarithm of the number of keys, and no memory but for the list that it hands out.
#[derive(Drop)]
pub struct Index {
    pub(crate) owners: Owners,
    pub(crate) versions: Versions,
    pub(crate) attempts: Attempts,
    pub(crate) orders: Orders,
    pub(crate) done: DoneJobs,
    pub(crate) floors: Floors,
    pub(crate) skips: Skips,
}

impl Index {
    /// The index of the empty list. It takes no memory.
    pub fn new(alloc: Global) -> Index
        ensures { IsIndexed result [] }
    {
        Index {
            owners: Owners::new(alloc),
            versions: Versions::new(alloc),
            attempts: Attempts::new(alloc),
            orders: Orders::new(alloc),
            done: DoneJobs::new(alloc),
            floors: Floors::new(alloc),
            skips: Skips::new(alloc),
        }
    }

    /// Makes the room that the putting of a record takes. It is the index of the same list, also where memory is wanting.
    pub fn grow(&mut self, alloc: Global, record: &Record) -> Result<(), NoMemory>
        ensures room { OnOk result (HasRoomFor self.new «record».now) }
        ensures kept { (h : List Record) → IsIndexed self.old h → IsIndexed self.new h }
    {
        self.owners.grow(record.owner)?;
        self.versions.grow(record)?;
        self.attempts.grow(alloc, record)?;
        self.orders.grow(alloc, record)?;
        self.done.grow(record)?;
        self.floors.grow(record)?;
        self.skips.grow(record)
    }

    /// Puts a record behind these. A start has to be its owner's next attempt. It takes no memory.
    pub fn put(&mut self, records: &[Record], record: &Record)
        requires indexed { IsIndexed self.old records.now }
        requires room { HasRoomFor self.old «record».now }
        requires few { length records.now + 1 < 2 ^ 32 - 1 }
        requires next { IsNext records.now «record».now }
        ensures { IsIndexed self.new (records.now ++ «record».now ∷ []) }
    {
        self.owners.put(records, record);
        self.versions.put(records, record);
        self.attempts.put(records, record);
        self.orders.put(records, record);
        self.done.put(records, record);
        self.floors.put(records, record);
        self.skips.put(records, record);
    }

    /// How many records a user has.
    pub fn place(&self, user: u32) -> u64
        ensures { (h : List Record) → IsIndexed self.now h → result ≡ place h user }
    {
        self.owners.place(user)
    }

    /// The moment of a request about a user, in seconds since 1970: the clock's, but not before that of the user's last record.
    pub fn time(&self, user: u32, now: u64) -> u64
        ensures { (h : List Record) → IsIndexed self.now h → result ≡ time h user now }
    {
        self.owners.time(user, now)
    }

    /// The number of the next attempt of a user, over all quizzes.
    pub fn next_number(&self, user: u32) -> u32
        ensures { (h : List Record) → IsIndexed self.now h → result ≡ (next_attempt h user).nth }
    {
        self.owners.next_number(user)
    }

    /// The question of a version, if the shard has learned it.
    pub fn version<'a>(
        &self,
        records: &'a [Record],
        entry: u32,
        number: u32,
    ) -> Option<&'a Question>
        ensures value { IsIndexed self.now records.now → option_copied result ≡ version records.now entry number }
        ensures kept { All IsKept records.now → IfSome result (λ q. IsQuestion q.now) }
    {
        self.versions.version(records, entry, number)
    }

    /// The attempts of a quiz by a user, in order.
    pub fn attempts(&self, quiz: u32, user: u32) -> &[AttemptId]
        ensures { (h : List Record) → IsIndexed self.now h → result.now ≡ attempts h quiz user }
    {
        self.attempts.attempts(quiz, user)
    }

    /// The users with an attempt of a quiz, in order of number.
    pub fn takers(&self, alloc: Global, quiz: u32) -> Result<Vec<u32>, NoMemory>
        ensures { (h : List Record) → IsIndexed self.now h → IfOk result (λ found. found.items ≡ takers h quiz) }
    {
        self.attempts.takers(alloc, quiz)
    }

    /// The first attempt of a quiz after this one, in order of user and number. `after` is only a bound and needn't be there.
    pub fn attempt_after(&self, quiz: u32, after: AttemptId) -> Option<AttemptId>
        ensures { (h : List Record) → IsIndexed self.now h → result ≡ attempt_after h quiz after }
    {
        self.orders.attempt_after(quiz, after)
    }

    /// The place in the list, from 1, of the record that says of a job that it is done, if one does.
    pub fn done_place(&self, job: u32) -> Option<u64>
        ensures { (h : List Record) → IsIndexed self.now h → result ≡ done_in h job }
    {
        self.done.place(job)
    }

    /// The greatest position of a job of the quiz that is done, or 0.
    pub fn floor(&self, quiz: u32) -> u64
        ensures { (h : List Record) → IsIndexed self.now h → result ≡ floor h quiz }
    {
        self.floors.floor(quiz)
    }

    /// Whether a job skipped a slot.
    pub fn is_skipped(&self, job: u32, attempt: AttemptId, slot: u16) -> bool
        ensures { (h : List Record) → IsIndexed self.now h → result ≡ is_skipped h job attempt slot }
    {
        self.skips.is_skipped(job, attempt, slot)
    }
}
