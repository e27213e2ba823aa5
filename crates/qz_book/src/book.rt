//! The records of a shard, and what is kept beside them: where each thing stands, and what each attempt has come to.

ghost use Rattle.std.specs.Prelude.{◌≡◌, ◌+◌, ◌-◌, ◌<◌, ◌≤◌, ◌^◌, ◌++◌, ◌∷◌, [], List, length, true, option_map, option_copied, All, IfOk, IfSome, OnOk, OnErr};
ghost use Rattle.qz_decimal.specs.Numbers.{IsMaxMark, IsMaxSum, IsQuizGrade};
ghost use Rattle.qz_grading.specs.Questions.{IsQuestion};
ghost use Rattle.qz_index.specs.Jobs.{done_in};
ghost use Rattle.qz_index.specs.Orders.{attempt_after};
ghost use Rattle.qz_lives.specs.Attempts.{begun_of};
ghost use Rattle.qz_lives.specs.Changes.{gradings_by};
ghost use Rattle.qz_terms.specs.History.{bound, ended, ended_at, floor, is_ended, is_skipped, mark, next_attempt, place, row, slot_count, start, state, takers, time, total, version};
ghost use Rattle.qz_terms.specs.History as history;
ghost use Rattle.qz_keeper.specs.Recording.{IsRecorded, failure};
ghost use Rattle.qz_terms.specs.Kept.{IsKept, is_moment};
ghost use Rattle.qz_terms.specs.Rows.{IsTotal};
ghost use Rattle.qz_book.specs.Nexts.{CanGrow, IsPut};
ghost use Rattle.qz_book.specs.Plays.{IsSlot};

use crate::known::Known;
use crate::listing::Listing;
use qz_decimal::{Grade, Mark};
use qz_disks::KeepErr;
use qz_grading::{AttemptId, Question, State, Steps};
use qz_keeper::Recorder;
use qz_lives::Begun;
use qz_terms::{Bound, How, Policy, Record};
use qz_text::NoMemory;
use qz_usage::SlotRun;
use std::alloc::Global;
use std::marker::Model;
use std::sync::ledger::Ledger;

/// A slot of an attempt: its question, and what its steps have come to.
#[derive(Clone, Copy)]
pub struct Played<'a> {
    pub question: &'a Question,
    pub run: &'a SlotRun,
}

/// The records of a shard, in order, seen as their list.
///
/// A reading walks no record: beside the list stand an index of it and what each attempt has come to. A record is put in two
/// moves. All that takes memory is made first, and changes no reading; what follows takes none, so that nothing is ever undone.
#[derive(Drop)]
pub struct Book {
    listing: Listing,
}

impl Model for Book {
    ghost use Rattle.std.specs.Prelude.{List};
    ghost use Rattle.qz_terms.specs.declared.record.Record.{Record};

    ghost Value = { List Record };

    ghost use Rattle.qz_book.specs.Listings.{IsListing};

    ghost view = { λ b. b.listing.records.items };

    ghost invariant = { λ b. IsListing b.listing };
}

impl Book {
    /// Of no record. It takes no memory.
    pub fn new(alloc: Global) -> Book
        ensures { result ≡ [] }
    {
        Book {
            listing: Listing::new(alloc),
        }
    }

    /// The records, in order.
    pub fn as_slice(&self) -> &[Record]
        ensures { result.now ≡ self.now }
    {
        &self.listing.records
    }

    /// The number of records.
    pub fn len(&self) -> u64
        ensures { result ≡ length self.now }
    {
        self.listing.records.len() as u64
    }

    /// How many records a user has.
    pub fn place(&self, user: u32) -> u64
        ensures { result ≡ place self.now user }
    {
        self.listing.index.place(user)
    }

    /// The moment of a request about a user: the clock's, but not before that of the user's last record.
    pub fn time(&self, user: u32, now: u64) -> u64
        ensures { result ≡ time self.now user now }
    {
        self.listing.index.time(user, now)
    }

    /// The number of the next attempt of a user, over all quizzes.
    pub fn next_number(&self, user: u32) -> u32
        ensures { result ≡ (next_attempt self.now user).nth }
    {
        self.listing.index.next_number(user)
    }

    /// The attempts of a quiz by a user, in order.
    pub fn attempts(&self, quiz: u32, user: u32) -> &[AttemptId]
        ensures { result.now ≡ history.attempts self.now quiz user }
    {
        self.listing.index.attempts(quiz, user)
    }

    /// The first attempt of a quiz after this one, in order of user and number.
    pub(crate) fn attempt_after(&self, quiz: u32, after: AttemptId) -> Option<AttemptId>
        ensures { result ≡ attempt_after self.now quiz after }
    {
        self.listing.index.attempt_after(quiz, after)
    }

    /// The users who have an attempt of a quiz, in order of number.
    pub fn takers(&self, alloc: Global, quiz: u32) -> Result<Vec<u32>, NoMemory>
        ensures { IfOk result (λ found. found.items ≡ takers self.now quiz) }
    {
        self.listing.index.takers(alloc, quiz)
    }

    /// The question of a version, if the shard has learned it.
    pub fn version(&self, entry: u32, number: u32) -> Option<&Question>
        ensures value { option_copied result ≡ version self.now entry number }
        ensures kept { All IsKept self.now → IfSome result (λ q. IsQuestion q.now) }
    {
        self.listing
            .index
            .version(&self.listing.records, entry, number)
    }

    /// The question of a version where this record comes behind the list, if one of them learned it.
    pub fn version_with<'a>(
        &'a self,
        made: &'a Record,
        entry: u32,
        number: u32,
    ) -> Option<&'a Question>
        ensures value { option_copied result ≡ version (self.now ++ made.now ∷ []) entry number }
        ensures kept { All IsKept (self.now ++ made.now ∷ []) → IfSome result (λ q. IsQuestion q.now) }
    {
        Known::of(&self.listing.index, &self.listing.records, made).question(entry, number)
    }

    /// The greatest position of a job of the quiz that is done, or 0.
    pub fn floor(&self, quiz: u32) -> u64
        ensures { result ≡ floor self.now quiz }
    {
        self.listing.index.floor(quiz)
    }

    /// The place, from 1, of the record that says that a job is done, if one does.
    pub fn done_place(&self, job: u32) -> Option<u64>
        ensures { result ≡ done_in self.now job }
    {
        self.listing.index.done_place(job)
    }

    /// Whether a job skipped a slot.
    pub fn is_skipped(&self, job: u32, attempt: AttemptId, slot: u16) -> bool
        ensures { result ≡ is_skipped self.now job attempt slot }
    {
        self.listing.index.is_skipped(job, attempt, slot)
    }

    /// How an attempt began, if it is there.
    pub fn begun(&self, attempt: AttemptId) -> Option<Begun>
        ensures value { result ≡ option_map begun_of (start self.now attempt) }
        ensures kept { All IsKept self.now → IfSome result (λ s. is_moment s.moment ≡ true) }
    {
        self.listing.lives.begun(attempt)
    }

    /// How many slots an attempt has, at most 200.
    pub fn slot_count(&self, attempt: AttemptId) -> usize
        ensures value { result ≡ slot_count self.now attempt }
        ensures few { result ≤ 200 }
    {
        self.listing.lives.slot_count(attempt)
    }

    /// How an attempt ended, if it did.
    pub fn ended(&self, attempt: AttemptId) -> Option<How>
        ensures { result ≡ ended self.now attempt }
    {
        self.listing.lives.ended(attempt)
    }

    /// At which place an attempt ended, if it did: the number of its user's records up to that one.
    pub fn ended_at(&self, attempt: AttemptId) -> Option<u64>
        ensures { result ≡ ended_at self.now attempt }
    {
        self.listing.lives.ended_at(attempt)
    }

    /// Whether an attempt has ended.
    pub fn is_ended(&self, attempt: AttemptId) -> bool
        ensures { result ≡ is_ended self.now attempt }
    {
        self.listing.lives.is_ended(attempt)
    }

    /// The first attempt after this one, in order of user and number, that hasn't ended.
    pub fn live_after(&self, after: AttemptId) -> Option<AttemptId>
        ensures { result ≡ history.live_after self.now after }
    {
        self.listing.lives.live_after(after)
    }

    /// What is bound to a slot of an attempt now.
    pub fn bound(&self, attempt: AttemptId, slot: u16) -> Option<Bound>
        ensures value { result ≡ bound self.now attempt slot }
        ensures max { IfSome result (λ b. IsMaxMark b.max) }
    {
        self.listing.lives.bound(attempt, slot)
    }

    /// A slot of an attempt, if it is there.
    pub fn slot(&self, attempt: AttemptId, slot: u16) -> Option<Played<'_>>
        ensures { IsSlot result (history.slot self.now attempt slot) }
    {
        let run = self.listing.lives.slot(attempt, slot)?;
        let bound = run.bound();
        match self
            .listing
            .index
            .version(&self.listing.records, bound.entry, bound.version)
        {
            Some(question) => Some(Played { question, run }),
            None => unreachable!(),
        }
    }

    /// The state and the mark (in 10^-7) of a slot: todo without a mark where there is no such slot.
    pub fn standing(&self, attempt: AttemptId, slot: u16) -> (State, Option<Mark>)
        ensures state { result.0 ≡ state self.now attempt slot }
        ensures mark { result.1 ≡ mark self.now attempt slot }
    {
        self.listing.lives.standing(attempt, slot)
    }

    /// The total of an attempt (in 10^-7), and none where it isn't finished or a teacher's mark is missing that would count.
    pub fn total(&self, attempt: AttemptId) -> Option<Mark>
        ensures value { result ≡ total self.now attempt }
        ensures range { IfSome result IsTotal }
    {
        self.listing.lives.total(attempt)
    }

    /// The grade (in 10^-5) of a user at a quiz, and none where no total is taken.
    pub fn row(&self, quiz: u32, policy: &Policy, user: u32) -> Option<Grade>
        requires grade { IsQuizGrade policy.now.grade }
        requires sum { IsMaxSum policy.now.sum }
        ensures { result ≡ row self.now quiz policy.now user }
    {
        self.listing.lives.row(quiz, policy, user)
    }

    /// Puts a record at the end, once it is recorded. All that takes memory is made first, and where it is wanting or the record can't
    /// be recorded the book is as before. Only the slots that the record is about are graded: a Save never, any other step once at
    /// most, a finish once for each slot; where a version is bound, once for each step that is read again and once more.
    pub fn put<R: Recorder, L: Ledger>(
        &mut self,
        alloc: Global,
        made: Record,
        recorder: &mut R,
        steps: &mut Steps<L>,
    ) -> Result<(), KeepErr>
        requires grows { CanGrow self.old made }
        requires ready { R.ready recorder.old made }
        ensures put { OnOk result (IsPut self.old self.new made) }
        ensures recorded { IsRecorded R.records made recorder.old recorder.new (failure result) }
        ensures unchanged { OnErr result (self.new ≡ self.old) }
        ensures count { steps.new ≤ steps.old + gradings_by self.old made.event }
        ensures still { OnErr result (steps.new ≡ steps.old) }
    {
        let prepared = self.listing.grow(alloc, &made)?;
        let made = recorder.take(alloc, made)?;
        // What follows takes no memory.
        self.listing.put(made, prepared, steps);
        Ok(())
    }
}
