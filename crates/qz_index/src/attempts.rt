//! The attempts of each quiz.

ghost use Rattle.std.specs.Prelude.{◌≡◌, ◌++◌, ◌∷◌, ◌&&◌, ◌==◌, ℕ, List, [], IfOk, OnOk, if◌then◌else◌};
ghost use Rattle.qz_terms.specs.declared.record.Record.{Record};
ghost use Rattle.qz_terms.specs.History.{attempts, takers};
ghost use Rattle.qz_index.specs.Attempts.{AreAttempts, HasPlaceFor, HasPlaceAt, IsNext, attempts_at};

use crate::takers::Takers;
use qz_grading::AttemptId;
use qz_room::make;
use qz_terms::{Event, Record};
use qz_text::NoMemory;
use std::alloc::Global;
use std::collections::BTreeMap;

/// The attempts of each quiz, by user.
#[derive(Drop)]
pub(crate) struct Attempts {
    pub(crate) quizzes: BTreeMap<u32, Takers>,
}

impl Attempts {
    pub(crate) fn new(alloc: Global) -> Attempts
        ensures { AreAttempts result [] }
    {
        Attempts {
            quizzes: BTreeMap::new(alloc),
        }
    }

    pub(crate) fn attempts(&self, quiz: u32, user: u32) -> &[AttemptId]
        ensures { (h : List Record) → AreAttempts self.now h → result.now ≡ attempts h quiz user }
    {
        match self.quizzes.get(&quiz) {
            Some(takers) => takers.attempts(user),
            None => &[],
        }
    }

    pub(crate) fn takers(&self, alloc: Global, quiz: u32) -> Result<Vec<u32>, NoMemory>
        ensures { (h : List Record) → AreAttempts self.now h → IfOk result (λ found. found.items ≡ takers h quiz) }
    {
        match self.quizzes.get(&quiz) {
            Some(takers) => takers.users(alloc),
            None => Ok(Vec::new(alloc)),
        }
    }

    pub(crate) fn grow(&mut self, alloc: Global, record: &Record) -> Result<(), NoMemory>
        ensures room { OnOk result (HasPlaceFor self.new «record».now) }
        ensures same { (q u : ℕ) → attempts_at self.new q u ≡ attempts_at self.old q u }
    {
        match &record.event {
            Event::Started { quiz, .. } => self.make(alloc, *quiz, record.owner),
            _ => Ok(()),
        }
    }

    fn make(&mut self, alloc: Global, quiz: u32, user: u32) -> Result<(), NoMemory>
        ensures room { OnOk result (HasPlaceAt self.new quiz user) }
        ensures same { (q u : ℕ) → attempts_at self.new q u ≡ attempts_at self.old q u }
    {
        make(&mut self.quizzes, quiz, Takers::new(alloc))?;
        match self.quizzes.get_mut(&quiz) {
            Some(takers) => takers.grow(alloc, user),
            None => unreachable!(),
        }
    }

    pub(crate) fn put(&mut self, records: &[Record], record: &Record)
        requires stand { AreAttempts self.old records.now }
        requires room { HasPlaceFor self.old «record».now }
        requires next { IsNext records.now «record».now }
        ensures { AreAttempts self.new (records.now ++ «record».now ∷ []) }
    {
        if let Event::Started { quiz, nth, .. } = &record.event {
            let attempt = AttemptId {
                user: record.owner,
                nth: *nth,
            };
            self.start(*quiz, attempt);
        }
    }

    fn start(&mut self, quiz: u32, attempt: AttemptId)
        requires { HasPlaceAt self.old quiz attempt.user }
        ensures { (q u : ℕ) → attempts_at self.new q u ≡ attempts_at self.old q u ++ (if (quiz == q) && (attempt.user == u) then attempt ∷ [] else []) }
    {
        match self.quizzes.get_mut(&quiz) {
            Some(takers) => takers.put(attempt),
            None => unreachable!(),
        }
    }
}
