//! The quizzes of a shard's attempts.

ghost use Rattle.std.specs.Prelude.{◌≡◌, ◌++◌, ◌∷◌, [], List, OnOk};
ghost use Rattle.qz_terms.specs.declared.record.Record.{Record};
ghost use Rattle.qz_terms.specs.History as history;
ghost use Rattle.qz_agreement.specs.Quizzes.{AreQuizzes};

use qz_grading::AttemptId;
use qz_terms::{Event, Record};
use qz_text::NoMemory;
use std::alloc::Global;
use std::collections::BTreeMap;

/// The quiz of each attempt of the records that were followed, by user and number.
#[derive(Drop)]
pub(crate) struct Quizzes {
    quizzes: BTreeMap<(u32, u32), u32>,
}

impl Quizzes {
    pub(crate) fn new(alloc: Global) -> Quizzes
        ensures { AreQuizzes result [] }
    {
        Quizzes {
            quizzes: BTreeMap::new(alloc),
        }
    }

    /// The quiz of an attempt, if it was started.
    pub(crate) fn quiz(&self, attempt: AttemptId) -> Option<u32>
        ensures { (l : List Record) → AreQuizzes self.now l → result ≡ history.quiz l attempt }
    {
        self.quizzes.get(&(attempt.user, attempt.nth)).copied()
    }

    /// Follows one more record.
    pub(crate) fn follow(&mut self, record: &Record) -> Result<(), NoMemory>
        ensures { OnOk result ((l : List Record) → AreQuizzes self.old l → AreQuizzes self.new (l ++ «record».now ∷ [])) }
    {
        if let Event::Started { quiz, nth, .. } = &record.event {
            let attempt = (record.owner, *nth);
            if !self.quizzes.contains_key(&attempt) {
                self.quizzes.insert(attempt, *quiz)?;
            }
        }
        Ok(())
    }
}
