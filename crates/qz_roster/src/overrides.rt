//! What is set otherwise at a quiz for a user or a group.

ghost use Rattle.std.specs.Prelude.{◌≡◌, ℕ, ◌-◌, ◌<◌, ◌^◌, List, [], ◌∷◌, ◌++◌, length, OnOk};
ghost use Rattle.qz_terms.specs.declared.record.Record.{Record};
ghost use Rattle.qz_terms.specs.declared.request.Whom.{Whom};
ghost use Rattle.qz_terms.specs.Catalog.{asked, «override»};
ghost use Rattle.qz_terms.specs.Cause.{override_count};
ghost use Rattle.qz_roster.specs.Overrides.{AreOverrides, HasOverrideRoom, set_in};

use crate::told::set_otherwise;
use qz_room::{fill, make};
use qz_terms::{Override, Record, Whom};
use qz_text::NoMemory;
use std::alloc::Global;
use std::collections::BTreeMap;

/// What is set otherwise for users, by quiz and user, and for groups, by quiz and group, and how many there are of both. Of two
/// records the last counts. An entry with nothing set is room.
#[derive(Drop)]
pub struct Overrides {
    pub(crate) users: BTreeMap<(u32, u32), Option<Override>>,
    pub(crate) groups: BTreeMap<(u32, u32), Option<Override>>,
    pub(crate) count: usize,
}

impl Overrides {
    /// Nothing is set. It takes no memory.
    pub(crate) fn new(alloc: Global) -> Overrides
        ensures { AreOverrides [] result }
    {
        Overrides {
            users: BTreeMap::new(alloc),
            groups: BTreeMap::new(alloc),
            count: 0,
        }
    }

    /// For how many quizzes and users or groups something is set otherwise. It counts no record again.
    pub fn count(&self) -> usize
        ensures { (c : List Record) → AreOverrides c self.now → result ≡ override_count c }
    {
        self.count
    }

    /// What is set otherwise at a quiz for a user or a group.
    pub fn of(&self, quiz: u32, whom: Whom, number: u32) -> Option<Override>
        ensures { (c : List Record) → AreOverrides c self.now → result ≡ «override» c quiz whom number }
    {
        match whom {
            Whom::User => *self.users.get(&(quiz, number))?,
            Whom::Group => *self.groups.get(&(quiz, number))?,
        }
    }

    /// Makes room for what a record tells.
    pub(crate) fn make_room(&mut self, record: &Record) -> Result<(), NoMemory>
        ensures room { OnOk result (HasOverrideRoom self.new (asked «record».now)) }
        ensures unchanged { (q : ℕ) (w : Whom) (n : ℕ) → set_in self.new q w n ≡ set_in self.old q w n }
        ensures count { self.new.count ≡ self.old.count }
    {
        let Some((target, _)) = set_otherwise(record) else {
            return Ok(());
        };
        match target.whom {
            Whom::User => make(&mut self.users, (target.quiz, target.number), None),
            Whom::Group => make(&mut self.groups, (target.quiz, target.number), None),
        }
    }

    /// Keeps what a record tells that stands behind these. It takes no memory.
    pub(crate) fn keep(&mut self, records: &[Record], record: &Record)
        requires overrides { AreOverrides records.now self.old }
        requires few { length records.now < 2 ^ 32 - 1 }
        requires room { HasOverrideRoom self.old (asked «record».now) }
        ensures { AreOverrides (records.now ++ «record».now ∷ []) self.new }
    {
        let Some((target, set)) = set_otherwise(record) else {
            return;
        };
        let before = self.of(target.quiz, target.whom, target.number);
        self.count += usize::from(before.is_none());
        match target.whom {
            Whom::User => fill(&mut self.users, (target.quiz, target.number), Some(set)),
            Whom::Group => fill(&mut self.groups, (target.quiz, target.number), Some(set)),
        }
    }
}
