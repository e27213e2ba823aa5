//! A quiz as an attempt or a job reads it, and what is bound to a slot.

ghost use Rattle.std.specs.Prelude.{◌≡◌, IfOk};

use crate::{Policy, Settings};
use qz_decimal::Mark;
use qz_grading::{Behaviour, Question};
use qz_text::{Listed, NoMemory, Text, TryCopy};
use std::alloc::Global;

/// A slot of a quiz: its entry, that entry's latest version, and the max mark (in 10^-7).
#[derive(Clone, Copy, PartialEq, Eq)]
pub struct Planned {
    pub entry: u32,
    pub version: u32,
    pub max: Mark,
}

/// A quiz as the first `at` records of a catalogue give it, with the settings of one student. The questions are
/// those of the slots, in order, or none where they weren't asked for.
#[derive(Drop)]
pub struct Plan {
    pub at: u64,
    pub quiz: u32,
    pub name: Text,
    pub ready: bool,
    pub behaviour: Behaviour,
    pub settings: Settings,
    pub policy: Policy,
    pub slots: Listed<Planned>,
    pub questions: Listed<Question>,
}

/// A regrading: its number, its position in the catalogue, and the plan of its quiz there, with the quiz's own
/// settings.
#[derive(Drop)]
pub struct Job {
    pub number: u32,
    pub position: u64,
    pub plan: Plan,
}

/// What is bound to a slot of an attempt: a version of an entry, a max mark (in 10^-7), and the catalogue position
/// of the plan or job that bound it.
#[derive(Clone, Copy, PartialEq, Eq)]
pub struct Bound {
    pub entry: u32,
    pub version: u32,
    pub max: Mark,
    pub at: u64,
}

impl TryCopy for Planned {
    fn try_copy(&self, _alloc: Global) -> Result<Planned, NoMemory> {
        Ok(*self)
    }
}

impl TryCopy for Plan {
    fn try_copy(&self, alloc: Global) -> Result<Plan, NoMemory> {
        Ok(Plan {
            at: self.at,
            quiz: self.quiz,
            name: self.name.try_copy(alloc)?,
            ready: self.ready,
            behaviour: self.behaviour,
            settings: self.settings,
            policy: self.policy,
            slots: self.slots.try_copy(alloc)?,
            questions: self.questions.try_copy(alloc)?,
        })
    }
}

impl TryCopy for Bound {
    fn try_copy(&self, _alloc: Global) -> Result<Bound, NoMemory> {
        Ok(*self)
    }
}
