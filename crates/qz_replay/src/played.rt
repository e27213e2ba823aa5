//! A slot that is replayed, with the steps taken on it.

ghost use Rattle.std.specs.Prelude.{◌≡◌, ◌++◌, ◌∷◌, [], Ok, IfOk, IfSome, OnOk, OnErr};
ghost use Rattle.qz_decimal.specs.Numbers.{IsMaxMark};
ghost use Rattle.qz_grading.specs.Questions.{IsQuestion};
ghost use Rattle.qz_grading.specs.Slots.{slot_state, slot_mark};
ghost use Rattle.qz_grading.specs.Steps.{given};
ghost use Rattle.qz_replay.specs.Plays.{IsPlayable, IsAskable, behaves, step_fate, bind_fate, fate, next, after_fate};

use crate::asked::Asked;
use crate::slot::Slot;
use qz_decimal::Mark;
use qz_grading::{Behaviour, Moved, Question, Refusal, State, Step, Steps};
use qz_terms::Bound;
use qz_text::NoMemory;
use qz_usage::SlotRun;
use std::alloc::Global;
use std::marker::Model;
use std::sync::ledger::Ledger;

/// What comes of a line: it is kept, the same as before, or refused.
pub type Fate = Result<Moved, Refusal>;

/// A slot that is replayed, seen as the slot and the steps taken on it.
#[derive(Drop)]
pub struct Played {
    preferred: Behaviour,
    question: Question,
    run: SlotRun,
}

impl Model for Played {
    ghost use Rattle.qz_replay.specs.Plays.{Play};

    ghost Value = { Play };

    ghost use Rattle.qz_replay.specs.Played.{IsInStep};

    ghost view = { λ p. record { slot = record { behaviour = p.preferred; max = p.run.bound.max; question = p.question }; taken = p.run.steps } };

    ghost invariant = { IsInStep };
}

/// A replay has no bank, so that nothing but the max mark is bound.
fn bound_of(max: Mark) -> Bound
    ensures { result.max ≡ max }
{
    Bound {
        entry: 0,
        version: 0,
        max,
        at: 0,
    }
}

impl Played {
    /// A slot without a step.
    pub fn new(alloc: Global, slot: Slot) -> Result<Played, NoMemory>
        requires { IsPlayable slot }
        ensures { IfOk result (λ p. p ≡ record { slot = slot; taken = [] }) }
    {
        let run = SlotRun::new(alloc, slot.behaviour, &slot.question, bound_of(slot.max))?;
        Ok(Played {
            preferred: slot.behaviour,
            question: slot.question,
            run,
        })
    }

    /// The max mark that is bound (in 10^-7).
    pub fn max(&self) -> Mark
        ensures { result ≡ self.now.slot.max }
    {
        self.run.bound().max
    }

    /// The state that the slot shows.
    pub fn state(&self) -> State
        ensures { result ≡ slot_state (behaves self.now.slot) self.now.slot.question self.now.taken }
    {
        self.run.state()
    }

    /// The mark that the slot shows (in 10^-7).
    pub fn mark(&self) -> Option<Mark>
        ensures { result ≡ slot_mark (behaves self.now.slot) self.now.slot.question self.now.slot.max self.now.taken }
    {
        self.run.mark()
    }

    /// Takes what a line asks for, or refuses it for its first cause and stays as it was; so it does where memory is wanting.
    pub fn take<L: Ledger>(&mut self, asked: Asked, steps: &mut Steps<L>) -> Result<Fate, NoMemory>
        requires { IsAskable self.old.slot.max asked }
        ensures fate { IfOk result (λ told. told ≡ fate self.old asked) }
        ensures next { OnOk result (self.new ≡ next self.old asked) }
        ensures unchanged { OnErr result (self.new ≡ self.old) }
    {
        match asked {
            Asked::Step(step) => self.act(step, steps),
            Asked::Bind(version) => Ok(self.bind(version.question, version.max, steps)),
        }
    }

    fn act<L: Ledger>(&mut self, step: Step, steps: &mut Steps<L>) -> Result<Fate, NoMemory>
        requires { IfSome (given step) (λ m. m.1 ≡ self.old.slot.max) }
        ensures fate { IfOk result (λ told. told ≡ step_fate self.old step) }
        ensures next { OnOk result (self.new ≡ after_fate (step_fate self.old step) self.old (Asked.Step step)) }
        ensures unchanged { OnErr result (self.new ≡ self.old) }
    {
        self.run.reserve()?;
        Ok(self.run.act(&self.question, step, steps))
    }

    fn bind<L: Ledger>(&mut self, newer: Question, max: Mark, steps: &mut Steps<L>) -> Fate
        requires question { IsQuestion newer }
        requires max { IsMaxMark max }
        ensures fate { result ≡ bind_fate self.old.slot.question newer }
        ensures kept { OnOk result (self.new ≡ record self.old { slot = record { behaviour = self.old.slot.behaviour; max = max; question = newer } }) }
        ensures unchanged { OnErr result (self.new ≡ self.old) }
    {
        self.run.bind(&self.question, &newer, bound_of(max), steps)?;
        self.question = newer;
        Ok(Moved::Kept)
    }
}
