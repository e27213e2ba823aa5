//! One slot that is played.

ghost use Rattle.std.specs.Prelude.{◌≡◌, ◌+◌, ◌<◌, ◌≤◌, ◌++◌, ◌∷◌, [], length, filter, ℤ, Bool, true, false, Some, None, Ok, not, ◌&&◌, IfSome, IfNone, IfOk, IfErr, OnOk, OnErr, MatchResult, if◌then◌else◌};
ghost use Rattle.std.specs.List.{list_any};
ghost use Rattle.qz_decimal.specs.Numbers.{IsMaxMark, IsSlotMark, IsEarnedFraction};
ghost use Rattle.qz_grading.specs.Grading.{shape};
ghost use Rattle.qz_grading.specs.Shapes.{same_shape};
ghost use Rattle.qz_grading.specs.Questions.{IsQuestion};
ghost use Rattle.qz_grading.specs.Steps.{given, is_save, has_finish};
ghost use Rattle.qz_grading.specs.Behaviours.{behaviour_for, barred_showing, moved, outcome, marked};
ghost use Rattle.qz_grading.specs.Slots.{slot_state, slot_mark, step_cause, last_given, is_misfit, is_out_of_range, is_full_for};
ghost use Rattle.qz_usage.specs.Runs.{behaviour_of, outcome_of, IsBound, IsGiven, IsWithinLimits, Adds};

use crate::player::Player;
use qz_decimal::{Fraction, Mark, Tone, fraction_of, mark_of, rescale, tone_of};
use qz_grading::{
    Behaviour, Kind, MOST_ANSWERING, MOST_MARKS, Moved, Outcome, Question, Refusal, Shape, State,
    Step, Steps, fits, shape_of,
};
use qz_terms::Bound;
use qz_text::NoMemory;
use std::alloc::Global;
use std::marker::Model;
use std::sync::ledger::Ledger;

/// A slot of an attempt: how it behaves, what is bound to it, the steps taken, and what came of them.
///
/// It doesn't keep its question: each call that reads one is lent the question that is bound, the one that the run was made
/// with or that was bound last. Acting on a slot takes no memory once there is room for one more step, and its time doesn't grow
/// with the steps before.
#[derive(Drop)]
pub struct SlotRun {
    player: Player,
    bound: Bound,
    steps: Vec<Step>,
    /// How many steps are a Save, a Submit or an Again.
    answering: u32,
    /// How many steps are a Mark.
    marks: u32,
    finished: bool,
    /// The mark of the last Mark step, and the max mark of that moment.
    given: Option<(Mark, Mark)>,
}

impl Model for SlotRun {
    ghost use Rattle.std.specs.Prelude.{◌-◌, vec_len, vec_capacity};
    ghost use Rattle.qz_usage.specs.Runs.{Run};

    ghost Value = { Run };

    ghost use Rattle.qz_usage.specs.Tallies.{IsTallied};

    ghost view = { λ r. record { player = r.player; bound = r.bound; steps = r.steps.items; room = vec_capacity r.steps - vec_len r.steps } };

    ghost invariant = { IsTallied };
}

/// How a slot behaves whose question is of this kind, where the quiz prefers a behaviour. A description is always shown, and an
/// essay always marked by a teacher.
fn behaviour_for(kind: &Kind, preferred: Behaviour) -> Behaviour
    ensures { result ≡ behaviour_for kind.now preferred }
{
    match kind {
        Kind::Description => Behaviour::Information,
        Kind::Essay => Behaviour::Manual,
        _ => preferred,
    }
}

/// The state of a slot that a teacher marked.
fn marked(fraction: Fraction) -> State
    ensures { result ≡ marked fraction }
{
    match tone_of(fraction) {
        Tone::Wrong => State::MangrWrong,
        Tone::Partial => State::MangrPartial,
        Tone::Right => State::MangrRight,
    }
}

fn same_shape(one: Shape, other: Shape) -> bool
    ensures { result ≡ same_shape one other }
{
    one.kind == other.kind && one.first == other.first && one.second == other.second
}

/// The mark of a Mark step, and the max mark of that moment.
fn given(step: &Step) -> Option<(Mark, Mark)>
    ensures { result ≡ given step.now }
{
    match step {
        Step::Mark { mark, max } => Some((*mark, *max)),
        _ => None,
    }
}

impl SlotRun {
    /// A slot without a step, for a question and a bound, with room for one step. A description is always shown, and an essay
    /// always marked by a teacher; every other kind has the preferred behaviour. The max mark is from 0 to 10,000.
    pub fn new(
        alloc: Global,
        preferred: Behaviour,
        question: &Question,
        bound: Bound,
    ) -> Result<SlotRun, NoMemory>
        requires question { IsQuestion question.now }
        requires max { IsMaxMark bound.max }
        ensures question { IfOk result (λ r. IsBound r question.now) }
        ensures behaviour { IfOk result (λ r. behaviour_of r ≡ behaviour_for question.now.kind preferred) }
        ensures bound { IfOk result (λ r. r.bound ≡ bound) }
        ensures steps { IfOk result (λ r. r.steps ≡ []) }
        ensures room { IfOk result (λ r. 0 < r.room) }
    {
        Ok(SlotRun {
            player: Player::start(behaviour_for(&question.kind, preferred)),
            bound,
            steps: Vec::with_capacity(alloc, 1)?,
            answering: 0,
            marks: 0,
            finished: false,
            given: None,
        })
    }

    /// Makes room for one more step. Where memory is wanting the slot is as before.
    pub fn reserve(&mut self) -> Result<(), NoMemory>
        ensures room { OnOk result (0 < self.new.room) }
        ensures rest { self.new ≡ record self.old { room = self.new.room } }
        ensures kept { self.old.room ≤ self.new.room }
        ensures unchanged { OnErr result (self.new ≡ self.old) }
    {
        Ok(self.steps.reserve(1)?)
    }

    /// Takes one more step, or refuses it for its first cause and stays as it was. It takes no memory.
    ///
    /// The causes, in order: the behaviour doesn't take the step, or Again doesn't follow a complete Submit (`WrongAction`); the
    /// slot has ended (`SlotEnded`, with the state that it shows); "try again" is needed first (`NeedsTryAgain`); the response
    /// doesn't fit the question (`Misfit`); the mark is below 0 or above the max mark (`OutOfRange`); a Mark comes before the
    /// Finish (`NotFinished`); the slot has 10,000 Save, Submit and Again steps, or 1,000 Mark steps (`TooMany`). A Save of the
    /// last response, and a Submit again of the Submit right before, are the same and add nothing. A Save counts no grading, and
    /// any other step two at most.
    pub fn act<L: Ledger>(
        &mut self,
        question: &Question,
        step: Step,
        steps: &mut Steps<L>,
    ) -> Result<Moved, Refusal>
        requires question { IsBound self.old question.now }
        requires room { 0 < self.old.room }
        requires max { IfSome (given step) (λ m. m.1 ≡ self.old.bound.max) }
        ensures refused { IfErr result (λ r. step_cause (behaviour_of self.old) question.now self.old.bound.max self.old.steps step ≡ Some r) }
        ensures taken { IfOk result (λ m. (step_cause (behaviour_of self.old) question.now self.old.bound.max self.old.steps step ≡ None) × (m ≡ moved self.old.steps step)) }
        ensures kept { result ≡ Ok Moved.Kept → Adds self.old self.new step }
        ensures same { result ≡ Ok Moved.Same → self.new ≡ self.old }
        ensures unchanged { OnErr result (self.new ≡ self.old) }
        ensures question { IsBound self.new question.now }
        ensures count { steps.new ≤ steps.old + 2 }
        ensures save { is_save step ≡ true → steps.new ≡ steps.old }
        ensures refused_count { OnErr result (steps.new ≡ steps.old) }
    {
        if let Some(refusal) = self.cause(question, &step) {
            return Err(refusal);
        }
        if self.player.moved(&self.steps, &step) == Moved::Same {
            return Ok(Moved::Same);
        }
        self.feed(question, step, steps);
        Ok(Moved::Kept)
    }

    /// Follows a step that was taken before, and asks no cause. It takes no memory. A Save counts no grading, and any other step
    /// one at most.
    pub fn feed<L: Ledger>(&mut self, question: &Question, step: Step, steps: &mut Steps<L>)
        requires question { IsBound self.old question.now }
        requires room { 0 < self.old.room }
        requires fits { is_misfit (behaviour_of self.old) question.now step ≡ false }
        requires given { IfSome (given step) IsGiven }
        requires limits { IsWithinLimits (self.old.steps ++ step ∷ []) }
        ensures kept { Adds self.old self.new step }
        ensures question { IsBound self.new question.now }
        ensures count { steps.new ≤ steps.old + 1 }
        ensures save { is_save step ≡ true → steps.new ≡ steps.old }
    {
        self.player.feed(question, &self.steps, &step, steps);
        self.keep(step);
    }

    /// Binds a newer version of the question and a max mark (0 to 10,000), and reads the steps again from the first: the slot
    /// is then what these steps come to under `newer`, though `newer` would have refused some of them.
    ///
    /// Versions of another shape than the one bound are refused (`Incompatible`, with both shapes), and the slot stays as it
    /// was. The room for further steps stays. It takes no memory, and counts at most as many gradings as there are steps, and one.
    pub fn bind<L: Ledger>(
        &mut self,
        old: &Question,
        newer: &Question,
        bound: Bound,
        steps: &mut Steps<L>,
    ) -> Result<(), Refusal>
        requires question { IsBound self.old old.now }
        requires newer { IsQuestion newer.now }
        requires max { IsMaxMark bound.max }
        ensures taken { OnOk result (same_shape (shape old.now) (shape newer.now) ≡ true) }
        ensures refused { IfErr result (λ r. (same_shape (shape old.now) (shape newer.now) ≡ false) × (r ≡ Refusal.Incompatible (shape old.now) (shape newer.now))) }
        ensures question { OnOk result (IsBound self.new newer.now) }
        ensures bound { OnOk result (self.new.bound ≡ bound) }
        ensures steps { self.new.steps ≡ self.old.steps }
        ensures room { self.new.room ≡ self.old.room }
        ensures behaviour { behaviour_of self.new ≡ behaviour_of self.old }
        ensures unchanged { OnErr result (self.new ≡ self.old) }
        ensures count { steps.new ≤ steps.old + length self.old.steps + 1 }
    {
        let (was, is) = (shape_of(old), shape_of(newer));
        if !same_shape(was, is) {
            return Err(Refusal::Incompatible {
                bound: was,
                newer: is,
            });
        }
        self.player = Player::after(self.player.behaviour(), newer, &self.steps, steps);
        self.bound = bound;
        Ok(())
    }

    /// The mark (in 10^-7): the last one that a teacher gave, rescaled to the max mark bound now, else that of the fraction, and
    /// none before there is either.
    pub fn mark(&self) -> Option<Mark>
        ensures value { (q : Question) → IsBound self.now q → result ≡ slot_mark (behaviour_of self.now) q self.now.bound.max self.now.steps }
        ensures range { IfSome result IsSlotMark }
    {
        match self.given {
            Some((mark, max)) => Some(rescale(mark, max, self.bound.max)),
            None => Some(mark_of(self.outcome().fraction?, self.bound.max)),
        }
    }

    /// The state that the slot shows: by the last mark that a teacher gave, if any.
    pub fn state(&self) -> State
        ensures { (q : Question) → IsBound self.now q → result ≡ slot_state (behaviour_of self.now) q self.now.steps }
    {
        match self.given {
            Some((mark, max)) => marked(fraction_of(mark, max)),
            None => self.outcome().state,
        }
    }

    /// What came of the steps, apart from a teacher's marks.
    pub fn outcome(&self) -> Outcome
        ensures value { result ≡ outcome_of self.now }
        ensures closed { (q : Question) → IsBound self.now q → result ≡ outcome (behaviour_of self.now) q self.now.steps }
        ensures earned { IfSome result.fraction IsEarnedFraction }
    {
        self.player.outcome()
    }

    /// What is bound to the slot.
    pub fn bound(&self) -> &Bound
        ensures value { result.now ≡ self.now.bound }
        ensures max { IsMaxMark self.now.bound.max }
    {
        &self.bound
    }

    /// Whether `act` would keep a step that it doesn't refuse, or find it the same as before. It counts no grading.
    pub fn moved(&self, step: &Step) -> Moved
        requires { (q : Question) × IsBound self.now q }
        ensures { result ≡ moved self.now.steps step.now }
    {
        self.player.moved(&self.steps, step)
    }

    /// The steps taken, in order.
    pub fn steps(&self) -> &[Step]
        ensures value { result.now ≡ self.now.steps }
        ensures limits { IsWithinLimits self.now.steps }
    {
        &self.steps
    }

    /// The first cause for which `act` refuses a step, if it does. It counts no grading.
    pub fn cause(&self, question: &Question, step: &Step) -> Option<Refusal>
        requires { IsBound self.now question.now }
        ensures { result ≡ step_cause (behaviour_of self.now) question.now self.now.bound.max self.now.steps step.now }
    {
        let barred = self
            .player
            .barred(question, &self.steps, step, self.state());
        if barred.is_some() {
            return barred;
        }
        if self.is_misfit(question, step) {
            return Some(Refusal::Misfit);
        }
        if self.is_out_of_range(step) {
            return Some(Refusal::OutOfRange {
                max: self.bound.max,
            });
        }
        if step.is_mark() && !self.finished {
            return Some(Refusal::NotFinished);
        }
        self.full_for(step)
    }

    /// Whether the step's response, if it has one, doesn't fit.
    fn is_misfit(&self, question: &Question, step: &Step) -> bool
        ensures { result ≡ is_misfit (behaviour_of self.now) question.now step.now }
    {
        match step {
            Step::Save(response) | Step::Submit(response) => {
                !fits(question, response, self.player.behaviour())
            }
            Step::Again | Step::Finish | Step::Mark { .. } => false,
        }
    }

    /// Whether the step's mark, if it has one, is below 0 or above the max mark.
    fn is_out_of_range(&self, step: &Step) -> bool
        ensures { result ≡ is_out_of_range self.now.bound.max step.now }
    {
        match step {
            Step::Mark { mark, .. } => mark.0 < 0 || mark.0 > self.bound.max.0,
            _ => false,
        }
    }

    /// The limit that a step would pass.
    fn full_for(&self, step: &Step) -> Option<Refusal>
        ensures { result ≡ is_full_for self.now.steps step.now }
    {
        match step {
            Step::Mark { .. } if self.marks >= MOST_MARKS => Some(Refusal::TooMany {
                limit: MOST_MARKS,
            }),
            Step::Save(_) | Step::Submit(_) | Step::Again if self.answering >= MOST_ANSWERING => {
                Some(Refusal::TooMany {
                    limit: MOST_ANSWERING,
                })
            }
            _ => None,
        }
    }

    /// Puts a step at the end, which the player has followed.
    fn keep(&mut self, step: Step)
        requires room { 0 < self.old.room }
        requires given { IfSome (given step) IsGiven }
        requires limits { IsWithinLimits (self.old.steps ++ step ∷ []) }
        ensures adds { Adds self.old self.new step }
        ensures player { self.new.player ≡ self.old.player }
    {
        self.answering += u32::from(step.is_answering());
        self.marks += u32::from(step.is_mark());
        self.finished |= step.is_finish();
        self.given = given(&step).or(self.given);
        // Room was made before, so this takes no memory.
        self.steps.push(step).unwrap();
    }
}
