//! A machine that follows the steps of one slot.

ghost use Rattle.std.specs.Prelude.{◌≡◌, ◌-◌, ◌+◌, ◌^◌, ◌<◌, ◌≤◌, ◌++◌, ◌∷◌, [], List, length, true, false, Some, None, Ok, not, ◌&&◌, IfSome, IfOk, IfErr, OnErr, IsTrue, if◌then◌else◌};
ghost use Rattle.qz_decimal.specs.Numbers.{IsEarnedFraction};
ghost use Rattle.qz_grading.specs.Grading.{complete, fits};
ghost use Rattle.qz_grading.specs.Questions.{IsQuestion};
ghost use Rattle.qz_grading.specs.Steps.{last, is_finish, is_mark, is_save, response_at, StepFits};
ghost use Rattle.qz_grading.specs.Behaviours.{barred, barred_showing, moved, is_wrong_action};
ghost use Rattle.qz_grading.specs.Behaviours as behaviours;
ghost use Rattle.qz_tries.specs.Progress.{is_adaptive, has_tries};
ghost use Rattle.qz_tries.specs.After.{IsAfter, Starts};

use crate::adaptive::{is_new, penalty_under};
use crate::fractions::is_right;
use crate::places::{ends_complete, gradable_at, submitted_at};
use crate::{adaptive, interactive};
use qz_grading::{
    Behaviour, Moved, Outcome, Question, Refusal, Response, State, Step, Steps, complete, grade,
    moved,
};
use std::marker::Model;
use std::sync::ledger::Ledger;

/// What comes of one slot's steps under a behaviour with tries: interactive, or adaptive with or without penalties.
///
/// It is told the steps one at a time and keeps none: the caller keeps their list, and lends it with each further step. It takes
/// no memory. Moodle's manual page "Question behaviours" describes the three.
#[derive(Drop)]
pub struct TryMachine {
    behaviour: Behaviour,
    outcome: Outcome,
    /// The place of the last response.
    last: Option<usize>,
    /// The place of the last complete Submit.
    handed_in: Option<usize>,
    /// Whether some try of an adaptive slot was right.
    right: bool,
    finished: bool,
}

impl Model for TryMachine {
    ghost use Rattle.qz_tries.specs.Progress.{Progress};

    ghost Value = { Progress };

    ghost view = { λ m. record { behaviour = m.behaviour; outcome = m.outcome; last = m.last; handed_in = m.handed_in; right = m.right; finished = m.finished } };
}

/// The outcome after a step that is no try: a slot that has ended stays as it is, and another goes on in this state.
fn waiting(so_far: Outcome, state: State) -> Outcome
    ensures { result ≡ (if so_far.ended then so_far else record so_far { state = state; needs_again = false }) }
{
    if so_far.ended {
        return so_far;
    }
    Outcome {
        state,
        needs_again: false,
        ..so_far
    }
}

/// Whether the behaviour doesn't take the step: "again" is for interactive slots, after a complete Submit.
fn is_wrong_action(behaviour: Behaviour, question: &Question, before: &[Step], step: &Step) -> bool
    requires { has_tries behaviour ≡ true }
    ensures { result ≡ is_wrong_action behaviour question.now before.now step.now }
{
    match step {
        Step::Again => behaviour != Behaviour::Interactive || !ends_complete(question, before),
        _ => false,
    }
}

impl TryMachine {
    /// A machine that has followed no step yet. The behaviour is interactive or one of the two adaptive ones.
    pub fn start(behaviour: Behaviour) -> TryMachine
        requires { has_tries behaviour ≡ true }
        ensures { Starts result behaviour }
    {
        TryMachine {
            behaviour,
            outcome: Outcome {
                state: State::Todo,
                fraction: None,
                ended: false,
                needs_again: false,
                tries: 0,
            },
            last: None,
            handed_in: None,
            right: false,
            finished: false,
        }
    }

    /// What came of the steps that it followed.
    pub fn outcome(&self) -> Outcome
        ensures { result ≡ self.now.outcome }
    {
        self.outcome
    }

    /// How the slot behaves.
    pub fn behaviour(&self) -> Behaviour
        ensures { result ≡ self.now.behaviour }
    {
        self.behaviour
    }

    /// Follows one more step, whether or not it would be refused. After a Finish no step changes anything.
    ///
    /// `before` are the steps that it followed, under this question, and a response in the step fits the question. It counts at
    /// most one step of grading, and none for a Save.
    pub fn feed<L: Ledger>(
        &mut self,
        question: &Question,
        before: &[Step],
        step: &Step,
        steps: &mut Steps<L>,
    )
        requires question { IsQuestion question.now }
        requires after { IsAfter self.old question.now before.now }
        requires fits { StepFits self.old.behaviour question.now step.now }
        requires few { length before.now < 2 ^ 32 - 1 }
        ensures after { IsAfter self.new question.now (before.now ++ step.now ∷ []) }
        ensures same_behaviour { self.new.behaviour ≡ self.old.behaviour }
        ensures count { steps.new ≤ steps.old + 1 }
        ensures save { is_save step.now ≡ true → steps.new ≡ steps.old }
    {
        if self.finished {
            return;
        }
        match step {
            Step::Save(_) => self.save(before.len()),
            Step::Submit(response) => self.submit(question, before, response, steps),
            Step::Again | Step::Mark { .. } => self.outcome = waiting(self.outcome, State::Todo),
            Step::Finish => self.finish(question, before, steps),
        }
    }

    /// The first cause for which a step is refused, whether or not its response fits. A refusal after the end carries the state
    /// that is shown.
    pub fn barred(
        &self,
        question: &Question,
        before: &[Step],
        step: &Step,
        shown: State,
    ) -> Option<Refusal>
        requires { IsAfter self.now question.now before.now }
        ensures { result ≡ barred_showing shown self.now.behaviour question.now before.now step.now }
    {
        if is_wrong_action(self.behaviour, question, before, step) {
            return Some(Refusal::WrongAction {
                behaviour: self.behaviour,
            });
        }
        if self.comes_late(step) {
            return Some(Refusal::SlotEnded { state: shown });
        }
        if self.outcome.needs_again && matches!(step, Step::Save(_) | Step::Submit(_)) {
            return Some(Refusal::NeedsTryAgain);
        }
        None
    }

    /// Whether a step comes after the end. A Finish still comes after a try that ended the slot, and a Mark always.
    fn comes_late(&self, step: &Step) -> bool
        ensures { result ≡ (if is_finish step.now then self.now.finished else not (is_mark step.now) && self.now.outcome.ended) }
    {
        match step {
            Step::Finish => self.finished,
            Step::Mark { .. } => false,
            _ => self.outcome.ended,
        }
    }

    /// Whether a step adds something to those before it.
    pub fn moved(&self, before: &[Step], step: &Step) -> Moved
        requires { response_at before.now self.now.last ≡ last before.now }
        ensures { result ≡ moved before.now step.now }
    {
        moved(before, self.last, step)
    }

    /// Goes on with a response, at this place, that isn't handed in.
    fn save(&mut self, place: usize)
        ensures { self.new ≡ record self.old { outcome = (if self.old.outcome.ended then self.old.outcome else record self.old.outcome { state = State.Todo; needs_again = false }); last = Some place } }
    {
        self.outcome = waiting(self.outcome, State::Todo);
        self.last = Some(place);
    }

    /// A Submit. An incomplete one is no try.
    fn submit<L: Ledger>(
        &mut self,
        question: &Question,
        before: &[Step],
        response: &Response,
        steps: &mut Steps<L>,
    )
        requires question { IsQuestion question.now }
        requires after { IsAfter self.old question.now before.now }
        requires unfinished { self.old.finished ≡ false }
        requires fits { fits question.now response.now self.old.behaviour ≡ true }
        requires few { length before.now < 2 ^ 32 - 1 }
        ensures after { IsAfter self.new question.now (before.now ++ Step.Submit response.now ∷ []) }
        ensures same_behaviour { self.new.behaviour ≡ self.old.behaviour }
        ensures count { steps.new ≤ steps.old + 1 }
    {
        if !complete(question, response) {
            self.outcome = waiting(self.outcome, State::Invalid);
            self.last = Some(before.len());
            return;
        }
        match self.behaviour {
            Behaviour::Interactive => self.submit_interactive(question, before, response, steps),
            _ => self.submit_adaptive(question, before, response, steps),
        }
    }

    /// A complete Submit under the interactive behaviour.
    fn submit_interactive<L: Ledger>(
        &mut self,
        question: &Question,
        before: &[Step],
        response: &Response,
        steps: &mut Steps<L>,
    )
        requires interactive { self.old.behaviour ≡ Behaviour.Interactive }
        requires question { IsQuestion question.now }
        requires after { IsAfter self.old question.now before.now }
        requires unfinished { self.old.finished ≡ false }
        requires fits { fits question.now response.now self.old.behaviour ≡ true }
        requires complete { complete question.now response.now ≡ true }
        requires few { length before.now < 2 ^ 32 - 1 }
        ensures after { IsAfter self.new question.now (before.now ++ Step.Submit response.now ∷ []) }
        ensures same_behaviour { self.new.behaviour ≡ self.old.behaviour }
        ensures count { steps.new ≤ steps.old + 1 }
    {
        self.outcome = interactive::after_try(self.outcome, question, response, steps);
        self.last = Some(before.len());
        self.handed_in = Some(before.len());
    }

    /// A complete Submit under an adaptive behaviour. It is a try where it differs from the last one.
    fn submit_adaptive<L: Ledger>(
        &mut self,
        question: &Question,
        before: &[Step],
        response: &Response,
        steps: &mut Steps<L>,
    )
        requires adaptive { is_adaptive self.old.behaviour ≡ true }
        requires question { IsQuestion question.now }
        requires after { IsAfter self.old question.now before.now }
        requires unfinished { self.old.finished ≡ false }
        requires fits { fits question.now response.now self.old.behaviour ≡ true }
        requires complete { complete question.now response.now ≡ true }
        requires few { length before.now < 2 ^ 32 - 1 }
        ensures after { IsAfter self.new question.now (before.now ++ Step.Submit response.now ∷ []) }
        ensures same_behaviour { self.new.behaviour ≡ self.old.behaviour }
        ensures count { steps.new ≤ steps.old + 1 }
    {
        if is_new(submitted_at(before, self.handed_in), response) {
            let grade = grade(question, response, steps);
            let penalty = penalty_under(self.behaviour, question);
            self.right |= is_right(grade);
            self.outcome = adaptive::after_try(self.outcome, self.right, grade, penalty);
        } else {
            self.outcome = waiting(self.outcome, State::Todo);
        }
        self.last = Some(before.len());
        self.handed_in = Some(before.len());
    }

    /// The first Finish.
    fn finish<L: Ledger>(&mut self, question: &Question, before: &[Step], steps: &mut Steps<L>)
        requires question { IsQuestion question.now }
        requires after { IsAfter self.old question.now before.now }
        requires unfinished { self.old.finished ≡ false }
        requires few { length before.now < 2 ^ 32 - 1 }
        ensures after { IsAfter self.new question.now (before.now ++ Step.Finish ∷ []) }
        ensures same_behaviour { self.new.behaviour ≡ self.old.behaviour }
        ensures count { steps.new ≤ steps.old + 1 }
    {
        self.outcome = self.outcome_at_finish(question, before, steps);
        self.finished = true;
    }

    /// What the steps and a Finish come to.
    fn outcome_at_finish<L: Ledger>(
        &self,
        question: &Question,
        before: &[Step],
        steps: &mut Steps<L>,
    ) -> Outcome
        requires question { IsQuestion question.now }
        requires after { IsAfter self.now question.now before.now }
        requires unfinished { self.now.finished ≡ false }
        requires few { length before.now < 2 ^ 32 - 1 }
        ensures outcome { result ≡ behaviours.outcome self.now.behaviour question.now (before.now ++ Step.Finish ∷ []) }
        ensures earned { IfSome result.fraction IsEarnedFraction }
        ensures tries { result.tries ≤ self.now.outcome.tries + 1 }
        ensures count { steps.new ≤ steps.old + 1 }
    {
        let last = gradable_at(question, before, self.last);
        match self.behaviour {
            Behaviour::Interactive => {
                interactive::after_finish(self.outcome, question, last, steps)
            }
            behaviour => {
                let handed_in = submitted_at(before, self.handed_in);
                adaptive::after_finish(self.outcome, behaviour, question, last, handed_in, steps)
            }
        }
    }
}
