//! A machine that follows one slot's steps.

ghost use Rattle.std.specs.Prelude.{◌≡◌, ◌+◌, ◌-◌, ◌^◌, ◌<◌, ◌≤◌, List, ◌++◌, ◌∷◌, [], length, true, false, None, unwrap_or, option_map, option_copied, if◌then◌else◌, IfSome, IfOk, IfErr, OnErr};
ghost use Rattle.qz_decimal.specs.Numbers.{IsEarnedFraction};
ghost use Rattle.qz_grading.specs.Grading.{blank};
ghost use Rattle.qz_grading.specs.Questions.{IsQuestion};
ghost use Rattle.qz_grading.specs.Steps.{has_finish, last, is_save, response_at, StepFits};
ghost use Rattle.qz_grading.specs.Behaviours.{complete_under, takes, comes_late, barred, barred_showing, moved, at_finish};
ghost use Rattle.qz_behave.specs.Machines.{is_played, IsAfter, Starts};
ghost use Rattle.qz_behave.specs.Following.{is_deferred, grades_first, IsLastPlace, IsNext, IsOutcome, going_on, ended_with};

use crate::grades::{ended, going_on, graded_outcome, is_complete};
use qz_grading::{
    Behaviour, Moved, Outcome, Question, Refusal, Response, State, Step, Steps, gradable, moved,
    response_at,
};
use std::marker::Model;
use std::sync::ledger::Ledger;

/// What comes of one slot's steps, which it is told one at a time and doesn't keep: the caller keeps their list. It takes no
/// memory.
///
/// It plays deferred and immediate feedback, both also with certainty, a teacher's marking, and information. Moodle's developer
/// page "Question behaviours" describes each, and its manual page "Certainty-based marking" what certainty earns and costs.
#[derive(Drop)]
pub struct Machine {
    behaviour: Behaviour,
    outcome: Outcome,
    /// The place of the last response before a Finish, from 0.
    last: Option<usize>,
    finished: bool,
}

impl Model for Machine {
    ghost use Rattle.qz_behave.specs.Machines.{Progress};

    ghost Value = { Progress };

    ghost view = { λ m. record { behaviour = m.behaviour; outcome = m.outcome; last = m.last; finished = m.finished } };
}

/// Whether a behaviour takes a step. None of those played takes an Again.
fn takes(behaviour: Behaviour, step: &Step) -> bool
    requires { is_played behaviour ≡ true }
    ensures { result ≡ takes behaviour step.now }
{
    match step {
        Step::Finish => true,
        Step::Save(_) | Step::Mark { .. } => behaviour != Behaviour::Information,
        Step::Submit(_) => matches!(behaviour, Behaviour::Immediate | Behaviour::ImmediateCbm),
        Step::Again => false,
    }
}

impl Machine {
    /// A machine that has followed no step yet.
    pub fn start(behaviour: Behaviour) -> Machine
        requires { is_played behaviour ≡ true }
        ensures { Starts result behaviour }
    {
        Machine {
            behaviour,
            outcome: going_on(State::Todo),
            last: None,
            finished: false,
        }
    }

    /// What comes of the steps that it followed.
    pub fn outcome(&self) -> Outcome
        ensures { result ≡ self.now.outcome }
    {
        self.outcome
    }

    /// How the slot behaves.
    pub fn behaviour(&self) -> Behaviour
        ensures { result ≡ self.now.behaviour }
    {
        self.behaviour
    }

    /// Follows one more step, whether or not it is barred. The steps before are those that it followed, under this question.
    pub fn feed<L: Ledger>(
        &mut self,
        question: &Question,
        before: &[Step],
        step: &Step,
        steps: &mut Steps<L>,
    )
        requires question { IsQuestion question.now }
        requires after { IsAfter self.old question.now before.now }
        requires fits { StepFits self.old.behaviour question.now step.now }
        requires few { length before.now < 2 ^ 32 - 1 }
        ensures after { IsAfter self.new question.now (before.now ++ step.now ∷ []) }
        ensures same_behaviour { self.new.behaviour ≡ self.old.behaviour }
        ensures count { steps.new ≤ steps.old + 1 }
        ensures save { is_save step.now ≡ true → steps.new ≡ steps.old }
    {
        let outcome = self.next(question, before, step, steps);
        let last = self.last_after(before, step);
        self.outcome = outcome;
        self.last = last;
        self.finished |= step.is_finish();
    }

    /// The first cause for which a step is refused, whether or not its response fits. A refusal after the end carries the state
    /// that is shown.
    pub fn barred(&self, step: &Step, shown: State) -> Option<Refusal>
        requires { is_played self.now.behaviour ≡ true }
        ensures { (q : Question) (s : List Step) → IsAfter self.now q s → result ≡ barred_showing shown self.now.behaviour q s step.now }
    {
        if !takes(self.behaviour, step) {
            return Some(Refusal::WrongAction {
                behaviour: self.behaviour,
            });
        }
        if self.comes_late(step) {
            return Some(Refusal::SlotEnded { state: shown });
        }
        None
    }

    /// Whether a step comes after the end. A Mark never does, and a Finish only after a Finish.
    fn comes_late(&self, step: &Step) -> bool
        ensures { (q : Question) (s : List Step) → IsAfter self.now q s → result ≡ comes_late self.now.behaviour q s step.now }
    {
        match step {
            Step::Finish => self.finished,
            Step::Mark { .. } => false,
            Step::Save(_) | Step::Submit(_) | Step::Again => self.outcome.ended,
        }
    }

    /// Whether a step would be kept, or is the same as the one before.
    pub fn moved(&self, before: &[Step], step: &Step) -> Moved
        requires { response_at before.now self.now.last ≡ last before.now }
        ensures { result ≡ moved before.now step.now }
    {
        moved(before, self.last, step)
    }

    /// The last response before a Finish. None stands for the blank one.
    fn last<'a>(&self, before: &'a [Step]) -> Option<&'a Response>
        ensures { unwrap_or (option_copied result) blank ≡ response_at before.now self.now.last }
    {
        response_at(before, self.last)
    }

    /// The place of the last response once this step stands at the end.
    fn last_after(&self, before: &[Step], step: &Step) -> Option<usize>
        requires place { IsLastPlace self.now.last before.now }
        requires finished { self.now.finished ≡ has_finish before.now }
        requires few { length before.now < 2 ^ 32 - 1 }
        ensures { IsLastPlace result (before.now ++ step.now ∷ []) }
    {
        if self.finished {
            return self.last;
        }
        match step.response() {
            Some(_) => Some(before.len()),
            None => self.last,
        }
    }

    /// What comes of the steps and one more. After the end nothing does.
    fn next<L: Ledger>(
        &self,
        question: &Question,
        before: &[Step],
        step: &Step,
        steps: &mut Steps<L>,
    ) -> Outcome
        requires { IsNext self.now question.now before.now step.now }
        ensures outcome { IsOutcome self.now.behaviour question.now (before.now ++ step.now ∷ []) result }
        ensures count { steps.new ≤ steps.old + 1 }
        ensures save { is_save step.now ≡ true → steps.new ≡ steps.old }
    {
        if self.outcome.ended {
            return self.outcome;
        }
        match self.behaviour {
            Behaviour::Deferred | Behaviour::DeferredCbm => {
                self.deferred(question, before, step, steps)
            }
            Behaviour::Immediate | Behaviour::ImmediateCbm => {
                self.immediate(question, before, step, steps)
            }
            Behaviour::Manual => self.manual(question, before, step),
            Behaviour::Information => self.information(question, before, step),
            Behaviour::Interactive | Behaviour::Adaptive | Behaviour::AdaptiveNoPenalty => {
                unreachable!()
            }
        }
    }

    /// Deferred feedback: the last response is graded at the Finish.
    fn deferred<L: Ledger>(
        &self,
        question: &Question,
        before: &[Step],
        step: &Step,
        steps: &mut Steps<L>,
    ) -> Outcome
        requires next { IsNext self.now question.now before.now step.now }
        requires behaviour { is_deferred self.now.behaviour ≡ true }
        requires unended { self.now.outcome.ended ≡ false }
        ensures outcome { IsOutcome self.now.behaviour question.now (before.now ++ step.now ∷ []) result }
        ensures count { steps.new ≤ steps.old + 1 }
        ensures save { is_save step.now ≡ true → steps.new ≡ steps.old }
    {
        match step {
            Step::Save(response) | Step::Submit(response) => self.saved(question, response),
            Step::Again | Step::Mark { .. } => self.outcome,
            Step::Finish => self.at_finish(question, before, steps),
        }
    }

    /// Immediate feedback: the first complete Submit is graded, or the last response at the Finish.
    fn immediate<L: Ledger>(
        &self,
        question: &Question,
        before: &[Step],
        step: &Step,
        steps: &mut Steps<L>,
    ) -> Outcome
        requires next { IsNext self.now question.now before.now step.now }
        requires behaviour { grades_first self.now.behaviour ≡ true }
        requires unended { self.now.outcome.ended ≡ false }
        ensures outcome { IsOutcome self.now.behaviour question.now (before.now ++ step.now ∷ []) result }
        ensures count { steps.new ≤ steps.old + 1 }
        ensures save { is_save step.now ≡ true → steps.new ≡ steps.old }
    {
        match step {
            Step::Submit(response) if is_complete(self.behaviour, question, response) => {
                graded_outcome(self.behaviour, question, response, steps)
            }
            Step::Submit(_) => going_on(State::Invalid),
            Step::Save(_) | Step::Again | Step::Mark { .. } => going_on(State::Todo),
            Step::Finish => self.at_finish(question, before, steps),
        }
    }

    /// A teacher marks the last response after the Finish, if it is complete.
    fn manual(&self, question: &Question, before: &[Step], step: &Step) -> Outcome
        requires next { IsNext self.now question.now before.now step.now }
        requires behaviour { self.now.behaviour ≡ Behaviour.Manual }
        requires unended { self.now.outcome.ended ≡ false }
        ensures { IsOutcome self.now.behaviour question.now (before.now ++ step.now ∷ []) result }
    {
        match step {
            Step::Save(response) | Step::Submit(response) => self.saved(question, response),
            Step::Again | Step::Mark { .. } => self.outcome,
            Step::Finish if self.is_last_complete(question, before) => {
                ended(State::NeedsGrading, None)
            }
            Step::Finish => ended(State::GaveUp, None),
        }
    }

    /// Nothing is answered: a Finish alone shows.
    fn information(&self, question: &Question, before: &[Step], step: &Step) -> Outcome
        requires next { IsNext self.now question.now before.now step.now }
        requires behaviour { self.now.behaviour ≡ Behaviour.Information }
        requires unended { self.now.outcome.ended ≡ false }
        ensures { IsOutcome self.now.behaviour question.now (before.now ++ step.now ∷ []) result }
    {
        match step {
            Step::Finish => ended(State::Finished, None),
            _ => self.outcome,
        }
    }

    /// A response that is kept until the Finish.
    fn saved(&self, question: &Question, response: &Response) -> Outcome
        ensures { result ≡ going_on (if complete_under self.now.behaviour question.now response.now then State.Complete else State.Todo) }
    {
        if is_complete(self.behaviour, question, response) {
            going_on(State::Complete)
        } else {
            going_on(State::Todo)
        }
    }

    /// Whether the last response is complete.
    fn is_last_complete(&self, question: &Question, before: &[Step]) -> bool
        requires { response_at before.now self.now.last ≡ last before.now }
        ensures { result ≡ complete_under self.now.behaviour question.now (last before.now) }
    {
        match self.last(before) {
            Some(last) => is_complete(self.behaviour, question, last),
            None => false,
        }
    }

    /// The last response is graded at the Finish, if it can be.
    fn at_finish<L: Ledger>(
        &self,
        question: &Question,
        before: &[Step],
        steps: &mut Steps<L>,
    ) -> Outcome
        requires question { IsQuestion question.now }
        requires after { IsAfter self.now question.now before.now }
        ensures value { result ≡ ended_with (at_finish self.now.behaviour question.now before.now) }
        ensures earned { IfSome result.fraction IsEarnedFraction }
        ensures count { steps.new ≤ steps.old + 1 }
    {
        match self.last(before) {
            Some(last) if gradable(question, last) => {
                graded_outcome(self.behaviour, question, last, steps)
            }
            _ => ended(State::GaveUp, None),
        }
    }
}
