//! The two machines as one.

ghost use Rattle.std.specs.Prelude.{◌≡◌, ◌+◌, ◌-◌, ◌^◌, ◌<◌, ◌≤◌, ◌++◌, ◌∷◌, [], length, true, false, None, Some, Ok, IfOk, IfErr, OnErr, IfSome, take};
ghost use Rattle.qz_decimal.specs.Numbers.{IsEarnedFraction};
ghost use Rattle.qz_grading.specs.Questions.{IsQuestion};
ghost use Rattle.qz_grading.specs.Behaviours.{barred, barred_showing, moved};
ghost use Rattle.qz_grading.specs.Steps.{is_save};
ghost use Rattle.qz_grading.specs.Slots.{is_misfit};
ghost use Rattle.qz_usage.specs.Players.{played_behaviour, played_outcome, HasPlayed};
ghost use Rattle.qz_usage.specs.Runs.{has_misfit};

use qz_behave::Machine;
use qz_grading::{Behaviour, Moved, Outcome, Question, Refusal, State, Step, Steps};
use qz_tries::TryMachine;
use std::sync::ledger::Ledger;

/// What plays a slot: the machine of its behaviour.
#[derive(Drop)]
pub(crate) enum Player {
    /// A behaviour without numbered tries.
    Once(Machine),
    /// Interactive, or one of the two adaptive behaviours.
    Tries(TryMachine),
}

impl Player {
    /// A player that has followed no step yet, whatever the question.
    pub(crate) fn start(behaviour: Behaviour) -> Player
        ensures behaviour { played_behaviour result ≡ behaviour }
        ensures played { (q : Question) → HasPlayed result q [] }
    {
        match behaviour {
            Behaviour::Interactive | Behaviour::Adaptive | Behaviour::AdaptiveNoPenalty => {
                Player::Tries(TryMachine::start(behaviour))
            }
            _ => Player::Once(Machine::start(behaviour)),
        }
    }

    pub(crate) fn behaviour(&self) -> Behaviour
        ensures { result ≡ played_behaviour self.now }
    {
        match self {
            Player::Once(machine) => machine.behaviour(),
            Player::Tries(machine) => machine.behaviour(),
        }
    }

    pub(crate) fn outcome(&self) -> Outcome
        ensures { result ≡ played_outcome self.now }
    {
        match self {
            Player::Once(machine) => machine.outcome(),
            Player::Tries(machine) => machine.outcome(),
        }
    }

    /// The first cause for which the machine refuses a step, whether or not its response fits. A refusal after the end carries
    /// the state that is shown.
    pub(crate) fn barred(
        &self,
        question: &Question,
        before: &[Step],
        step: &Step,
        shown: State,
    ) -> Option<Refusal>
        requires { HasPlayed self.now question.now before.now }
        ensures { result ≡ barred_showing shown (played_behaviour self.now) question.now before.now step.now }
    {
        match self {
            Player::Once(machine) => machine.barred(step, shown),
            Player::Tries(machine) => machine.barred(question, before, step, shown),
        }
    }

    /// Whether a step adds something to those that it followed.
    pub(crate) fn moved(&self, before: &[Step], step: &Step) -> Moved
        requires { (q : Question) × HasPlayed self.now q before.now }
        ensures { result ≡ moved before.now step.now }
    {
        match self {
            Player::Once(machine) => machine.moved(before, step),
            Player::Tries(machine) => machine.moved(before, step),
        }
    }

    /// Follows one more step, whether or not it is barred.
    pub(crate) fn feed<L: Ledger>(
        &mut self,
        question: &Question,
        before: &[Step],
        step: &Step,
        steps: &mut Steps<L>,
    )
        requires question { IsQuestion question.now }
        requires played { HasPlayed self.old question.now before.now }
        requires fits { is_misfit (played_behaviour self.old) question.now step.now ≡ false }
        requires few { length before.now < 2 ^ 32 - 1 }
        ensures played { HasPlayed self.new question.now (before.now ++ step.now ∷ []) }
        ensures behaviour { played_behaviour self.new ≡ played_behaviour self.old }
        ensures count { steps.new ≤ steps.old + 1 }
        ensures save { is_save step.now ≡ true → steps.new ≡ steps.old }
    {
        match self {
            Player::Once(machine) => machine.feed(question, before, step, steps),
            Player::Tries(machine) => machine.feed(question, before, step, steps),
        }
    }

    /// A player that has followed all these steps, none of which is asked about.
    pub(crate) fn after<L: Ledger>(
        behaviour: Behaviour,
        question: &Question,
        taken: &[Step],
        steps: &mut Steps<L>,
    ) -> Player
        requires question { IsQuestion question.now }
        requires fits { has_misfit behaviour question.now taken.now ≡ false }
        requires few { length taken.now < 2 ^ 32 - 1 }
        ensures behaviour { played_behaviour result ≡ behaviour }
        ensures played { HasPlayed result question.now taken.now }
        ensures count { steps.new ≤ steps.old + length taken.now }
    {
        let mut player = Player::start(behaviour);
        for (place, step) in taken.iter().enumerate() {
            player.feed(question, &taken[..place], step, steps);
        }
        player
    }
}
