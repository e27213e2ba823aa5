//! How a slot behaves, and what comes of its steps.

ghost use Rattle.std.specs.Prelude.{◌≡◌};
ghost use Rattle.qz_grading.specs.Grading.{asks_certainty};
ghost use Rattle.qz_grading.specs.Behaviours.{graded};

use qz_decimal::{Fraction, Tone, tone_of};

/// How a slot reacts to its steps. Moodle's developer page "Question behaviours" describes each.
#[derive(Clone, Copy, Debug, PartialEq, Eq)]
pub enum Behaviour {
    Deferred,
    Immediate,
    Interactive,
    Adaptive,
    AdaptiveNoPenalty,
    /// Deferred feedback with certainty-based marking.
    DeferredCbm,
    /// Immediate feedback with certainty-based marking.
    ImmediateCbm,
    /// Marked by a teacher: each essay.
    Manual,
    /// Nothing to answer: each description.
    Information,
}

impl Behaviour {
    /// Whether a student says how certain an answer is.
    pub fn asks_certainty(self) -> bool
        ensures { result ≡ asks_certainty self }
    {
        matches!(self, Behaviour::DeferredCbm | Behaviour::ImmediateCbm)
    }
}

/// What is shown of a slot. Moodle's developer page "Question engine" lists the states.
#[derive(Clone, Copy, Debug, PartialEq, Eq)]
pub enum State {
    Todo,
    Complete,
    Invalid,
    NeedsGrading,
    Finished,
    GaveUp,
    GradedWrong,
    GradedPartial,
    GradedRight,
    MangrWrong,
    MangrPartial,
    MangrRight,
}

impl State {
    /// The state of a response that was graded, by its fraction (in 10^-7): wrong below 0.000001, right above 0.999999.
    pub fn graded(fraction: Fraction) -> State
        ensures { result ≡ graded fraction }
    {
        match tone_of(fraction) {
            Tone::Wrong => State::GradedWrong,
            Tone::Partial => State::GradedPartial,
            Tone::Right => State::GradedRight,
        }
    }
}

/// Whether a step was kept, or was the same as the one before and added nothing.
#[derive(Clone, Copy, Debug, PartialEq, Eq)]
pub enum Moved {
    Kept,
    Same,
}

/// What comes of the steps of a slot: its state, the fraction earned (in 10^-7; none before there is a grade),
/// whether it has ended, whether "try again" is needed, and how many tries there were.
#[derive(Clone, Copy, PartialEq, Eq)]
pub struct Outcome {
    pub state: State,
    pub fraction: Option<Fraction>,
    pub ended: bool,
    pub needs_again: bool,
    pub tries: u32,
}
