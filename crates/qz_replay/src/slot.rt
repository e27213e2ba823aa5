//! The slot that a replay is about.

use qz_decimal::Mark;
use qz_grading::{Behaviour, Question};

/// A slot: the behaviour that is preferred, its max mark (in 10^-7) and its question.
#[derive(Drop)]
pub struct Slot {
    pub behaviour: Behaviour,
    pub max: Mark,
    pub question: Question,
}

/// A newer version as a line spells it: its max mark (in 10^-7) and its question.
#[derive(Drop)]
pub struct Version {
    pub max: Mark,
    pub question: Question,
}
