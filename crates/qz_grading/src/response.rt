//! Answers, responses and the steps of a slot.

ghost use Rattle.std.specs.Prelude.{◌≡◌, IfOk};

use qz_decimal::Mark;
use qz_text::{Listed, NoMemory, TryCopy, Typed};
use std::alloc::Global;

/// What a student answered.
#[derive(Drop)]
pub enum Answer {
    /// Nothing. It fits every kind but a description.
    Blank,
    /// The place of one choice, from 1; for true-false 1 is true and 2 is false.
    Pick(u8),
    /// The places of several choices, ascending, from 1.
    Picks(Listed<u8>),
    /// For each stem the place of an answer, from 1, or 0 where none is chosen.
    Match(Listed<u8>),
    /// A typed text.
    Words(Typed),
}

/// An answer and how certain the student is of it: 0 (not given) to 3.
#[derive(Drop)]
pub struct Response {
    pub answer: Answer,
    pub certainty: u8,
}

/// One step of a slot.
#[derive(Drop)]
pub enum Step {
    /// A response is kept.
    Save(Response),
    /// A response is handed in for a try.
    Submit(Response),
    /// The student goes on after a try.
    Again,
    /// The attempt ends.
    Finish,
    /// A teacher gives a mark, out of the max mark that was bound at that moment. Both in 10^-7.
    Mark { mark: Mark, max: Mark },
}

impl TryCopy for Answer {
    fn try_copy(&self, alloc: Global) -> Result<Answer, NoMemory> {
        match self {
            Answer::Blank => Ok(Answer::Blank),
            Answer::Pick(choice) => Ok(Answer::Pick(*choice)),
            Answer::Picks(choices) => Ok(Answer::Picks(choices.try_copy(alloc)?)),
            Answer::Match(answers) => Ok(Answer::Match(answers.try_copy(alloc)?)),
            Answer::Words(typed) => Ok(Answer::Words(typed.try_copy(alloc)?)),
        }
    }
}

impl TryCopy for Response {
    fn try_copy(&self, alloc: Global) -> Result<Response, NoMemory> {
        Ok(Response {
            answer: self.answer.try_copy(alloc)?,
            certainty: self.certainty,
        })
    }
}

impl TryCopy for Step {
    fn try_copy(&self, alloc: Global) -> Result<Step, NoMemory> {
        match self {
            Step::Save(response) => Ok(Step::Save(response.try_copy(alloc)?)),
            Step::Submit(response) => Ok(Step::Submit(response.try_copy(alloc)?)),
            Step::Again => Ok(Step::Again),
            Step::Finish => Ok(Step::Finish),
            Step::Mark { mark, max } => Ok(Step::Mark {
                mark: *mark,
                max: *max,
            }),
        }
    }
}
