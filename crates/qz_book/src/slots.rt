//! The slots of an attempt.

ghost use Rattle.std.specs.Prelude.{◌≡◌, true, is_some, option_copied, Some, All, IfSome};
ghost use Rattle.qz_terms.specs.History as history;
ghost use Rattle.qz_grading.specs.Grading.{is_place};
ghost use Rattle.qz_grading.specs.Questions.{IsQuestion};
ghost use Rattle.qz_terms.specs.Answer.{max_now};
ghost use Rattle.qz_terms.specs.History.{question, slot_count};
ghost use Rattle.qz_terms.specs.Kept.{IsKept};
ghost use Rattle.qz_lives.specs.Attempts.{slot_of};
ghost use Rattle.qz_usage.specs.Runs.{IsBound};
ghost use Rattle.qz_book.specs.Plays.{IsMove, IsSlot};

use crate::book::{Book, Played};
use qz_decimal::Mark;
use qz_grading::{AttemptId, Moved, Question, Refusal, Step};

/// Whether an attempt has a slot with this number, from 1.
pub fn has_slot(book: &Book, attempt: AttemptId, slot: u16) -> bool
    ensures { result ≡ is_place (slot_count book.now attempt) slot }
{
    slot >= 1 && usize::from(slot) <= book.slot_count(attempt)
}

/// The max mark (in 10^-7) that is bound to a slot now, and 0 where there is no such slot.
pub fn max_now(book: &Book, attempt: AttemptId, slot: u16) -> Mark
    ensures { result ≡ max_now book.now attempt slot }
{
    match book.bound(attempt, slot) {
        Some(bound) => bound.max,
        None => Mark(0),
    }
}

/// A slot of an attempt that is there.
pub fn slot_there(book: &Book, attempt: AttemptId, place: u16) -> Played<'_>
    requires { is_some (history.slot book.now attempt place) ≡ true }
    ensures { IsSlot (Some result) (history.slot book.now attempt place) }
{
    match book.slot(attempt, place) {
        Some(played) => played,
        None => unreachable!(),
    }
}

/// What a step on a slot comes to: it is taken or the same as before, or it is refused for its first cause. Nothing is graded.
pub fn step_on(played: Played<'_>, step: &Step) -> Result<Moved, Refusal>
    requires question { IsBound played.run.now played.question.now }
    ensures { IsMove (slot_of played.entry.run.now played.entry.question.now) step.now result }
{
    match played.run.cause(played.question, step) {
        Some(refusal) => Err(refusal),
        None => Ok(played.run.moved(step)),
    }
}

/// The question that is bound to a slot of an attempt now.
pub fn question_of(book: &Book, attempt: AttemptId, slot: u16) -> Option<&Question>
    ensures value { option_copied result ≡ question book.now attempt slot }
    ensures kept { All IsKept book.now → IfSome result (λ q. IsQuestion q.now) }
{
    let bound = book.bound(attempt, slot)?;
    book.version(bound.entry, bound.version)
}
