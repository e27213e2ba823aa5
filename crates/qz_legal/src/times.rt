//! The first cause that lies with time or with other attempts for which a request is refused.

ghost use Rattle.std.specs.Prelude.{◌≡◌};
ghost use Rattle.qz_terms.specs.Access.{answer_cause, finish_cause, settled_by};
ghost use Rattle.qz_terms.specs.Cause.{time_cause};
ghost use Rattle.qz_terms.specs.History.{ended_at};
ghost use Rattle.qz_legal.specs.Allowed.{starting_cause};
ghost use Rattle.qz_book.specs.Held.{IsSound};

use crate::attempts::unfinished;
use qz_access::{may_answer, may_finish, may_start};
use qz_book::Book;
use qz_grading::{AttemptId, Refusal};
use qz_terms::{Handling, How, MOST_ATTEMPTS, Settings};

/// The first cause for which a user may not start a quiz.
pub fn start_cause(
    book: &Book,
    settings: &Settings,
    ready: bool,
    moment: u64,
    user: u32,
    quiz: u32,
) -> Option<Refusal>
    requires sound { IsSound book.now }
    ensures { result ≡ starting_cause book.now settings.now ready moment user quiz }
{
    let made = book.attempts(quiz, user);
    let goes_on = unfinished(book, settings, moment, made);
    let count = made.len() as u64;
    if let Err(refusal) = may_start(settings, ready, moment, count, goes_on) {
        return Some(refusal);
    }
    if made.len() >= MOST_ATTEMPTS as usize {
        return Some(Refusal::TooMany {
            limit: MOST_ATTEMPTS,
        });
    }
    None
}

/// The first cause that lies with time for which an answer is refused.
pub fn answer_time(
    book: &Book,
    settings: &Settings,
    moment: u64,
    attempt: AttemptId,
) -> Option<Refusal>
    requires sound { IsSound book.now }
    ensures { result ≡ time_cause (λ began. answer_cause settings.now began moment (ended_at book.now attempt)) book.now attempt }
{
    let begun = book.begun(attempt)?;
    let ended = book.ended_at(attempt);
    may_answer(settings, begun.moment, moment, ended).err()
}

/// The first cause that lies with time for which a finish is refused.
pub fn finish_time(
    book: &Book,
    settings: &Settings,
    moment: u64,
    attempt: AttemptId,
) -> Option<Refusal>
    requires sound { IsSound book.now }
    ensures { result ≡ time_cause (λ began. finish_cause settings.now began moment (ended_at book.now attempt)) book.now attempt }
{
    let begun = book.begun(attempt)?;
    let ended = book.ended_at(attempt);
    may_finish(settings, begun.moment, moment, ended).err()
}

/// How a settling ends an attempt that is expired.
pub fn settled_by(handling: Handling) -> How
    ensures { result ≡ settled_by handling }
{
    match handling {
        Handling::AutoSubmit => How::Finished,
        Handling::GracePeriod | Handling::AutoAbandon => How::Abandoned,
    }
}
