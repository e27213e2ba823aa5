//! What a request comes to: the event that it makes, or the first cause for which it is refused.

ghost use Rattle.std.specs.Prelude.{◌≡◌, ◌-◌, ◌<◌, length, Some, None, IfOk};
ghost use Rattle.qz_terms.specs.Access.{settled_by};
ghost use Rattle.qz_terms.specs.declared.request.Request.TheVariants as request;
ghost use Rattle.qz_book.specs.Held.{IsSound};
ghost use Rattle.qz_shard.specs.Decisions.{IsFate};

use crate::starting::started;
use qz_book::Book;
use qz_grading::{AttemptId, Refusal};
use qz_legal::{finish_time, is_overdue, settled_by, start_cause};
use qz_terms::{Event, How, Plan, User};
use qz_text::NoMemory;
use std::alloc::Global;

/// The event of a request, none where there is nothing to do, or why it is refused.
pub(crate) type Fate = Result<Option<Event>, Refusal>;

/// What a start comes to.
pub(crate) fn fate_of_start(
    alloc: Global,
    book: &Book,
    moment: u64,
    user: &User,
    plan: &Plan,
    quiz: u32,
) -> Result<Fate, NoMemory>
    requires sound { IsSound book.now }
    requires whole { length plan.now.questions ≡ length plan.now.slots }
    ensures { IfOk result (IsFate book.now moment user.now plan.now (request.Start quiz)) }
{
    let settings = &plan.settings;
    if let Some(refusal) = start_cause(book, settings, plan.ready, moment, user.number, quiz) {
        return Ok(Err(refusal));
    }
    Ok(Ok(Some(started(alloc, book, user, plan)?)))
}

/// What a finish comes to.
pub(crate) fn fate_of_finish(
    book: &Book,
    moment: u64,
    user: &User,
    plan: &Plan,
    attempt: AttemptId,
) -> Fate
    requires sound { IsSound book.now }
    ensures { IsFate book.now moment user.now plan.now (request.Finish attempt) result }
{
    match finish_time(book, &plan.settings, moment, attempt) {
        Some(refusal) => Err(refusal),
        None => Ok(Some(Event::Ended {
            attempt,
            how: How::Finished,
        })),
    }
}

/// What a settling comes to: an attempt that goes on and is expired ends, and any other stays as it is.
pub(crate) fn fate_of_settle(
    book: &Book,
    moment: u64,
    user: &User,
    plan: &Plan,
    attempt: AttemptId,
) -> Fate
    requires sound { IsSound book.now }
    ensures { IsFate book.now moment user.now plan.now (request.Settle attempt) result }
{
    if !is_overdue(book, moment, &plan.settings, attempt) {
        return Ok(None);
    }
    Ok(Some(Event::Ended {
        attempt,
        how: settled_by(plan.settings.handling),
    }))
}
