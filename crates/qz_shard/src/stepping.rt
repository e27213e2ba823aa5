//! What a step on a slot comes to.

ghost use Rattle.std.specs.Prelude.{◌≡◌, None};
ghost use Rattle.qz_terms.specs.Cause.{missing_slot, refusal_shown, sees_marks};
ghost use Rattle.qz_terms.specs.declared.request.Request.TheVariants as request;
ghost use Rattle.qz_shard.specs.Decisions.{IsFate};
ghost use Rattle.qz_book.specs.Held.{IsSound};
ghost use Rattle.qz_terms.specs.Answer.{acted_or_noted};
ghost use Rattle.qz_shard.specs.Decisions.{IsStepFate};

use crate::fates::Fate;
use qz_book::{Book, slot_there, step_on};
use qz_decimal::Mark;
use qz_grading::{AttemptId, Moved, Refusal, Step};
use qz_legal::answer_time;
use qz_looks::{sees_marks, shown_state};
use qz_terms::{Event, Plan, User};

/// A refusal as it is shown: the state that it carries tells no mark that is hidden.
fn refusal_shown(visible: bool, refusal: Refusal) -> Refusal
    ensures { result ≡ refusal_shown visible refusal }
{
    match refusal {
        Refusal::SlotEnded { state } => Refusal::SlotEnded {
            state: shown_state(visible, state),
        },
        other => other,
    }
}

/// The event of a step: one that is the same as before is noted.
fn event_of(moved: Moved, attempt: AttemptId, slot: u16, step: Step) -> Event
    ensures { result ≡ acted_or_noted moved attempt slot step }
{
    match moved {
        Moved::Kept => Event::Acted {
            attempt,
            slot,
            step,
        },
        Moved::Same => Event::Noted {
            attempt,
            slot,
            step,
        },
    }
}

/// What a Save, a Submit or an Again comes to.
pub(crate) fn fate_of_step(
    book: &Book,
    moment: u64,
    user: &User,
    plan: &Plan,
    attempt: AttemptId,
    place: u16,
    step: Step,
) -> Fate
    requires sound { IsSound book.now }
    requires there { missing_slot book.now user.now attempt place ≡ None }
    ensures { IsStepFate book.now moment user.now plan.now attempt place step result }
{
    if let Some(refusal) = answer_time(book, &plan.settings, moment, attempt) {
        return Err(refusal);
    }
    let visible = sees_marks(book, &plan.settings, user, attempt, moment);
    let played = slot_there(book, attempt, place);
    match step_on(played, &step) {
        Err(refusal) => Err(refusal_shown(visible, refusal)),
        Ok(moved) => Ok(Some(event_of(moved, attempt, place, step))),
    }
}

/// What a teacher's Mark (in 10^-7) comes to: it is kept with the max mark that is bound now.
pub(crate) fn fate_of_mark(
    book: &Book,
    moment: u64,
    user: &User,
    plan: &Plan,
    attempt: AttemptId,
    place: u16,
    mark: Mark,
) -> Fate
    requires sound { IsSound book.now }
    requires there { missing_slot book.now user.now attempt place ≡ None }
    ensures { IsFate book.now moment user.now plan.now (request.Mark attempt place mark) result }
{
    let visible = sees_marks(book, &plan.settings, user, attempt, moment);
    let played = slot_there(book, attempt, place);
    let step = Step::Mark {
        mark,
        max: played.run.bound().max,
    };
    match step_on(played, &step) {
        Err(refusal) => Err(refusal_shown(visible, refusal)),
        Ok(_) => Ok(Some(Event::Acted {
            attempt,
            slot: place,
            step,
        })),
    }
}
