//! What a look at a slot or at an attempt is shown.

ghost use Rattle.std.specs.Prelude.{◌≡◌, true, is_some};
ghost use Rattle.qz_grading.specs.Steps.{is_answering};
ghost use Rattle.qz_terms.specs.Answer.{answering_steps, due_now, status_by, version_now, viewed};
ghost use Rattle.qz_terms.specs.Cause.{sees_marks};
ghost use Rattle.qz_terms.specs.History as history;
ghost use Rattle.qz_terms.specs.Lists.{how_many};
ghost use Rattle.qz_terms.specs.Review.{shown_value};
ghost use Rattle.qz_terms.specs.declared.reply.Done.TheVariants as done;
ghost use Rattle.qz_book.specs.Held.{IsSound};

use crate::review::{shown_mark, shown_state, shows_marks};
use qz_access::due;
use qz_book::{Book, slot_there};
use qz_grading::{AttemptId, Step};
use qz_terms::{Done, How, Plan, Settings, Status, User, is_student};

/// Whether a user is shown the marks of an attempt. To a student own marks are shown as the settings say, to all others always.
pub fn sees_marks(
    book: &Book,
    settings: &Settings,
    user: &User,
    attempt: AttemptId,
    moment: u64,
) -> bool
    ensures { result ≡ sees_marks book.now settings.now user.now attempt moment }
{
    !is_student(user) || shows_marks(settings, book.is_ended(attempt), moment)
}

/// How many of these steps are a Save, a Submit or an Again.
fn answering(steps: &[Step]) -> usize
    ensures { result ≡ how_many is_answering steps.now }
{
    steps.iter().filter(|step| step.is_answering()).count()
}

/// How many Save, Submit and Again steps a slot has.
fn answering_steps(book: &Book, attempt: AttemptId, slot: u16) -> u32
    requires { is_some (history.slot book.now attempt slot) ≡ true }
    ensures { result ≡ answering_steps book.now attempt slot }
{
    answering(slot_there(book, attempt, slot).run.steps()) as u32
}

/// The version of a slot's question that is bound now, and 0 where there is no such slot.
fn version_now(book: &Book, attempt: AttemptId, slot: u16) -> u32
    ensures { result ≡ version_now book.now attempt slot }
{
    match book.bound(attempt, slot) {
        Some(bound) => bound.version,
        None => 0,
    }
}

/// A slot as it is shown: its state, its mark, the version bound, and how many Save, Submit and Again steps it has.
pub fn viewed(book: &Book, visible: bool, attempt: AttemptId, slot: u16) -> Done
    requires { is_some (history.slot book.now attempt slot) ≡ true }
    ensures { result ≡ viewed book.now visible attempt slot }
{
    let (state, mark) = book.standing(attempt, slot);
    Done::SlotView {
        state: shown_state(visible, state),
        mark: shown_mark(visible, mark),
        version: version_now(book, attempt, slot),
        steps: answering_steps(book, attempt, slot),
    }
}

/// Whether an attempt goes on, or how it ended.
fn status_by(ended: Option<How>) -> Status
    ensures { result ≡ status_by ended }
{
    match ended {
        None => Status::Live,
        Some(How::Finished) => Status::Finished,
        Some(How::Abandoned) => Status::Abandoned,
    }
}

/// When an attempt is due under a plan, if it is there and ever due.
pub(crate) fn due_now(book: &Book, plan: &Plan, attempt: AttemptId) -> Option<u64>
    requires sound { IsSound book.now }
    ensures { result ≡ due_now book.now plan.now attempt }
{
    let begun = book.begun(attempt)?;
    due(&plan.settings, begun.moment)
}

/// An attempt as it is shown: whether it goes on or how it ended, its total, and when it is due.
pub fn standing_of(book: &Book, plan: &Plan, visible: bool, attempt: AttemptId) -> Done
    requires { IsSound book.now }
    ensures { (result ≡ done.Attempt (status_by (history.ended book.now attempt)) (shown_value visible (history.total book.now attempt)) (due_now book.now plan.now attempt)) }
{
    Done::Attempt {
        status: status_by(book.ended(attempt)),
        total: shown_mark(visible, book.total(attempt)),
        due: due_now(book, plan, attempt),
    }
}
