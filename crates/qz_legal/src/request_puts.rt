//! Whether a request may have put a record: a user and a request are read off the record, and its terms tell the plan.

ghost use Rattle.std.specs.Prelude.{◌≡◌, Some, None, if◌then◌else◌};
ghost use Rattle.qz_grading.specs.Behaviours.{moved};
ghost use Rattle.qz_terms.specs.History.{steps};
ghost use Rattle.qz_legal.specs.Allowed.{answer_moves, can_act, can_end, can_finish, can_mark, can_note, can_put, can_settle, can_start, has_asker, is_own, same_how, takes};
ghost use Rattle.qz_book.specs.Held.{IsSound};

use crate::attempts::is_overdue;
use crate::times::{answer_time, finish_time, settled_by, start_cause};
use qz_book::{Book, has_slot, max_now, slot_there, step_on};
use qz_decimal::Mark;
use qz_grading::{AttemptId, Moved, Step};
use qz_terms::{Event, How, Record, Settings};

/// Whether a user asked, with a key.
fn has_asker(made: &Record) -> bool
    ensures { result ≡ has_asker made.now }
{
    made.caller != 0 && made.key.is_some()
}

/// Whether this user asked, with a key.
fn is_own(made: &Record, user: u32) -> bool
    ensures { result ≡ is_own made.now user }
{
    made.caller == user && has_asker(made)
}

/// Whether a start may have put a record: the owner's next attempt, for which nothing refused it.
fn can_start(book: &Book, made: &Record, settings: &Settings, quiz: u32, nth: u32) -> bool
    requires sound { IsSound book.now }
    ensures { result ≡ can_start book.now made.now settings.now quiz nth }
{
    is_own(made, made.owner)
        && nth == book.next_number(made.owner)
        && start_cause(book, settings, true, made.moment, made.owner, quiz).is_none()
}

/// What a step is to a slot that is there and takes it.
fn taken(book: &Book, attempt: AttemptId, slot: u16, step: &Step) -> Option<Moved>
    requires sound { IsSound book.now }
    ensures { result ≡ (if takes book.now attempt slot step.now then Some (moved (steps book.now attempt slot) step.now) else None) }
{
    if !has_slot(book, attempt, slot) {
        return None;
    }
    step_on(slot_there(book, attempt, slot), step).ok()
}

/// What a student's answer in an own attempt is to its slot, where nothing refuses it.
fn answer_moves(
    book: &Book,
    made: &Record,
    settings: &Settings,
    attempt: AttemptId,
    slot: u16,
    step: &Step,
) -> Option<Moved>
    requires sound { IsSound book.now }
    ensures { result ≡ answer_moves book.now made.now settings.now attempt slot step.now }
{
    if !is_own(made, attempt.user) || answer_time(book, settings, made.moment, attempt).is_some() {
        return None;
    }
    taken(book, attempt, slot, step)
}

/// Whether a teacher's mark may have put a record: with the max mark (in 10^-7) that is bound now, on a slot that takes it.
fn can_mark(
    book: &Book,
    made: &Record,
    attempt: AttemptId,
    slot: u16,
    mark: Mark,
    max: Mark,
) -> bool
    requires sound { IsSound book.now }
    ensures { result ≡ can_mark book.now made.now attempt slot mark max }
{
    has_asker(made)
        && max == max_now(book, attempt, slot)
        && taken(book, attempt, slot, &Step::Mark { mark, max }).is_some()
}

/// Whether a request may have put a step that was taken.
fn can_act(
    book: &Book,
    made: &Record,
    settings: &Settings,
    attempt: AttemptId,
    slot: u16,
    step: &Step,
) -> bool
    requires sound { IsSound book.now }
    ensures { result ≡ can_act book.now made.now settings.now attempt slot step.now }
{
    match step {
        Step::Save(_) | Step::Submit(_) => {
            match answer_moves(book, made, settings, attempt, slot, step) {
                Some(Moved::Kept) => true,
                Some(Moved::Same) | None => false,
            }
        }
        Step::Again => answer_moves(book, made, settings, attempt, slot, step).is_some(),
        Step::Mark { mark, max } => can_mark(book, made, attempt, slot, *mark, *max),
        Step::Finish => false,
    }
}

/// Whether a request may have put a step that was the same as before.
fn can_note(
    book: &Book,
    made: &Record,
    settings: &Settings,
    attempt: AttemptId,
    slot: u16,
    step: &Step,
) -> bool
    requires sound { IsSound book.now }
    ensures { result ≡ can_note book.now made.now settings.now attempt slot step.now }
{
    match step {
        Step::Save(_) | Step::Submit(_) => {
            match answer_moves(book, made, settings, attempt, slot, step) {
                Some(Moved::Same) => true,
                Some(Moved::Kept) | None => false,
            }
        }
        Step::Again | Step::Mark { .. } | Step::Finish => false,
    }
}

/// Whether an attempt ended so and so.
fn same_how(one: How, other: How) -> bool
    ensures { result ≡ same_how one other }
{
    one == other
}

/// Whether a student's finish of an own attempt may have put a record.
fn can_finish(book: &Book, made: &Record, settings: &Settings, attempt: AttemptId, how: How) -> bool
    requires sound { IsSound book.now }
    ensures { result ≡ can_finish book.now made.now settings.now attempt how }
{
    is_own(made, attempt.user)
        && same_how(how, How::Finished)
        && book.begun(attempt).is_some()
        && finish_time(book, settings, made.moment, attempt).is_none()
}

/// Whether a settling may have ended an attempt so: it went on and was expired.
fn can_settle(book: &Book, settings: &Settings, moment: u64, attempt: AttemptId, how: How) -> bool
    requires sound { IsSound book.now }
    ensures { result ≡ can_settle book.now settings.now moment attempt how }
{
    is_overdue(book, moment, settings, attempt) && same_how(how, settled_by(settings.handling))
}

/// Whether a request may have ended an attempt so. A finish has a key, and a settling has none.
fn can_end(book: &Book, made: &Record, settings: &Settings, attempt: AttemptId, how: How) -> bool
    requires sound { IsSound book.now }
    ensures { result ≡ can_end book.now made.now settings.now attempt how }
{
    match &made.key {
        Some(_) => can_finish(book, made, settings, attempt, how),
        None => can_settle(book, settings, made.moment, attempt, how),
    }
}

/// Whether a request may have put a record behind the list, under the record's own terms.
pub(crate) fn can_put(book: &Book, made: &Record) -> bool
    requires sound { IsSound book.now }
    ensures { result ≡ can_put book.now made.now }
{
    let Some(terms) = &made.terms else {
        return false;
    };
    let settings = &terms.settings;
    match &made.event {
        Event::Started { quiz, nth, .. } => can_start(book, made, settings, *quiz, *nth),
        Event::Acted {
            attempt,
            slot,
            step,
        } => can_act(book, made, settings, *attempt, *slot, step),
        Event::Noted {
            attempt,
            slot,
            step,
        } => can_note(book, made, settings, *attempt, *slot, step),
        Event::Ended { attempt, how } => can_end(book, made, settings, *attempt, *how),
        Event::Founded { .. }
        | Event::Asked { .. }
        | Event::Rebound { .. }
        | Event::Skipped { .. }
        | Event::JobDone { .. } => false,
    }
}
