//! What is said of a record.

ghost use Rattle.std.specs.Prelude.{◌≡◌, true};
ghost use Rattle.qz_terms.specs.Answer.{due_by, ended_reply, is_visible, reply_by, said, shown_mark_in, shown_state_in};
ghost use Rattle.qz_terms.specs.Cause.{said_at};
ghost use Rattle.qz_terms.specs.Kept.{IsKept};
ghost use Rattle.qz_book.specs.Held.{is_asked};

use crate::review::{shown_mark, shown_state, shows_marks};
use qz_access::due;
use qz_book::Book;
use qz_decimal::Mark;
use qz_grading::{AttemptId, State, Step};
use qz_terms::{Done, Event, How, Record, Reply, Shown};

/// Whether marks are shown in the reply for a record: they are hidden from the student alone, as the record's own settings say.
fn is_visible(book: &Book, record: &Record, attempt: AttemptId) -> bool
    ensures { result ≡ is_visible book.now «record».now attempt }
{
    if record.caller != record.owner {
        return true;
    }
    match &record.terms {
        Some(terms) => shows_marks(&terms.settings, book.is_ended(attempt), record.moment),
        None => true,
    }
}

/// The state and the mark of a slot, as the reply for a record shows them.
fn shown(book: &Book, record: &Record, attempt: AttemptId, slot: u16) -> (State, Shown<Mark>)
    ensures state { result.0 ≡ shown_state_in book.now «record».now attempt slot }
    ensures mark { result.1 ≡ shown_mark_in book.now «record».now attempt slot }
{
    let visible = is_visible(book, record, attempt);
    let (state, mark) = book.standing(attempt, slot);
    (shown_state(visible, state), shown_mark(visible, mark))
}

/// When an attempt is due that a record starts.
fn due_by(record: &Record) -> Option<u64>
    requires { IsKept «record».now }
    ensures { result ≡ due_by («record».now).terms («record».now).moment }
{
    match &record.terms {
        Some(terms) => due(&terms.settings, record.moment),
        None => None,
    }
}

/// What is said of the end of an attempt. A finish is asked with a key, and a settling is not.
fn ended_reply(book: &Book, record: &Record, attempt: AttemptId, how: How) -> Done
    ensures { result ≡ ended_reply book.now «record».now attempt how («record».now).key }
{
    if record.key.is_none() {
        return Done::Settled { attempt, how };
    }
    let visible = is_visible(book, record, attempt);
    Done::Finished {
        total: shown_mark(visible, book.total(attempt)),
    }
}

/// What was done by a record that a request put.
fn reply_by(book: &Book, record: &Record) -> Done
    requires kept { IsKept «record».now }
    requires asked { is_asked «record».now ≡ true }
    ensures { result ≡ reply_by book.now «record».now («record».now).event }
{
    match &record.event {
        Event::Started { nth, bounds, .. } => Done::Started {
            attempt: AttemptId {
                user: record.owner,
                nth: *nth,
            },
            slots: bounds.as_slice().len() as u32,
            due: due_by(record),
        },
        Event::Acted {
            attempt,
            slot,
            step,
        } => {
            let (state, mark) = shown(book, record, *attempt, *slot);
            match step {
                Step::Mark { .. } => Done::Marked { state, mark },
                _ => Done::Stepped { state, mark },
            }
        }
        Event::Noted { attempt, slot, .. } => {
            let (state, mark) = shown(book, record, *attempt, *slot);
            Done::Same { state, mark }
        }
        Event::Ended { attempt, how } => ended_reply(book, record, *attempt, *how),
        Event::Rebound { attempt, slot, .. } => {
            let (state, mark) = shown(book, record, *attempt, *slot);
            Done::Rebound {
                attempt: *attempt,
                slot: *slot,
                state,
                mark,
            }
        }
        Event::Skipped {
            attempt,
            slot,
            bound,
            newer,
            ..
        } => Done::Skipped {
            attempt: *attempt,
            slot: *slot,
            bound: *bound,
            newer: *newer,
        },
        Event::JobDone { job, .. } => Done::JobDone { job: *job },
        Event::Founded { .. } | Event::Asked { .. } => unreachable!(),
    }
}

/// The place that the reply for a record carries, over the list that ends with it.
fn said_at(book: &Book, record: &Record) -> u64
    ensures { result ≡ said_at book.now «record».now }
{
    match &record.event {
        Event::Founded { .. } | Event::Asked { .. } | Event::JobDone { .. } => book.len(),
        _ => book.place(record.owner),
    }
}

/// The accepted reply for a record, over the list that ends with it. It takes no memory, and nothing is graded.
pub fn said(book: &Book, record: &Record) -> Reply
    requires kept { IsKept «record».now }
    requires asked { is_asked «record».now ≡ true }
    ensures { result ≡ said book.now «record».now }
{
    Reply::Ok {
        place: said_at(book, record),
        done: reply_by(book, record),
    }
}
