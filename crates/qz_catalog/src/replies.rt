//! What is said of a record.

ghost use Rattle.std.specs.Prelude.{◌≡◌, ◌+◌, ◌≤◌, length, take, slice_get, true, Some, IfOk};
ghost use Rattle.qz_terms.specs.declared.record.Record.{Record};
ghost use Rattle.qz_terms.specs.declared.reply.Reply.TheVariants as reply;
ghost use Rattle.qz_terms.specs.Answer.{said};
ghost use Rattle.qz_terms.specs.Catalog.{first_entry};
ghost use Rattle.qz_terms.specs.Catalog as catalog;
ghost use Rattle.qz_terms.specs.CatalogAnswer.{looked_in_by};
ghost use Rattle.qz_catalog.specs.Applying.{IsAskedAt, IsShort};
ghost use Rattle.qz_catalog.specs.Holdings.{IsBook, IsIndexed, IsShownBy};
ghost use Rattle.qz_catalog.specs.Shown.{done_with, is_showable};

use crate::book::Book;
use crate::planning::latest_in;
use crate::quizzes::slot_count;
use qz_grading::Bank;
use qz_terms::{Done, Event, Reply, Request};
use qz_text::{NoMemory, TryCopy};
use std::alloc::Global;

/// The number of the first entry that the last import made, or 0 where it made none.
fn first_entry(book: &Book, gift: &Bank) -> u32
    requires indexed { IsIndexed book.now }
    requires few { length (catalog.entries book.now.records.items) ≤ 20000 }
    requires made { length (gift.now).items ≤ length (catalog.entries book.now.records.items) }
    ensures { result ≡ first_entry book.now.records.items gift.now }
{
    let count = gift.items.as_slice().len();
    if count == 0 {
        return 0;
    }
    (book.roster.counts.entries() - count) as u32 + 1
}

/// The number that the reply shows to a request whose record stands last, or 0 where it shows none.
pub(crate) fn number_of(book: &Book, request: &Request) -> u32
    requires indexed { IsIndexed book.now }
    requires short { IsShort book.now.records.items request.now }
    ensures { IsShownBy book.now.records.items request.now result }
{
    match request {
        Request::User { .. } => book.roster.people.count() as u32,
        Request::Group { .. } => book.roster.counts.groups() as u32,
        Request::Import { gift } => first_entry(book, gift),
        Request::Edit { entry, .. } | Request::Tune { entry, .. } => {
            latest_in(&book.entries, *entry)
        }
        Request::Quiz { .. } => book.roster.quizzes.count() as u32,
        Request::Slot { quiz, .. } => slot_count(book, *quiz) as u32,
        Request::Regrade { .. } => book.roster.counts.jobs() as u32,
        _ => 0,
    }
}

/// What was done by a request that was accepted, whose reply shows this number.
fn done_with(request: &Request, number: u32) -> Done
    requires { is_showable request.now number ≡ true }
    ensures { result ≡ done_with request.now number }
{
    match request {
        Request::User { .. } | Request::Group { .. } | Request::Quiz { .. } => {
            Done::Made { number }
        }
        Request::Import { gift } => Done::Imported {
            first: number,
            count: gift.items.as_slice().len() as u32,
        },
        Request::Edit { entry, .. } | Request::Tune { entry, .. } => Done::Version {
            entry: *entry,
            version: number,
        },
        Request::Slot { .. } => Done::Slot {
            number: number as u16,
        },
        Request::Regrade { .. } => Done::Job { number },
        _ => Done::Done,
    }
}

/// The accepted reply for the record at this place, from 0, which a request made.
pub(crate) fn said(book: &Book, at: usize) -> Reply
    requires book { IsBook book.now }
    requires asked { IsAskedAt book.now.records.items at }
    ensures { (r : Record) → slice_get book.now.records.items at ≡ Some r → result ≡ said (take (at + 1) book.now.records.items) r }
{
    match &book.records[at].event {
        Event::Asked { request } => Reply::Ok {
            place: at as u64 + 1,
            done: done_with(request, book.shown[at]),
        },
        _ => unreachable!(),
    }
}

/// What a request looks at.
fn looked(alloc: Global, book: &Book, request: &Request) -> Result<Done, NoMemory>
    requires { IsIndexed book.now }
    ensures { IfOk result (λ done. done ≡ looked_in_by book.now.records.items request.now) }
{
    let Request::Bank { entry, version } = request else {
        return Ok(Done::Jobs {
            count: book.roster.counts.jobs() as u32,
        });
    };
    match book.entries.version(*entry, *version) {
        Some(question) => Ok(Done::Gift {
            question: question.try_copy(alloc)?,
        }),
        None => Ok(Done::Idle),
    }
}

/// The reply to a request that only looks.
pub(crate) fn look(alloc: Global, book: &Book, request: &Request) -> Result<Reply, NoMemory>
    requires { IsIndexed book.now }
    ensures { IfOk result (λ told. told ≡ reply.Ok (length book.now.records.items) (looked_in_by book.now.records.items request.now)) }
{
    Ok(Reply::Ok {
        place: book.records.len() as u64,
        done: looked(alloc, book, request)?,
    })
}
