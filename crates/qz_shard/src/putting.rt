//! How a record is made and put at the end of the list.

ghost use Rattle.std.specs.Prelude.{◌≡◌, Some, IfOk, slice_get};
ghost use Rattle.qz_index.specs.Keys.{AreKeys};
ghost use Rattle.qz_terms.specs.Answer.{moment_of, said};
ghost use Rattle.qz_terms.specs.declared.record.Record.{Record};
ghost use Rattle.qz_shard.specs.Untold.{IsUntold};
ghost use Rattle.qz_shard.specs.Puts.{record_by};

use qz_book::Book;
use qz_index::Keys;
use qz_looks::said;
use qz_terms::{Ask, Event, Plan, Record, Reply, Request, Terms, User, copy_of_text, named_user};
use qz_text::NoMemory;
use std::alloc::Global;

/// The moment of a request: the clock's, but not before the last record of the user that it is about.
pub(crate) fn moment_of(book: &Book, now: u64, user: &User, request: &Request) -> u64
    ensures { result ≡ moment_of book.now now user.now request.now }
{
    book.time(named_user(user, request), now)
}

/// The record of an event that a request makes.
pub(crate) fn record_of(
    alloc: Global,
    moment: u64,
    user: &User,
    plan: &Plan,
    ask: &Ask,
    event: Event,
) -> Result<Record, NoMemory>
    ensures { IfOk result (λ r. r ≡ record_by moment user.now plan.now ask.now event) }
{
    Ok(Record {
        moment,
        caller: user.number,
        owner: named_user(user, &ask.request),
        key: copy_of_text(&ask.key, alloc)?,
        terms: Some(Terms {
            at: plan.at,
            settings: plan.settings,
        }),
        event,
    })
}

/// Keeps what is said of the last record, which stands at this place from 0, with its key, and gives it. It takes no memory.
pub(crate) fn tell(book: &Book, keys: &mut Keys, place: usize) -> Reply
    requires { IsUntold keys.old book.now place }
    ensures said { (made : Record) → slice_get book.now place ≡ Some made → result ≡ said book.now made }
    ensures keys { AreKeys keys.new book.now }
{
    let records = book.as_slice();
    let made = &records[place];
    keys.put(&records[..place], made, said(book, made));
    said(book, made)
}
