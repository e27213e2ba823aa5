//! Whether a record that is read may stand behind those of a list. No list is walked: all is told by the record and by what is kept
//! beside the list.

ghost use Rattle.std.specs.Bool.{Decides};
ghost use Rattle.std.specs.List.{list_all};
ghost use Rattle.std.specs.Prelude.{◌≡◌, List, true, IfOk};
ghost use Rattle.qz_index.specs.Keys.{AreKeys};
ghost use Rattle.qz_terms.specs.declared.record.Record.{Record};
ghost use Rattle.qz_terms.specs.Kept.{IsKept};
ghost use Rattle.qz_terms.specs.Legal.{IsAllowed, at_least_floor, bound_at, has_its_owner, has_new_key, is_here};
ghost use Rattle.qz_legal.specs.Allowed.{can_begin, can_stand, can_stand_by};
ghost use Rattle.qz_legal.specs.Beside.{IsAnswering};
ghost use Rattle.qz_book.specs.Cursors.{AreCursors};
ghost use Rattle.qz_book.specs.Held.{IsSound};
ghost use Rattle.qz_book.specs.Held.{is_shard};

use crate::job_puts::{can_close, can_rebind, can_skip};
use crate::new_versions::learns_new;
use crate::request_puts::can_put;
use qz_book::{Book, Cursors};
use qz_index::Keys;
use qz_terms::{Bound, Event, Learned, Record};
use qz_text::NoMemory;
use std::alloc::Global;

/// Whether a user belongs to this shard, of so many.
fn is_here(index: u8, count: u8, user: u32) -> bool
    requires { is_shard index count ≡ true }
    ensures { result ≡ is_here index count user }
{
    user % u32::from(count) == u32::from(index)
}

/// Whether a record's owner is the user of its attempt and belongs to this shard, of so many. A job that is done is nobody's.
fn has_its_owner(index: u8, count: u8, made: &Record) -> bool
    requires { is_shard index count ≡ true }
    ensures { result ≡ has_its_owner index count made.now }
{
    match &made.event {
        Event::Started { .. } => is_here(index, count, made.owner),
        Event::Acted { attempt, .. }
        | Event::Noted { attempt, .. }
        | Event::Ended { attempt, .. }
        | Event::Rebound { attempt, .. }
        | Event::Skipped { attempt, .. } => {
            made.owner == attempt.user && is_here(index, count, attempt.user)
        }
        Event::JobDone { .. } => made.owner == 0,
        Event::Founded { .. } | Event::Asked { .. } => false,
    }
}

/// Whether no record has a record's caller and key.
fn has_new_key(keys: &Keys, made: &Record) -> bool
    ensures { (h : List Record) → AreKeys keys.now h → result ≡ has_new_key h made.now }
{
    match &made.key {
        Some(key) => keys.look(made.caller, key).is_none(),
        None => true,
    }
}

/// Whether a record has terms that are no older than a job of the quiz that is done.
fn is_above_floor(book: &Book, made: &Record, quiz: u32) -> bool
    ensures { result ≡ at_least_floor book.now quiz (made.now).terms }
{
    match &made.terms {
        Some(terms) => book.floor(quiz) <= terms.at,
        None => false,
    }
}

/// Whether all these are bound under a record's terms.
fn are_at_terms(made: &Record, bounds: &[Bound]) -> bool
    ensures { result ≡ list_all (bound_at (made.now).terms) bounds.now }
{
    bounds.iter().all(|bound| match &made.terms {
        Some(terms) => bound.at == terms.at,
        None => false,
    })
}

/// Whether a record may start an attempt of a quiz, with these bounds.
fn can_begin(book: &Book, made: &Record, quiz: u32, bounds: &[Bound], learned: &[Learned]) -> bool
    requires sound { IsSound book.now }
    ensures { result ≡ can_begin book.now made.now quiz bounds.now learned.now }
{
    can_put(book, made)
        && is_above_floor(book, made, quiz)
        && are_at_terms(made, bounds)
        && learns_new(book, bounds, learned)
}

/// Whether what a record says may have happened behind the list.
fn can_stand_by(
    alloc: Global,
    book: &Book,
    cursors: &mut Cursors,
    made: &Record,
) -> Result<bool, NoMemory>
    requires sound { IsSound book.now }
    requires kept { IsKept made.now }
    requires cursors { AreCursors cursors.old book.now }
    ensures allowed { IfOk result (λ b. b ≡ can_stand_by book.now made.now (made.now).event) }
    ensures cursors { AreCursors cursors.new book.now }
{
    match &made.event {
        Event::Started {
            quiz,
            bounds,
            learned,
            ..
        } => Ok(can_begin(book, made, *quiz, bounds.as_slice(), learned.as_slice())),
        Event::Acted { .. } | Event::Noted { .. } | Event::Ended { .. } => Ok(can_put(book, made)),
        Event::Rebound {
            job,
            attempt,
            slot,
            bound,
            learned,
        } => can_rebind(
            alloc,
            book,
            cursors,
            made,
            *job,
            *attempt,
            *slot,
            bound,
            learned.as_slice(),
        ),
        Event::Skipped {
            job,
            attempt,
            slot,
            bound,
            newer,
        } => Ok(can_skip(book, made, *job, *attempt, *slot, *bound, *newer)),
        Event::JobDone {
            job,
            quiz,
            position,
        } => can_close(alloc, book, cursors, made, *job, *quiz, *position),
        Event::Founded { .. } | Event::Asked { .. } => Ok(false),
    }
}

/// Whether a record may stand behind the list: the tests that take no memory come first.
fn can_stand(
    alloc: Global,
    book: &Book,
    keys: &Keys,
    cursors: &mut Cursors,
    index: u8,
    count: u8,
    made: &Record,
) -> Result<bool, NoMemory>
    requires answering { IsAnswering index count book.now keys.now cursors.old }
    requires kept { IsKept made.now }
    ensures allowed { IfOk result (λ b. b ≡ can_stand index count book.now made.now) }
    ensures cursors { AreCursors cursors.new book.now }
{
    if !has_its_owner(index, count, made)
        || book.time(made.owner, made.moment) != made.moment
        || !has_new_key(keys, made)
    {
        return Ok(false);
    }
    can_stand_by(alloc, book, cursors, made)
}

/// Whether a record is allowed behind the list of the shard with this index, of so many: a request or a job of some user under some
/// plan would put it there.
pub fn is_allowed(
    alloc: Global,
    book: &Book,
    keys: &Keys,
    cursors: &mut Cursors,
    index: u8,
    count: u8,
    made: &Record,
) -> Result<bool, NoMemory>
    requires answering { IsAnswering index count book.now keys.now cursors.old }
    requires kept { IsKept made.now }
    ensures allowed { IfOk result (λ b. Decides b (IsAllowed index count book.now made.now)) }
    ensures cursors { AreCursors cursors.new book.now }
{
    can_stand(alloc, book, keys, cursors, index, count, made)
}
