//! A catalogue that is read from payloads.

ghost use Rattle.std.specs.Prelude.{◌≡◌, ◌∷◌, IfErr, IfOk, IfSome, option_map};
ghost use Rattle.qz_catalog.specs.declared.book.Book.{Book};
ghost use Rattle.qz_catalog.specs.Holdings.{IsBook};
ghost use Rattle.qz_catalog.specs.Loads.{IsBegun, IsListFault, IsLoaded, IsRead, IsTaken};

use crate::adopting::{adopt, begin};
use crate::book::Book;
use crate::legal::{can_begin, is_allowed};
use qz_record::{ListFault, RecordFault, parse};
use qz_text::{Bytes, NoMemory};
use std::alloc::Global;

/// Takes the record that a payload spells, where it may stand at the end.
fn take(alloc: Global, book: &mut Book, payload: &[u8]) -> Result<bool, NoMemory>
    requires { IsBook book.old }
    ensures taken { IfOk result (IsTaken book.old.records.items book.new.records.items payload.now) }
    ensures book { IsBook book.new }
{
    let made = match parse(alloc, payload) {
        Ok(made) => made,
        Err(RecordFault::NotOne) => return Ok(false),
        Err(RecordFault::Memory) => return Err(NoMemory),
    };
    if !is_allowed(alloc, book, &made)? {
        return Ok(false);
    }
    adopt(alloc, book, made)?;
    Ok(true)
}

/// The book of the record that a payload spells, where it may stand first.
fn first(alloc: Global, payload: &[u8]) -> Result<Option<Book>, NoMemory>
    ensures { IfOk result (IsBegun payload.now) }
{
    let made = match parse(alloc, payload) {
        Ok(made) => made,
        Err(RecordFault::NotOne) => return Ok(None),
        Err(RecordFault::Memory) => return Err(NoMemory),
    };
    if !can_begin(&made) {
        return Ok(None);
    }
    Ok(Some(begin(alloc, made)?))
}

/// The book whose records these payloads spell, in order, of which there is a first.
fn book_of(alloc: Global, payload: &[u8], others: &[Bytes]) -> Result<Book, ListFault>
    ensures loaded { IfOk result (λ book. IsLoaded (payload.now ∷ others.now) book.records.items) }
    ensures book { IfOk result IsBook }
    ensures illegal { IfErr result (IsListFault (payload.now ∷ others.now)) }
{
    let Some(mut book) = first(alloc, payload)? else {
        return Err(ListFault::Illegal { nth: 1 });
    };
    for (place, other) in others.iter().enumerate() {
        if !take(alloc, &mut book, other.as_slice())? {
            return Err(ListFault::Illegal {
                nth: place as u64 + 2,
            });
        }
    }
    Ok(book)
}

/// The book whose records these payloads spell, in order, if there are any.
///
/// `Illegal` names the first payload, from 1, that spells no record that may stand behind those before it.
pub(crate) fn load(alloc: Global, payloads: &[Bytes]) -> Result<Option<Book>, ListFault>
    ensures loaded { IfOk result (λ o. IsRead payloads.now (option_map (λ (b : Book). b.records.items) o)) }
    ensures book { IfOk result (λ o. IfSome o IsBook) }
    ensures illegal { IfErr result (IsListFault payloads.now) }
{
    let [payload, others @ ..] = payloads else {
        return Ok(None);
    };
    Ok(Some(book_of(alloc, payload.as_slice(), others)?))
}
