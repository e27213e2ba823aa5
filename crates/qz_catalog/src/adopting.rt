//! How a record that stands already is put at the end of the list: one that was kept, and is read again.

ghost use Rattle.std.specs.Prelude.{◌≡◌, ◌++◌, ◌∷◌, [], None, Some, true, IfOk, OnErr, OnOk};
ghost use Rattle.qz_terms.specs.declared.request.Request.{Request};
ghost use Rattle.qz_terms.specs.Catalog.{asked};
ghost use Rattle.qz_terms.specs.Kept.{IsKept};
ghost use Rattle.qz_terms.specs.Legal.{IsAllowedInCatalog};
ghost use Rattle.qz_catalog.specs.Applying.{MayPut, bank_cause, bank_told, bank_with};
ghost use Rattle.qz_catalog.specs.Holdings.{IsBook, keeps_described};

use crate::book::Book;
use crate::putting::{append, make_book_room, prepare, put_record};
use qz_bank::{Entries, Prepared};
use qz_disks::KeepErr;
use qz_grading::Refusal;
use qz_keeper::Unrecorded;
use qz_roster::Roster;
use qz_terms::{Event, Record};
use qz_text::NoMemory;
use std::alloc::Global;

/// Prepares what a record changes of the bank, if it does. Nothing stands against it, so only memory may be wanting.
fn prepare_allowed(
    alloc: Global,
    entries: &Entries,
    record: &Record,
) -> Result<Option<Prepared>, NoMemory>
    requires { (x : Request) → asked «record».now ≡ Some x → bank_cause entries.now x ≡ None }
    ensures ready { IfOk result (MayPut entries.now) }
    ensures prepared { IfOk result (λ p. bank_with entries.now p ≡ bank_told entries.now (asked «record».now)) }
{
    let Event::Asked { request } = &record.event else {
        return Ok(None);
    };
    match prepare(alloc, entries, request) {
        Ok(prepared) => Ok(prepared),
        Err(Refusal::Memory) => Err(NoMemory),
        Err(_) => unreachable!(),
    }
}

/// Puts a record at the end of a book that is allowed behind its records. All growth is made first: where memory is wanting the
/// list is as before.
pub(crate) fn adopt(alloc: Global, book: &mut Book, record: Record) -> Result<(), NoMemory>
    requires book { IsBook book.old }
    requires allowed { IsAllowedInCatalog book.old.records.items «record» }
    requires kept { IsKept «record» }
    requires described { keeps_described «record» ≡ true }
    ensures list { OnOk result (book.new.records.items ≡ book.old.records.items ++ «record» ∷ []) }
    ensures unchanged { OnErr result (book.new.records.items ≡ book.old.records.items) }
    ensures book { IsBook book.new }
{
    let prepared = prepare_allowed(alloc, &book.entries, &record)?;
    match put_record(alloc, book, record, prepared, &mut Unrecorded) {
        Ok(()) => Ok(()),
        Err(KeepErr::Memory) => Err(NoMemory),
        Err(KeepErr::Fault) => unreachable!(),
    }
}

/// The book of a first record, which is a founding.
pub(crate) fn begin(alloc: Global, record: Record) -> Result<Book, NoMemory>
    requires allowed { IsAllowedInCatalog [] «record» }
    requires kept { IsKept «record» }
    ensures list { IfOk result (λ book. book.records.items ≡ «record» ∷ []) }
    ensures book { IfOk result IsBook }
{
    let mut book = Book {
        records: Vec::new(alloc),
        entries: Entries::new(alloc),
        roster: Roster::new(alloc),
        shown: Vec::new(alloc),
        pinned: Vec::new(alloc),
    };
    make_book_room(alloc, &mut book, &record)?;
    append(alloc, &mut book, record, None, None);
    Ok(book)
}
