//! Shards whose records are replayed.

ghost use Rattle.std.specs.Prelude.{◌≡◌, ◌<◌, ◌++◌, ◌∷◌, [], map, All, IfOk, OnOk};
ghost use Rattle.qz_book.specs.Held.{IsSound};
ghost use Rattle.qz_book.specs.Nexts.{CanGrow};
ghost use Rattle.qz_stats.specs.Shards.{replayed};

use crate::sampling::sample_of;
use qz_book::Book;
use qz_disks::KeepErr;
use qz_grading::{AttemptId, Steps};
use qz_keeper::Unrecorded;
use qz_terms::Record;
use qz_text::{Listed, NoMemory, TryCopy};
use std::alloc::Global;
use std::marker::Brand;
use std::sync::ledger::{Blank, Ledger};

/// A shard's records with what its attempts have come to, and which of these are looked at.
#[derive(Drop)]
pub(crate) struct Replayed {
    pub book: Book,
    pub attempts: Listed<AttemptId>,
}

/// Puts a copy of a record that comes next. Its gradings aren't counted.
fn follow<L: Ledger>(
    blank: Blank,
    alloc: Global,
    book: &mut Book,
    next: &Record,
) -> Result<(), NoMemory>
    requires name { blank.name ≡ L.name }
    requires parts { blank.parts ≡ L.parts }
    requires some_part { 0 < blank.parts }
    requires grows { CanGrow book.old next.now }
    ensures { OnOk result (book.new ≡ book.old ++ next.now ∷ []) }
{
    let made = next.try_copy(alloc)?;
    match book.put(alloc, made, &mut Unrecorded, &mut Steps::<L>::open(blank)) {
        Ok(()) => Ok(()),
        Err(KeepErr::Memory) => Err(NoMemory),
        Err(KeepErr::Fault) => unreachable!(),
    }
}

/// The records of a shard, each followed once.
fn book_of(alloc: Global, records: &[Record]) -> Result<Book, NoMemory>
    requires { IsSound records.now }
    ensures { IfOk result (λ book. book ≡ records.now) }
{
    let mut book = Book::new(alloc);
    for next in records {
        follow::<Brand>(Blank::new(1), alloc, &mut book, next)?;
    }
    Ok(book)
}

/// A shard of these records, with the attempts of a quiz that are looked at.
fn replay(alloc: Global, records: &[Record], quiz: u32) -> Result<Replayed, NoMemory>
    requires { IsSound records.now }
    ensures { IfOk result (λ shard. shard ≡ replayed quiz records.now) }
{
    let book = book_of(alloc, records)?;
    let attempts = sample_of(alloc, &book, quiz)?;
    Ok(Replayed { book, attempts })
}

/// The shards of these lists, in order.
pub(crate) fn replay_each(
    alloc: Global,
    lists: &[Listed<Record>],
    quiz: u32,
) -> Result<Vec<Replayed>, NoMemory>
    requires { All IsSound lists.now }
    ensures { IfOk result (λ shards. shards.items ≡ map (replayed quiz) lists.now) }
{
    let mut shards = Vec::with_capacity(alloc, lists.len())?;
    for list in lists {
        shards.push(replay(alloc, list.as_slice(), quiz)?)?;
    }
    Ok(shards)
}
