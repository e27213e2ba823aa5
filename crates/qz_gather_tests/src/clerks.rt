//! A school is asked by a clerk, and gathered without some of its notes.

ghost use Rattle.std.specs.Prelude.{◌≡◌, ◌<◌, length};
ghost use Rattle.qz_disks.specs.Shelves.{NoneOutIn};
ghost use Rattle.qz_disks.specs.Slots.{memory_files};
ghost use Rattle.qz_gather.specs.Notes.{AreTrueOf};
ghost use Rattle.qz_stations.specs.Posts.{HoldsEvery};
ghost use Rattle.qz_visit.specs.Closing.{ArePasses, HasFounding, HaveEvery};
ghost use Rattle.qz_visit.specs.Holding.{GoesOn};
ghost use Rattle.qz_visit.specs.Visits.{IsUnasked, Tellings, seen_in};

use qz_disks::{Keeper, MemoryShelf};
use qz_gather::{Book, Clerk, Note};
use qz_gathering::{GatherFault, gather};
use qz_opening::open_school;
use qz_outside::MemorySink;
use qz_solo::Solo;
use qz_terms::{Ask, Caller, Desk};
use qz_text::{Listed, NoMemory};
use qz_visit::{Last, Passes, School, Visit};
use qz_wire::ask_of_line;
use std::alloc::Global;
use std::sync::Wait;

/// The first place for which no note speaks, and its list, if there is any.
pub(crate) type Gap = Option<(Option<u8>, u64)>;

/// A line that asks, and the list and the place of its record, if it puts one.
pub(crate) type Line<'a> = (&'a str, Gap);

/// The place, from 0 on, of the first note that is taken out, and how many are.
pub(crate) type Out = (usize, usize);

/// Who asks: the token `worker` is that of one of the server's own.
fn known(caller: Caller) -> Caller {
    if let Caller::Token(token) = &caller {
        if token.as_bytes() == b"worker".as_slice() {
            return Caller::Worker;
        }
    }
    caller
}

/// Asks what a line asks.
fn ask_line<K: Keeper, W: Wait>(alloc: Global, clerk: &mut Clerk<K, W>, line: &str)
    ensures { GoesOn clerk.old.visit clerk.new.visit }
{
    let Ok((moment, asked)) = ask_of_line(alloc, line.as_bytes()) else {
        return;
    };
    let Ask {
        caller,
        key,
        request,
    } = asked;
    let asked = Ask {
        caller: known(caller),
        key,
        request,
    };
    let _ = clerk.ask(alloc, &asked, moment);
}

fn ask_all<K: Keeper, W: Wait>(alloc: Global, clerk: &mut Clerk<K, W>, lines: &[Line])
    ensures { GoesOn clerk.old.visit clerk.new.visit }
{
    for line in lines {
        ask_line(alloc, clerk, line.0);
    }
}

/// The passes and the notes of a book.
fn parts_of<K: Keeper>(book: Book<K>) -> (Passes<K>, Listed<Note>)
    ensures passes { result.0.seats ≡ book.passes.seats }
    ensures true_of { AreTrueOf (seen_in result.0.seats) result.1 }
{
    let Book { passes, notes } = book;
    (passes, notes)
}

/// The passes of a clerk who asked a school these lines, by which nothing was asked before, and the notes.
fn noted<K: Keeper, W: Wait>(
    rt: &W,
    alloc: Global,
    school: &School<K>,
    passes: Passes<K>,
    lines: &[Line],
) -> (Passes<K>, Listed<Note>)
    requires every { HoldsEvery school.now passes.seats }
    requires some { 0 < length passes.seats.records.numbers }
    requires unasked { IsUnasked passes.seats passes.last }
    ensures every { HoldsEvery school.now result.0.seats }
    ensures true_of { AreTrueOf (seen_in result.0.seats) result.1 }
{
    let visit = Visit::new(school, rt, passes);
    let mut clerk = Clerk::new(alloc, visit);
    ask_all(alloc, &mut clerk, lines);
    let book = clerk.into_book();
    parts_of(book)
}

fn items_of(notes: Listed<Note>) -> Vec<Note>
    ensures { result.items ≡ notes }
{
    notes.items
}

/// The notes without the one at this place, if there is one.
fn without_one(notes: Vec<Note>, place: usize) -> Vec<Note>
    ensures { (t : Tellings) → AreTrueOf t notes.items → AreTrueOf t result.items }
{
    if place >= notes.len() {
        return notes;
    }
    let mut left = notes;
    let _ = left.remove(place);
    left
}

fn without(notes: Vec<Note>, out: Out) -> Vec<Note>
    ensures { (t : Tellings) → AreTrueOf t notes.items → AreTrueOf t result.items }
{
    let mut left = notes;
    for _ in 0..out.1 {
        left = without_one(left, out.0);
    }
    left
}

fn copy_of(base: &Last) -> Result<Last, NoMemory> {
    Ok(Last {
        catalog: base.catalog,
        parts: Listed {
            items: base.parts.items.clone()?,
        },
        list: None,
        put: false,
        doubt: false,
    })
}

/// The first gap of a school that is closed, where these are all notes.
fn gap_by<K: Keeper + Drop>(
    alloc: Global,
    school: School<K>,
    passes: Passes<K>,
    notes: Vec<Note>,
    base: &Last,
) -> Result<Gap, NoMemory>
    requires own { ArePasses school passes.seats }
    requires every { HaveEvery school passes.seats }
    requires founded { HasFounding school passes.seats }
    requires true_of { AreTrueOf (seen_in passes.seats) notes.items }
{
    let mut books = Vec::new(alloc);
    books.push(Listed { items: notes })?;
    let (closed, told) = gather(alloc, school, passes, books, base);
    drop(closed);
    match told {
        Ok(_) => Ok(None),
        Err(GatherFault::Gap { list, place }) => Ok(Some((list, place))),
        Err(GatherFault::Memory) => Err(NoMemory),
    }
}

/// The first gap of a school that a clerk asked these lines, where some of the notes are taken out.
fn gap_of<K: Keeper + Drop, W: Wait>(
    rt: &W,
    alloc: Global,
    solo: Solo<K>,
    lines: &[Line],
    out: Out,
) -> Result<Gap, NoMemory> {
    let (catalog, shards) = solo.into_parts();
    let Ok((school, passes)) = School::open(alloc, catalog, shards, 1) else {
        return Err(NoMemory);
    };
    let base = copy_of(passes.last())?;
    let (passes, notes) = noted(rt, alloc, &school, passes, lines);
    let kept = items_of(notes);
    let left = without(kept, out);
    gap_by(alloc, school, passes, left, &base)
}

/// The same of the school of a folder.
pub(crate) fn gap_in<W: Wait>(
    rt: &W,
    alloc: Global,
    folder: &[u8],
    lines: &[Line],
    out: Out,
    shelf: &mut MemoryShelf,
) -> Result<Gap, NoMemory>
    requires { NoneOutIn folder.now (memory_files shelf.old.slots) }
{
    let mut sink = MemorySink::new(alloc, 64, Listed::empty(alloc), 64)?;
    match open_school(alloc, folder, &mut sink, shelf) {
        Ok(solo) => gap_of(rt, alloc, solo, lines, out),
        Err(_) => Err(NoMemory),
    }
}
