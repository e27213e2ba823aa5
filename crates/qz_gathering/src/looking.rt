//! Each record of a closed school is looked for among the notes of those who asked it.

ghost use Rattle.std.specs.Prelude.{◌≡◌, ◌≤◌, [], IfOk, length};
ghost use Rattle.qz_gathering.specs.Gathering.{Gathers, all_notes};
ghost use Rattle.qz_gathering.specs.Marking.{AreMarked};
ghost use Rattle.qz_school.specs.Solos.{lists_in};
ghost use Rattle.qz_terms.specs.declared.limits.TheConstants.{MOST_SHARDS};

use crate::gathering::GatherFault;
use crate::marks::{Marks, Missing, count_before, first_missing, mark_all};
use qz_disks::Keeper;
use qz_gather::Note;
use qz_solo::Solo;
use qz_text::{Listed, NoMemory};
use qz_visit::Last;
use std::alloc::Global;

/// The notes of several who asked, one's after the other's. They are moved, not copied.
fn joined(alloc: Global, books: Vec<Listed<Note>>) -> Result<Listed<Note>, NoMemory>
    ensures { IfOk result (λ notes. notes ≡ all_notes books.items) }
{
    let mut notes = Vec::new(alloc);
    for book in books {
        let mut more = book.items;
        notes.append(&mut more)?;
    }
    Ok(Listed { items: notes })
}

/// Looks for each new record among the notes. None of their places has a mark yet.
pub(crate) fn look<K: Keeper>(
    alloc: Global,
    solo: &Solo<K>,
    mut marks: Marks,
    books: Vec<Listed<Note>>,
    base: &Last,
) -> Result<Listed<Note>, GatherFault>
    requires marked { AreMarked (lists_in solo.now) base.now [] marks }
    requires few { length marks.parts.items ≤ MOST_SHARDS }
    ensures { Gathers (lists_in solo.now) base.now (all_notes books.items) result }
{
    let Ok(notes) = joined(alloc, books) else {
        return Err(GatherFault::Memory);
    };
    mark_all(solo, &mut marks, notes.as_slice(), base);
    match first_missing(&marks) {
        None => Ok(notes),
        Some(Missing { list, index }) => Err(GatherFault::Gap {
            list,
            place: count_before(base, list) + index as u64 + 1,
        }),
    }
}
