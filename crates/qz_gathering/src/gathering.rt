//! A school is closed, and its notes are gathered.

ghost use Rattle.qz_gather.specs.Notes.{AreTrueOf};
ghost use Rattle.qz_gathering.specs.Gathering.{EachTrueOf, Gathers, all_notes};
ghost use Rattle.qz_school.specs.Solos.{lists_in};
ghost use Rattle.qz_visit.specs.Closing.{ArePasses, Closes, HasFounding, HasGrownBy, HaveEvery};
ghost use Rattle.qz_visit.specs.Opening.{told_by};
ghost use Rattle.qz_visit.specs.Visits.{seen_in};

use crate::looking::look;
use crate::marks::none_marked;
use qz_disks::Keeper;
use qz_gather::Note;
use qz_solo::Solo;
use qz_text::{Listed, NoMemory};
use qz_visit::{Last, Passes, School};
use std::alloc::Global;

/// Why the notes of a school don't account for its lists.
#[derive(Drop)]
pub enum GatherFault {
    /// No note speaks for the record at this place, from 1 on, of this shard's list (`None`: of the catalogue's). It is the first such place,
    /// the catalogue's list before those of the shards in order.
    Gap { list: Option<u8>, place: u64 },
    /// Memory was wanting.
    Memory,
}

/// Closes a school, and looks for each record of its lists among the notes of all who asked it. The passes are those of all of them, joined.
/// `base` tells how many records of each list were there before anything was asked.
///
/// All notes come back, one's after the other's, where each place behind those of `base` has a note that speaks for it. Where memory was wanting
/// or there is a gap, the school is closed all the same, and each note is true of its lists. Each list is longer by what the turns of its pass
/// put.
pub fn gather<K: Keeper>(
    alloc: Global,
    school: School<K>,
    passes: Passes<K>,
    books: Vec<Listed<Note>>,
    base: &Last,
) -> (Solo<K>, Result<Listed<Note>, GatherFault>)
    requires own { ArePasses school passes.seats }
    requires every { HaveEvery school passes.seats }
    requires founded { HasFounding school passes.seats }
    requires true_of { EachTrueOf (seen_in passes.seats) books.items }
    ensures closes { Closes K.faults (seen_in passes.seats) result.0 }
    ensures grown { HasGrownBy school passes.seats result.0 }
    ensures true_of { AreTrueOf (told_by K.faults result.0) (all_notes books.items) }
    ensures gathers { Gathers (lists_in result.0) base.now (all_notes books.items) result.1 }
{
    let (catalog, shards) = school.close(passes);
    let marks = none_marked(alloc, &catalog, &shards, base);
    let solo = Solo::of(catalog, shards);
    let told = match marks {
        Ok(marks) => look(alloc, &solo, marks, books, base),
        Err(NoMemory) => Err(GatherFault::Memory),
    };
    (solo, told)
}
