//! The plans that jobs pin. Each is made when its record is put, so that a job costs no walk of the records later.

ghost use Rattle.std.specs.Prelude.{◌≡◌, ◌<◌, ◌++◌, option_copied, option_and_then, option_to_list, IfOk, vec_len, vec_capacity};
ghost use Rattle.qz_grading.specs.Grading.{at_place};
ghost use Rattle.qz_terms.specs.Catalog.{jobs};
ghost use Rattle.qz_roster.specs.Roster.{IsNext};
ghost use Rattle.qz_catalog.specs.Holdings.{ArePinned, IsIndexed, IsPin, pinned};

use crate::book::Book;
use crate::planning::lean_plan;
use crate::quizzes::own_settings;
use qz_roster::regrade_by;
use qz_terms::{Plan, Record};
use qz_text::NoMemory;
use std::alloc::Global;

/// The plan that a record pins which is to stand behind those of a book, if it makes a job.
pub(crate) fn pin_of(alloc: Global, book: &Book, record: &Record) -> Result<Option<Plan>, NoMemory>
    requires indexed { IsIndexed book.now }
    requires next { IsNext book.now.records.items «record».now }
    ensures { IfOk result (IsPin book.now.records.items «record».now) }
{
    let place = book.records.len() as u64 + 1;
    let Some((_, quiz)) = regrade_by(place, record) else {
        return Ok(None);
    };
    let Some(named) = book.roster.quizzes.named(&book.records, quiz) else {
        unreachable!()
    };
    let plan = lean_plan(alloc, book, quiz, named, own_settings(book, quiz))?;
    Ok(Some(Plan { at: place, ..plan }))
}

/// Keeps the plan that a record pinned, for which there is room. It takes no memory.
pub(crate) fn keep_pin(pinned: &mut Vec<Plan>, pin: Option<Plan>)
    requires { vec_len pinned.old < vec_capacity pinned.old }
    ensures { pinned.new.items ≡ pinned.old.items ++ option_to_list pin }
{
    if let Some(plan) = pin {
        pinned.push(plan).unwrap();
    }
}

/// The plan that a job pinned, if the job is there.
pub(crate) fn pinned(book: &Book, number: u32) -> Option<&Plan>
    ensures { option_copied result ≡ at_place book.now.pinned.items number }
{
    book.pinned.get((number as usize).checked_sub(1)?)
}
