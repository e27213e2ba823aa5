//! The slots that a job has left, and the first of them.

ghost use Rattle.std.specs.Prelude.{◌≡◌, ℕ, None, Some, if◌then◌else◌, option_map, IfOk};
ghost use Rattle.std.specs.Option.{option_or};
ghost use Rattle.qz_grading.specs.declared.refusal.AttemptId.{AttemptId};
ghost use Rattle.qz_index.specs.Orders.{attempt_after};
ghost use Rattle.qz_terms.specs.History.{is_target, targets};
ghost use Rattle.qz_terms.specs.Lists.{first_of};
ghost use Rattle.qz_book.specs.Cursors.{AreCursors, IsPassed};
ghost use Rattle.qz_book.specs.Held.{IsSound};
ghost use Rattle.qz_book.specs.Targets.{first_left};

use crate::book::Book;
use crate::cursors::Cursors;
use qz_grading::AttemptId;
use qz_text::NoMemory;
use std::alloc::Global;

/// Whether a slot is left to a job: it was bound before the job's position, and the job hasn't skipped it.
fn is_target(book: &Book, job: u32, position: u64, attempt: AttemptId, slot: u16) -> bool
    ensures { result ≡ is_target book.now job position attempt slot }
{
    match book.bound(attempt, slot) {
        Some(bound) => bound.at < position && !book.is_skipped(job, attempt, slot),
        None => false,
    }
}

/// The slot that is found so far, or this one, if it is left to a job.
fn found_or(
    book: &Book,
    job: u32,
    position: u64,
    attempt: AttemptId,
    found: Option<u16>,
    slot: u16,
) -> Option<u16>
    ensures { result ≡ option_or found (if is_target book.now job position attempt slot then Some slot else None) }
{
    if found.is_some() {
        return found;
    }
    is_target(book, job, position, attempt, slot).then_some(slot)
}

/// The first slot of an attempt that is left to a job.
fn first_left(book: &Book, job: u32, position: u64, attempt: AttemptId) -> Option<u16>
    ensures { result ≡ first_left book.now job position attempt }
{
    let count = book.slot_count(attempt);
    let mut found = None;
    for place in 0..count {
        found = found_or(book, job, position, attempt, found, place as u16 + 1);
    }
    found
}

/// What a search for a target came to: no slot of an attempt up to `passed` is left, and the next one has the target, if any is left.
#[derive(Clone, Copy)]
struct Search {
    passed: AttemptId,
    target: Option<(AttemptId, u16)>,
}

/// The first slot that is left to a job of a quiz, in order of user, attempt and slot; of attempts live or ended. Up to `passed` none
/// is left, so the attempts of the quiz are gone through from there.
fn first_target(book: &Book, job: u32, quiz: u32, position: u64, passed: AttemptId) -> Search
    requires sound { IsSound book.now }
    requires passed { IsPassed book.now quiz job position passed }
    ensures target { result.target ≡ first_of (targets book.now job quiz position) }
    ensures passed { IsPassed book.now quiz job position result.passed }
    ensures next { attempt_after book.now quiz result.passed
        ≡ option_map (λ (t : AttemptId × ℕ). t.0) result.target }
{
    let mut passed = passed;
    while let Some(attempt) = book.attempt_after(quiz, passed) {
        if let Some(slot) = first_left(book, job, position, attempt) {
            return Search {
                passed,
                target: Some((attempt, slot)),
            };
        }
        passed = attempt;
    }
    Search {
        passed,
        target: None,
    }
}

/// The first slot that is left to a job of a quiz. The search goes on where the job's last one ended, and how far it comes is kept.
pub fn next_target(
    alloc: Global,
    book: &Book,
    cursors: &mut Cursors,
    job: u32,
    quiz: u32,
    position: u64,
) -> Result<Option<(AttemptId, u16)>, NoMemory>
    requires sound { IsSound book.now }
    requires cursors { AreCursors cursors.old book.now }
    ensures target { IfOk result (λ target. target ≡ first_of (targets book.now job quiz position)) }
    ensures cursors { AreCursors cursors.new book.now }
{
    let passed = cursors.passed(job, quiz, position);
    let search = first_target(book, job, quiz, position, passed);
    cursors.keep(alloc, job, quiz, position, search.passed)?;
    Ok(search.target)
}
