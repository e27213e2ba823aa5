//! Which attempts of a quiz are looked at: the finished ones.

ghost use Rattle.std.specs.Prelude.{◌≡◌, ◌++◌, ◌∷◌, [], filter, if◌then◌else◌, IfOk, OnOk};
ghost use Rattle.qz_terms.specs.History.{is_finished};
ghost use Rattle.qz_stats.specs.Samples.{sample};

use qz_book::Book;
use qz_grading::AttemptId;
use qz_terms::How;
use qz_text::{Listed, NoMemory};
use std::alloc::Global;

fn is_finished(book: &Book, attempt: AttemptId) -> bool
    ensures { result ≡ is_finished book.now attempt }
{
    match book.ended(attempt) {
        Some(how) => matches!(how, How::Finished),
        None => false,
    }
}

/// Adds an attempt to others, if it is finished.
fn one_onto(found: &mut Vec<AttemptId>, book: &Book, attempt: &AttemptId) -> Result<(), NoMemory>
    ensures { OnOk result (found.new.items
        ≡ found.old.items ++ (if is_finished book.now attempt.now then attempt.now ∷ [] else [])) }
{
    if is_finished(book, *attempt) {
        found.push(*attempt)?;
    }
    Ok(())
}

/// Adds those of some attempts that are finished to others.
fn finished_onto(
    found: &mut Vec<AttemptId>,
    book: &Book,
    attempts: &[AttemptId],
) -> Result<(), NoMemory>
    ensures { OnOk result
        (found.new.items ≡ found.old.items ++ filter (is_finished book.now) attempts.now) }
{
    for attempt in attempts {
        one_onto(found, book, attempt)?;
    }
    Ok(())
}

/// The finished attempts of a quiz, in order of user and number.
pub(crate) fn sample_of(
    alloc: Global,
    book: &Book,
    quiz: u32,
) -> Result<Listed<AttemptId>, NoMemory>
    ensures { IfOk result (λ found. found ≡ sample book.now quiz) }
{
    let users = book.takers(alloc, quiz)?;
    let mut items = Vec::new(alloc);
    for user in &users {
        finished_onto(&mut items, book, book.attempts(quiz, *user))?;
    }
    Ok(Listed { items })
}
