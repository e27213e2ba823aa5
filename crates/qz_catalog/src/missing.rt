//! What a request names that isn't there.

ghost use Rattle.std.specs.Prelude.{◌≡◌, not};
ghost use Rattle.qz_grading.specs.Behaviours.{when};
ghost use Rattle.qz_grading.specs.Grading.{is_place};
ghost use Rattle.qz_grading.specs.declared.refusal.Refusal.TheVariants as refusal;
ghost use Rattle.qz_catalog.specs.Holdings.{IsIndexed};
ghost use Rattle.qz_terms.specs.Cause.{missing_group, missing_quiz, missing_user};

use crate::book::Book;
use qz_grading::{Refusal, Thing};

/// The refusal of a number that isn't among so many, from 1.
pub(crate) fn missing(count: usize, number: u32, what: Thing) -> Option<Refusal>
    ensures { result ≡ when (not (is_place count number)) (refusal.Unknown what) }
{
    let number = number as usize;
    if 1 <= number && number <= count {
        None
    } else {
        Some(Refusal::Unknown { what })
    }
}

/// The refusal of a user who isn't there.
pub(crate) fn missing_user(book: &Book, user: u32) -> Option<Refusal>
    requires { IsIndexed book.now }
    ensures { result ≡ missing_user book.now.records.items user }
{
    missing(book.roster.people.count(), user, Thing::User)
}

/// The refusal of a group that isn't there.
pub(crate) fn missing_group(book: &Book, group: u32) -> Option<Refusal>
    requires { IsIndexed book.now }
    ensures { result ≡ missing_group book.now.records.items group }
{
    missing(book.roster.counts.groups(), group, Thing::Group)
}

/// The refusal of a quiz that isn't there.
pub(crate) fn missing_quiz(book: &Book, quiz: u32) -> Option<Refusal>
    requires { IsIndexed book.now }
    ensures { result ≡ missing_quiz book.now.records.items quiz }
{
    missing(book.roster.quizzes.count(), quiz, Thing::Quiz)
}
