//! The settings of one user at a quiz, and those of a new quiz.

ghost use Rattle.std.specs.Prelude.{◌≡◌, filter_map, IfOk};
ghost use Rattle.qz_terms.specs.declared.request.Whom.TheVariants as whom;
ghost use Rattle.qz_terms.specs.Access.{default_settings};
ghost use Rattle.qz_terms.specs.Catalog.{default_policy, groups_of, «override», settings};
ghost use Rattle.qz_catalog.specs.Holdings.{IsIndexed};
ghost use Rattle.qz_catalog.specs.Readings.{group_override};

use crate::book::Book;
use crate::quizzes::own_settings;
use qz_access::effective;
use qz_decimal::Grade;
use qz_terms::{Handling, Method, Override, Review, Settings, Whom};
use qz_text::NoMemory;
use std::alloc::Global;

/// The settings of a new quiz.
pub(crate) fn default_settings() -> Settings
    ensures { result ≡ default_settings }
{
    Settings {
        opens: 0,
        closes: 0,
        limit: 0,
        allowed: 0,
        handling: Handling::AutoSubmit,
        grace: 0,
        review: Review::Always,
    }
}

/// What is set otherwise at a quiz for a group, if the user is a member of it.
fn group_override(book: &Book, quiz: u32, user: u32, group: u32) -> Option<Override>
    requires { IsIndexed book.now }
    ensures { result ≡ group_override book.now.records.items quiz user group }
{
    if book.roster.members.is_member(group, user) {
        book.roster.overrides.of(quiz, Whom::Group, group)
    } else {
        None
    }
}

/// What is set otherwise at a quiz for a user's groups.
fn group_overrides(
    alloc: Global,
    book: &Book,
    quiz: u32,
    user: u32,
) -> Result<Vec<Override>, NoMemory>
    requires { IsIndexed book.now }
    ensures { IfOk result (λ found. found.items ≡ filter_map («override» book.now.records.items quiz whom.Group) (groups_of book.now.records.items user)) }
{
    let mut found = Vec::new(alloc);
    for before in 0..book.roster.counts.groups() {
        if let Some(set) = group_override(book, quiz, user, before as u32 + 1) {
            found.push(set)?;
        }
    }
    Ok(found)
}

/// The settings of a user at a quiz.
pub(crate) fn settings(
    alloc: Global,
    book: &Book,
    quiz: u32,
    user: u32,
) -> Result<Settings, NoMemory>
    requires { IsIndexed book.now }
    ensures { IfOk result (λ s. s ≡ settings book.now.records.items quiz user) }
{
    let own = own_settings(book, quiz);
    let set = book.roster.overrides.of(quiz, Whom::User, user);
    let groups = group_overrides(alloc, book, quiz, user)?;
    Ok(effective(&own, set.as_ref(), &groups))
}

/// How a new quiz is graded: by the highest total, for a grade of 10.
pub(crate) fn default_policy() -> (Method, Grade)
    ensures { result ≡ default_policy }
{
    (Method::Highest, Grade(1_000_000))
}
