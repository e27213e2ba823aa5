//! The grades of all users who have an attempt of a quiz.

ghost use Rattle.std.specs.Prelude.{◌≡◌, map, IfOk};
ghost use Rattle.qz_decimal.specs.Numbers.{IsMaxSum, IsQuizGrade};
ghost use Rattle.qz_terms.specs.History.{takers};
ghost use Rattle.qz_looks.specs.Grades.{graded};

use qz_book::Book;
use qz_decimal::Grade;
use qz_terms::Policy;
use qz_text::{Listed, NoMemory};
use std::alloc::Global;

/// The grades (in 10^-5) of these users at a quiz.
fn grades_of(
    alloc: Global,
    book: &Book,
    quiz: u32,
    policy: &Policy,
    users: &[u32],
) -> Result<Listed<(u32, Option<Grade>)>, NoMemory>
    requires grade { IsQuizGrade policy.now.grade }
    requires sum { IsMaxSum policy.now.sum }
    ensures { IfOk result (λ found. found ≡ map (graded book.now quiz policy.now) users.now) }
{
    let mut items = Vec::with_capacity(alloc, users.len())?;
    for user in users {
        let grade = book.row(quiz, policy, *user);
        items.push((*user, grade))?;
    }
    Ok(Listed { items })
}

/// The grades (in 10^-5) of the users who have an attempt of a quiz, in order of number.
pub fn rows(
    alloc: Global,
    book: &Book,
    quiz: u32,
    policy: &Policy,
) -> Result<Listed<(u32, Option<Grade>)>, NoMemory>
    requires grade { IsQuizGrade policy.now.grade }
    requires sum { IsMaxSum policy.now.sum }
    ensures { IfOk result (λ found. found ≡ map (graded book.now quiz policy.now) (takers book.now quiz)) }
{
    let users = book.takers(alloc, quiz)?;
    grades_of(alloc, book, quiz, policy, &users)
}
