//! One entry of a bank.

ghost use Rattle.std.specs.Prelude.{◌≡◌, ◌+◌, ◌<◌, ◌^◌, length, map, IfOk, OnErr};
ghost use Rattle.qz_terms.specs.Catalog.{edited, tuned};
ghost use Rattle.qz_bank.specs.Banks.{first_version, with_version};
ghost use Rattle.qz_bank.specs.Room.{IsRoom};

use crate::room::take_room;
use qz_decimal::Fraction;
use qz_grading::{Bank, Item, Question};
use qz_text::{Listed, NoMemory, Text, TryCopy};
use std::alloc::Global;

/// A category's names from the top, and the versions of a question, which count from 1.
#[derive(Drop)]
pub struct Entry {
    pub category: Listed<Text>,
    pub versions: Listed<Question>,
}

impl Entry {
    /// One version more. The room has place for all of them, and it takes no memory.
    pub(crate) fn add(&mut self, question: Question, room: Vec<Question>)
        requires { IsRoom (length self.old.versions + 1) room }
        ensures { self.new ≡ with_version self.old question }
    {
        take_room(&mut self.versions.items, 1, room);
        self.versions.items.push(question).unwrap();
    }
}

/// An imported question becomes the first version.
fn first_version(alloc: Global, item: Item) -> Result<Entry, NoMemory>
    ensures { IfOk result (λ entry. entry ≡ first_version item) }
{
    let mut versions = Listed::empty(alloc);
    versions.items.push(item.question)?;
    Ok(Entry {
        category: item.category,
        versions,
    })
}

/// The entries that a bank makes, one for each question.
pub(crate) fn first_versions(alloc: Global, bank: Bank) -> Result<Vec<Entry>, NoMemory>
    ensures { IfOk result (λ made. made.items ≡ map first_version bank.items) }
{
    let mut made = Vec::with_capacity(alloc, bank.items.as_slice().len())?;
    for item in bank.items.items {
        made.push(first_version(alloc, item)?)?;
    }
    Ok(made)
}

/// A question with the penalty and the hints of the version before.
pub(crate) fn edited(alloc: Global, old: &Question, gift: Question) -> Result<Question, NoMemory>
    ensures { IfOk result (λ question. question ≡ edited old.now gift) }
{
    let hints = old.hints.try_copy(alloc)?;
    Ok(Question {
        penalty: old.penalty,
        hints,
        ..gift
    })
}

/// The version before with this penalty and these hints.
pub(crate) fn tuned(
    alloc: Global,
    old: &Question,
    penalty: Fraction,
    hints: Listed<Text>,
) -> Result<Question, NoMemory>
    ensures { IfOk result (λ question. question ≡ tuned old.now penalty hints) }
{
    Ok(Question {
        penalty,
        hints,
        ..old.try_copy(alloc)?
    })
}
