//! What a catalogue tells of quizzes and their slots.

ghost use Rattle.std.specs.Prelude.{◌≡◌, ◌<◌, length, position, IfSome};
ghost use Rattle.qz_terms.specs.Catalog.{is_ready, own_settings, readies, ready_at, slots};
ghost use Rattle.qz_terms.specs.Cause.{slot_entry};
ghost use Rattle.qz_roster.specs.Quizzes.{AreSlotsOf};
ghost use Rattle.qz_catalog.specs.Holdings.{IsIndexed};
ghost use Rattle.qz_catalog.specs.Readings.{policy_terms};

use crate::book::Book;
use crate::settings::{default_policy, default_settings};
use qz_decimal::Grade;
use qz_roster::Slot;
use qz_terms::{Method, Settings};

/// The slots of a quiz, in order. A quiz that isn't there has none.
pub(crate) fn slots_made(book: &Book, quiz: u32) -> &[Slot]
    requires { IsIndexed book.now }
    ensures { AreSlotsOf book.now.records.items quiz result.now }
{
    match book.roster.quizzes.quiz(quiz) {
        Some(quiz) => quiz.slots.as_slice(),
        None => &[],
    }
}

/// How many slots a quiz has.
pub(crate) fn slot_count(book: &Book, quiz: u32) -> usize
    requires { IsIndexed book.now }
    ensures { result ≡ length (slots book.now.records.items quiz) }
{
    slots_made(book, quiz).len()
}

/// The entry of a slot, or 0 where there is no such slot.
pub(crate) fn slot_entry(book: &Book, quiz: u32, number: u16) -> u32
    requires { IsIndexed book.now }
    ensures { result ≡ slot_entry book.now.records.items quiz number }
{
    let slots = slots_made(book, quiz);
    let number = usize::from(number);
    if 1 <= number && number <= slots.len() {
        slots[number - 1].entry
    } else {
        0
    }
}

/// The place, from 0, of the record that made a quiz ready.
fn ready_maker(book: &Book, quiz: u32) -> Option<usize>
    requires { IsIndexed book.now }
    ensures value { result ≡ position (readies quiz) book.now.records.items }
    ensures inside { IfSome result (λ n. n < length book.now.records.items) }
{
    book.roster.quizzes.quiz(quiz)?.ready
}

/// The place, from 1, since which a quiz is ready, if it is.
pub(crate) fn ready_at(book: &Book, quiz: u32) -> Option<u64>
    requires { IsIndexed book.now }
    ensures { result ≡ ready_at book.now.records.items quiz }
{
    let before = ready_maker(book, quiz)?;
    Some(before as u64 + 1)
}

/// Whether a quiz is ready.
pub(crate) fn is_ready(book: &Book, quiz: u32) -> bool
    requires { IsIndexed book.now }
    ensures { result ≡ is_ready book.now.records.items quiz }
{
    ready_maker(book, quiz).is_some()
}

/// The quiz's own settings.
pub(crate) fn own_settings(book: &Book, quiz: u32) -> Settings
    requires { IsIndexed book.now }
    ensures { result ≡ own_settings book.now.records.items quiz }
{
    match book.roster.quizzes.quiz(quiz) {
        Some(quiz) => quiz.times.unwrap_or(default_settings()),
        None => default_settings(),
    }
}

/// The method by which a quiz is graded, and the grade that a whole total has (in 10^-5).
pub(crate) fn policy_terms(book: &Book, quiz: u32) -> (Method, Grade)
    requires { IsIndexed book.now }
    ensures { result ≡ policy_terms book.now.records.items quiz }
{
    match book.roster.quizzes.quiz(quiz) {
        Some(quiz) => quiz.terms.unwrap_or(default_policy()),
        None => default_policy(),
    }
}
