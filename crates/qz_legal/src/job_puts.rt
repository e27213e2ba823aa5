//! Whether a job may have put a record: a slot that it bound anew or skipped, or that it is done.

ghost use Rattle.std.specs.Prelude.{◌≡◌, option_copied, IfOk, IfSome};
ghost use Rattle.qz_grading.specs.Questions.{IsQuestion};
ghost use Rattle.qz_grading.specs.Shapes.{same_shape};
ghost use Rattle.qz_terms.specs.History.{is_done, quiz};
ghost use Rattle.qz_terms.specs.Kept.{IsKept};
ghost use Rattle.qz_terms.specs.Legal.{is_bare};
ghost use Rattle.qz_legal.specs.Allowed.{can_close, can_rebind, can_skip, has_shape, is_alike, is_at, is_first_left, is_open};
ghost use Rattle.qz_book.specs.Cursors.{AreCursors};
ghost use Rattle.qz_book.specs.Held.{IsSound};

use crate::attempts::is_same;
use crate::new_versions::learns_new;
use qz_book::{Book, Cursors, next_target, question_of};
use qz_grading::{AttemptId, Question, Shape, shape_of};
use qz_terms::{Bound, Learned, Record};
use qz_text::NoMemory;
use std::alloc::Global;

/// Whether a record has neither key nor terms.
fn is_bare(made: &Record) -> bool
    ensures { result ≡ is_bare made.now }
{
    made.key.is_none() && made.terms.is_none()
}

/// Whether a job is done.
fn is_done(book: &Book, job: u32) -> bool
    ensures { result ≡ is_done book.now job }
{
    book.done_place(job).is_some()
}

/// Whether a job isn't done yet, and a record has neither key nor terms.
fn is_open(book: &Book, made: &Record, job: u32) -> bool
    ensures { result ≡ is_open book.now made.now job }
{
    is_bare(made) && !is_done(book, job)
}

/// Whether this slot is the one that is found.
fn is_at(attempt: AttemptId, slot: u16, found: Option<(AttemptId, u16)>) -> bool
    ensures { result ≡ is_at attempt slot found }
{
    match found {
        Some((other, place)) => is_same(other, attempt) && place == slot,
        None => false,
    }
}

/// The quiz of an attempt, if it is there.
fn quiz_of(book: &Book, attempt: AttemptId) -> Option<u32>
    ensures { result ≡ quiz book.now attempt }
{
    Some(book.begun(attempt)?.quiz)
}

/// Whether a slot is the first that a job of its attempt's quiz has left.
fn is_first_left(
    alloc: Global,
    book: &Book,
    cursors: &mut Cursors,
    job: u32,
    position: u64,
    attempt: AttemptId,
    slot: u16,
) -> Result<bool, NoMemory>
    requires sound { IsSound book.now }
    requires cursors { AreCursors cursors.old book.now }
    ensures left { IfOk result (λ b. b ≡ is_first_left book.now job position attempt slot) }
    ensures cursors { AreCursors cursors.new book.now }
{
    let Some(quiz) = quiz_of(book, attempt) else {
        return Ok(false);
    };
    let found = next_target(alloc, book, cursors, job, quiz, position)?;
    Ok(is_at(attempt, slot, found))
}

/// Whether two shapes are one, so that the same answers fit.
pub fn same_shape(one: Shape, other: Shape) -> bool
    ensures { result ≡ same_shape one other }
{
    one == other
}

/// Whether two questions have the same shape.
fn is_alike(old: Option<&Question>, newer: Option<&Question>) -> bool
    requires old { IfSome old (λ q. IsQuestion q.now) }
    requires newer { IfSome newer (λ q. IsQuestion q.now) }
    ensures { result ≡ is_alike (option_copied old.entry) (option_copied newer.entry) }
{
    match (old, newer) {
        (Some(old), Some(newer)) => same_shape(shape_of(old), shape_of(newer)),
        (None, _) | (_, None) => false,
    }
}

/// Whether a job may have bound a version to a slot: the first slot that it has left, a version of the same shape.
pub(crate) fn can_rebind(
    alloc: Global,
    book: &Book,
    cursors: &mut Cursors,
    made: &Record,
    job: u32,
    attempt: AttemptId,
    slot: u16,
    bound: &Bound,
    learned: &[Learned],
) -> Result<bool, NoMemory>
    requires sound { IsSound book.now }
    requires kept { IsKept made.now }
    requires cursors { AreCursors cursors.old book.now }
    ensures allowed { IfOk result (λ b. b ≡ can_rebind book.now made.now job attempt slot bound.now learned.now) }
    ensures cursors { AreCursors cursors.new book.now }
{
    if !is_open(book, made, job) {
        return Ok(false);
    }
    let is_first = is_first_left(alloc, book, cursors, job, bound.at, attempt, slot)?;
    if !is_first || !learns_new(book, &[*bound], learned) {
        return Ok(false);
    }
    let old = question_of(book, attempt, slot);
    Ok(is_alike(old, book.version_with(made, bound.entry, bound.version)))
}

/// Whether a question is there and has this shape.
fn has_shape(shape: Shape, question: Option<&Question>) -> bool
    requires { IfSome question (λ q. IsQuestion q.now) }
    ensures { result ≡ has_shape shape (option_copied question.entry) }
{
    match question {
        Some(question) => same_shape(shape, shape_of(question)),
        None => false,
    }
}

/// Whether a job may have skipped a slot: one that it hasn't skipped before, of the one shape and not of the other.
pub(crate) fn can_skip(
    book: &Book,
    made: &Record,
    job: u32,
    attempt: AttemptId,
    slot: u16,
    bound: Shape,
    newer: Shape,
) -> bool
    requires sound { IsSound book.now }
    ensures { result ≡ can_skip book.now made.now job attempt slot bound newer }
{
    is_open(book, made, job)
        && !book.is_skipped(job, attempt, slot)
        && has_shape(bound, question_of(book, attempt, slot))
        && !same_shape(bound, newer)
}

/// Whether a job of a quiz may be done: it has no slot left.
pub(crate) fn can_close(
    alloc: Global,
    book: &Book,
    cursors: &mut Cursors,
    made: &Record,
    job: u32,
    quiz: u32,
    position: u64,
) -> Result<bool, NoMemory>
    requires sound { IsSound book.now }
    requires cursors { AreCursors cursors.old book.now }
    ensures allowed { IfOk result (λ b. b ≡ can_close book.now made.now job quiz position) }
    ensures cursors { AreCursors cursors.new book.now }
{
    if !is_open(book, made, job) {
        return Ok(false);
    }
    Ok(next_target(alloc, book, cursors, job, quiz, position)?.is_none())
}
