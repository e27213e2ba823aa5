//! Which rule the question of a block breaks first.

ghost use Rattle.std.specs.Prelude.{◌≡◌, ℕ, not, ◌&&◌, ◌||◌, IfOk};
ghost use Rattle.std.specs.List.{list_any};
ghost use Rattle.qz_grading.specs.Questions as sound;
ghost use Rattle.gift_read.specs.Faults.{is_matching, lacks_piece, has_stray_arrow, weighed_pieces, is_misweighed, number_pieces, has_blank_number, has_no_number, has_stray_feedback, broken_values};
ghost use Rattle.gift_read.specs.FirstFault.{first_of};
ghost use Rattle.gift_read.specs.Flaws.{has_flaw};
ghost use Rattle.gift_read.specs.Parts.{pieces, pieces_of};
ghost use Rattle.gift_read.specs.Places.{is_at};

use crate::limits::is_long;
use crate::parts::{Sort, first_piece, split_answer, split_piece};
use crate::places::{Landmark, are_blank, behind, occurs, split};
use crate::values::{extent_of, is_weighed, unweighed, weight_told};
use gift_lex::Piece;
use qz_grading::{Kind, Question, has_no_blank, has_right_choice, has_stem, least_parts, parts};
use qz_text::NoMemory;
use std::alloc::Global;

// ---- pieces

/// What may be wrong with the answer of a piece.
#[derive(Clone, Copy)]
pub(crate) enum Flaw {
    /// It begins with figures between percent signs that are no weight.
    Weight,
    /// No number stands in it.
    BlankNumber,
    /// It tells no number and no range.
    NoNumber,
}

impl Flaw {
    /// Whether it is in a piece.
    fn is_in(self, alloc: Global, piece: &[Piece]) -> Result<bool, NoMemory>
        ensures { IfOk result (λ is. (sign : ℕ) → is ≡ has_flaw self (sign, piece.now)) }
    {
        let (answer, _) = split_answer(piece);
        match self {
            Flaw::Weight => Ok(is_weighed(answer) && weight_told(alloc, answer)?.is_none()),
            Flaw::BlankNumber => Ok(are_blank(unweighed(answer))),
            Flaw::NoNumber => Ok(extent_of(alloc, unweighed(answer))?.is_none()),
        }
    }
}

/// Whether a flaw is in one of the pieces of marks.
fn is_in_some(
    alloc: Global,
    flaw: Flaw,
    begins: Landmark,
    sign: char,
    marks: &[Piece],
) -> Result<bool, NoMemory>
    ensures { IfOk result (λ is. is ≡ list_any (has_flaw flaw) (pieces (is_at begins) sign marks.now)) }
{
    let Some((_, mut rest)) = first_piece(begins, sign, marks) else {
        return Ok(false);
    };
    loop {
        let (piece, next) = split_piece(begins, rest);
        if flaw.is_in(alloc, piece)? {
            return Ok(true);
        }
        match next {
            Some((_, after)) => rest = after,
            None => return Ok(false),
        }
    }
}

/// Whether a flaw is in one of the pieces of answers.
fn is_in_answers(alloc: Global, flaw: Flaw, sort: Sort, answers: &[Piece]) -> Result<bool, NoMemory>
    ensures { IfOk result (λ is. is ≡ list_any (has_flaw flaw) (pieces_of sort answers.now)) }
{
    match sort {
        Sort::One | Sort::Several => is_in_some(alloc, flaw, Landmark::Choice, '~', answers),
        Sort::Matching | Sort::ShortAnswer => is_in_some(
            alloc,
            flaw,
            Landmark::Equals,
            '=',
            answers,
        ),
        Sort::Numerical => {
            let (numbers, _) = split(Landmark::Others, behind(answers, 1));
            is_in_some(alloc, flaw, Landmark::Equals, '=', numbers)
        }
        _ => Ok(false),
    }
}

// ---- rules

fn is_matching(kind: &Kind) -> bool
    ensures { result ≡ is_matching kind.now }
{
    matches!(kind, Kind::Matching(_))
}

/// Whether there are too few pieces, or a blank one.
fn lacks_piece(kind: &Kind) -> bool
    ensures { result ≡ lacks_piece kind.now }
{
    parts(kind) < least_parts(kind) || !has_no_blank(kind)
}

/// Rule 6: a piece is wanting or blank.
fn lacks_answer(alloc: Global, kind: &Kind, sort: Sort, answers: &[Piece]) -> Result<bool, NoMemory>
    ensures { IfOk result (λ is. is
        ≡ ((not (is_matching kind.now) && lacks_piece kind.now) || list_any has_blank_number (number_pieces sort answers.now))) }
{
    if !is_matching(kind) && lacks_piece(kind) {
        return Ok(true);
    }
    match sort {
        Sort::Numerical => is_in_answers(alloc, Flaw::BlankNumber, sort, answers),
        _ => Ok(false),
    }
}

/// Rule 7: a piece begins with figures that are no weight.
fn is_misweighed(alloc: Global, sort: Sort, answers: &[Piece]) -> Result<bool, NoMemory>
    ensures { IfOk result (λ is. is ≡ list_any is_misweighed (weighed_pieces sort answers.now)) }
{
    match sort {
        Sort::Matching => Ok(false),
        _ => is_in_answers(alloc, Flaw::Weight, sort, answers),
    }
}

/// Rule 8: a pair is wanting or has no answer, no pair has a stem, or an arrow stands in a short answer.
fn is_mispaired(kind: &Kind, sort: Sort, answers: &[Piece]) -> bool
    ensures { result
        ≡ ((is_matching kind.now && (lacks_piece kind.now || not (sound.has_stem kind.now))) || has_stray_arrow sort answers.now) }
{
    if is_matching(kind) && (lacks_piece(kind) || !has_stem(kind)) {
        return true;
    }
    match sort {
        Sort::ShortAnswer => occurs(Landmark::Arrow, answers),
        _ => false,
    }
}

/// Rule 9: a number is none.
fn lacks_number(alloc: Global, sort: Sort, answers: &[Piece]) -> Result<bool, NoMemory>
    ensures { IfOk result (λ is. is ≡ list_any has_no_number (number_pieces sort answers.now)) }
{
    match sort {
        Sort::Numerical => is_in_answers(alloc, Flaw::NoNumber, sort, answers),
        _ => Ok(false),
    }
}

/// Rule 10: a true-false question has a third hash, or a numerical one a tilde that isn't before the feedback for every other
/// number.
fn has_stray_feedback(sort: Sort, answers: &[Piece]) -> bool
    ensures { result ≡ has_stray_feedback sort answers.now }
{
    match sort {
        Sort::TrueFalse(_) => {
            let (_, on_wrong) = split_answer(answers);
            let (_, on_right) = split_answer(on_wrong);
            occurs(Landmark::Hash, on_right)
        }
        Sort::Numerical => occurs(
            Landmark::Tilde,
            split(Landmark::Others, behind(answers, 1)).0,
        ),
        _ => false,
    }
}

/// The first of the rules 2 and 6 to 11 that a question breaks which is read from answers.
pub(crate) fn fault_of_values(
    alloc: Global,
    question: &Question,
    sort: Sort,
    answers: &[Piece],
) -> Result<Option<u8>, NoMemory>
    ensures { IfOk result (λ rule. rule ≡ first_of (broken_values question.now sort answers.now)) }
{
    let kind = &question.kind;
    if is_long(question) {
        return Ok(Some(2));
    }
    if lacks_answer(alloc, kind, sort, answers)? {
        return Ok(Some(6));
    }
    if is_misweighed(alloc, sort, answers)? {
        return Ok(Some(7));
    }
    if is_mispaired(kind, sort, answers) {
        return Ok(Some(8));
    }
    if lacks_number(alloc, sort, answers)? {
        return Ok(Some(9));
    }
    if has_stray_feedback(sort, answers) {
        return Ok(Some(10));
    }
    if !has_right_choice(kind) {
        return Ok(Some(11));
    }
    Ok(None)
}
