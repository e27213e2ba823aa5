//! The choices, pairs and answers of a question.

ghost use Rattle.std.specs.Prelude.{◌≡◌, ℕ, List, [], ◌++◌, map, IfOk};
ghost use Rattle.gift_lex.specs.declared.block.Piece.{Piece};
ghost use Rattle.qz_grading.specs.declared.question.Format.{Format};
ghost use Rattle.gift_read.specs.declared.parts.Sort.TheVariants as sort;
ghost use Rattle.gift_read.specs.Places.{is_at};
ghost use Rattle.gift_read.specs.Parts.{pieces, pieces_of};
ghost use Rattle.gift_read.specs.Values.{choice_of, pair_of, short_of, num_of, other_of, others, kind_in};

use crate::parts::{Sort, first_piece, split_answer, split_piece};
use crate::places::{Landmark, behind, occurs, split};
use crate::texts::{rich_of, text_of};
use crate::values::{extent_of, unweighed, weight_of};
use gift_lex::Piece;
use qz_decimal::Fraction;
use qz_grading::{Choice, Extent, Format, Kind, Num, Pair, Rich, Short};
use qz_text::{Listed, NoMemory, Pattern, Text};
use std::alloc::Global;

// ---- one piece

/// What a piece behind a sign is read as.
trait OfPiece: Drop {
    ghost piece_gives: { Format → (ℕ × List Piece) → Self };

    fn of_piece(
        alloc: Global,
        format: Format,
        sign: char,
        piece: &[Piece],
    ) -> Result<Self, NoMemory>
        ensures { IfOk result (λ made. made ≡ piece_gives format (sign, piece.now)) };
}

impl OfPiece for Choice {
    ghost piece_gives = { choice_of };

    fn of_piece(
        alloc: Global,
        format: Format,
        sign: char,
        piece: &[Piece],
    ) -> Result<Choice, NoMemory> {
        let (answer, feedback) = split_answer(piece);
        let text = unweighed(answer);
        Ok(Choice {
            weight: weight_of(alloc, sign, answer)?,
            text: rich_of(alloc, format, text)?,
            feedback: rich_of(alloc, format, feedback)?,
        })
    }
}

impl OfPiece for Pair {
    ghost piece_gives = { pair_of };

    fn of_piece(
        alloc: Global,
        format: Format,
        _sign: char,
        piece: &[Piece],
    ) -> Result<Pair, NoMemory> {
        if !occurs(Landmark::Arrow, piece) {
            return empty_pair(alloc, format);
        }
        let (stem, rest) = split(Landmark::Arrow, piece);
        Ok(Pair {
            stem: rich_of(alloc, format, stem)?,
            answer: text_of(alloc, behind(rest, 2))?,
        })
    }
}

impl OfPiece for Short {
    ghost piece_gives = { short_of };

    fn of_piece(
        alloc: Global,
        format: Format,
        sign: char,
        piece: &[Piece],
    ) -> Result<Short, NoMemory> {
        let (answer, feedback) = split_answer(piece);
        let text = unweighed(answer);
        let text = text_of(alloc, text)?;
        Ok(Short {
            weight: weight_of(alloc, sign, answer)?,
            pattern: Pattern::of(alloc, text.as_str())?,
            feedback: rich_of(alloc, format, feedback)?,
        })
    }
}

impl OfPiece for Num {
    ghost piece_gives = { num_of };

    fn of_piece(
        alloc: Global,
        format: Format,
        sign: char,
        piece: &[Piece],
    ) -> Result<Num, NoMemory> {
        let (answer, feedback) = split_answer(piece);
        let text = unweighed(answer);
        let extent = extent_of(alloc, text)?;
        Ok(Num {
            weight: weight_of(alloc, sign, answer)?,
            extent: extent.unwrap_or(Extent::Any),
            feedback: rich_of(alloc, format, feedback)?,
        })
    }
}

/// The pair of a piece without an arrow.
fn empty_pair(alloc: Global, format: Format) -> Result<Pair, NoMemory>
    ensures { IfOk result (λ made. made ≡ record { stem = record { format = format; text = [] }; answer = [] }) }
{
    Ok(Pair {
        stem: Rich {
            format,
            text: Text::of(alloc, "")?,
        },
        answer: Text::of(alloc, "")?,
    })
}

// ---- pieces

/// What the pieces of marks are read as, where those begin at a landmark, and the first may begin without, as if behind a
/// sign.
fn of_pieces<T: OfPiece>(
    alloc: Global,
    format: Format,
    begins: Landmark,
    sign: char,
    marks: &[Piece],
) -> Result<Listed<T>, NoMemory>
    ensures { IfOk result (λ made. made ≡ map (T.piece_gives format) (pieces (is_at begins) sign marks.now)) }
{
    let mut items = Vec::new(alloc);
    let Some((mut sign, mut rest)) = first_piece(begins, sign, marks) else {
        return Ok(Listed { items });
    };
    loop {
        let (piece, next) = split_piece(begins, rest);
        items.push(T::of_piece(alloc, format, sign, piece)?)?;
        match next {
            Some((next_sign, after)) => {
                sign = next_sign;
                rest = after;
            }
            None => return Ok(Listed { items }),
        }
    }
}

/// The answers of a numerical question, the last of which may be that for every other number.
fn numbers_of(alloc: Global, format: Format, answers: &[Piece]) -> Result<Listed<Num>, NoMemory>
    ensures { IfOk result (λ made. made ≡ map (num_of format) (pieces_of sort.Numerical answers.now) ++ other_of format (others answers.now)) }
{
    let (numbers, others) = split(Landmark::Others, behind(answers, 1));
    let made = of_pieces(alloc, format, Landmark::Equals, '=', numbers)?;
    with_other(alloc, format, made, others)
}

/// Answers, with that for every other number behind them, where there is feedback for it.
fn with_other(
    alloc: Global,
    format: Format,
    mut answers: Listed<Num>,
    others: &[Piece],
) -> Result<Listed<Num>, NoMemory>
    ensures { IfOk result (λ made. made ≡ answers ++ other_of format others.now) }
{
    if others.is_empty() {
        return Ok(answers);
    }
    answers.items.push(Num {
        weight: Fraction(0),
        extent: Extent::Any,
        feedback: rich_of(alloc, format, behind(others, 2))?,
    })?;
    Ok(answers)
}

// ---- kinds

/// What answers ask for, by what kind of question they belong to.
pub(crate) fn kind_in(
    alloc: Global,
    format: Format,
    answers: &[Piece],
    sort: Sort,
) -> Result<Kind, NoMemory>
    ensures { IfOk result (λ made. made ≡ kind_in format answers.now sort) }
{
    match sort {
        Sort::Description => Ok(Kind::Description),
        Sort::Essay => Ok(Kind::Essay),
        Sort::TrueFalse(right) => true_false(alloc, format, answers, right),
        Sort::One => Ok(Kind::One(of_pieces(alloc, format, Landmark::Choice, '~', answers)?)),
        Sort::Several => Ok(Kind::Several(of_pieces(
            alloc,
            format,
            Landmark::Choice,
            '~',
            answers,
        )?)),
        Sort::Matching => Ok(Kind::Matching(of_pieces(
            alloc,
            format,
            Landmark::Equals,
            '=',
            answers,
        )?)),
        Sort::ShortAnswer => Ok(Kind::ShortAnswer(of_pieces(
            alloc,
            format,
            Landmark::Equals,
            '=',
            answers,
        )?)),
        Sort::Numerical => Ok(Kind::Numerical(numbers_of(alloc, format, answers)?)),
    }
}

/// A true-false question, with the feedback for a wrong answer first.
fn true_false(
    alloc: Global,
    format: Format,
    answers: &[Piece],
    right: bool,
) -> Result<Kind, NoMemory>
    ensures { IfOk result (λ made. made ≡ kind_in format answers.now (sort.TrueFalse right)) }
{
    let (_, feedback) = split_answer(answers);
    let (on_wrong, _) = split(Landmark::Hash, feedback);
    let (_, on_right) = split_answer(feedback);
    Ok(Kind::TrueFalse {
        right,
        on_wrong: rich_of(alloc, format, on_wrong)?,
        on_right: rich_of(alloc, format, on_right)?,
    })
}
