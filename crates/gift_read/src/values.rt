//! The weights and numbers that marks tell.

ghost use Rattle.std.specs.Prelude.{◌≡◌, IfOk};
ghost use Rattle.std.specs.List.{list_all};
ghost use Rattle.gift_read.specs.Values.{without_minus, is_figure, is_figures, percent_marks, is_weighed, unweighed, weight_told, own_weight, weight_of, number_of, near, between, extent_of};

use crate::places::{Landmark, behind, character, front, occurs, split, trimmed};
use crate::texts::{spelled, spells};
use gift_lex::Piece;
use qz_decimal::{Decimal, Fraction, ONE};
use qz_grading::Extent;
use qz_text::NoMemory;
use std::alloc::Global;

// ---- weights

/// Whether an answer begins with figures between two percent signs.
pub(crate) fn is_weighed(answer: &[Piece]) -> bool
    ensures { result ≡ is_weighed answer.now }
{
    if !Landmark::Percent.is_at(answer) || !occurs(Landmark::Percent, behind(answer, 1)) {
        return false;
    }
    is_figures(percent_marks(answer))
}

/// What stands between a percent sign at the front and the next.
fn percent_marks(answer: &[Piece]) -> &[Piece]
    ensures { result.now ≡ percent_marks answer.now }
{
    split(Landmark::Percent, behind(answer, 1)).0
}

/// An answer without the figures and percent signs that it begins with, if any.
pub(crate) fn unweighed(answer: &[Piece]) -> &[Piece]
    ensures { result.now ≡ unweighed answer.now }
{
    if !is_weighed(answer) {
        return answer;
    }
    behind(answer, percent_marks(answer).len() + 2)
}

/// Whether marks are digits and points, of which there is one or more, behind a minus or none.
fn is_figures(marks: &[Piece]) -> bool
    ensures { result ≡ is_figures marks.now }
{
    let figures = without_minus(marks);
    !figures.is_empty() && are_figures(figures)
}

fn are_figures(marks: &[Piece]) -> bool
    ensures { result ≡ list_all is_figure marks.now }
{
    marks.iter().all(|mark| is_figure(*mark))
}

fn without_minus(marks: &[Piece]) -> &[Piece]
    ensures { result.now ≡ without_minus marks.now }
{
    match marks {
        [mark, after @ ..] if character(*mark) == '-' => after,
        _ => marks,
    }
}

fn is_figure(mark: Piece) -> bool
    ensures { result ≡ is_figure mark }
{
    matches!(character(mark), '0'..='9' | '.')
}

/// The weight that an answer begins with, if any.
pub(crate) fn weight_told(alloc: Global, answer: &[Piece]) -> Result<Option<Fraction>, NoMemory>
    ensures { IfOk result (λ told. told ≡ weight_told answer.now) }
{
    let text = spelled(alloc, front(answer, percent_marks(answer).len() + 2))?;
    Ok(Fraction::of_percent(text.as_bytes()))
}

/// What a sign weighs where no weight is written: 1 behind `=`, and 0 behind `~`.
fn own_weight(sign: char) -> Fraction
    ensures { result ≡ own_weight sign }
{
    if sign == '=' {
        Fraction(ONE)
    } else {
        Fraction(0)
    }
}

/// The weight of an answer behind a sign. Where it begins with the form of a weight that is none, it counts as 0.
pub(crate) fn weight_of(alloc: Global, sign: char, answer: &[Piece]) -> Result<Fraction, NoMemory>
    ensures { IfOk result (λ made. made ≡ weight_of sign answer.now) }
{
    if !is_weighed(answer) {
        return Ok(own_weight(sign));
    }
    let told = weight_told(alloc, answer)?;
    Ok(told.unwrap_or(Fraction(0)))
}

// ---- numbers

/// The number that marks spell, if any.
fn number_of(alloc: Global, marks: &[Piece]) -> Result<Option<Decimal>, NoMemory>
    ensures { IfOk result (λ told. told ≡ number_of marks.now) }
{
    let text = spelled(alloc, marks)?;
    Ok(Decimal::read(text.as_bytes()))
}

/// A number and a tolerance, which is no less than 0.
fn near(centre: Option<Decimal>, slack: Option<Decimal>) -> Option<Extent>
    ensures { result ≡ near centre slack }
{
    let centre = centre?;
    let slack = slack?;
    if 0 <= slack.0 {
        Some(Extent::Near { centre, slack })
    } else {
        None
    }
}

/// Two numbers, the first not greater.
fn between(low: Option<Decimal>, high: Option<Decimal>) -> Option<Extent>
    ensures { result ≡ between low high }
{
    let low = low?;
    let high = high?;
    if low.0 <= high.0 {
        Some(Extent::Between { low, high })
    } else {
        None
    }
}

/// Which numbers marks tell: `*`, two numbers with `..` between them, a number, `:` and a tolerance, or a number.
pub(crate) fn extent_of(alloc: Global, marks: &[Piece]) -> Result<Option<Extent>, NoMemory>
    ensures { IfOk result (λ told. told ≡ extent_of marks.now) }
{
    if spells(b"*", trimmed(marks)) {
        return Ok(Some(Extent::Any));
    }
    if occurs(Landmark::Points, marks) {
        let (low, rest) = split(Landmark::Points, marks);
        let low = number_of(alloc, low)?;
        return Ok(between(low, number_of(alloc, behind(rest, 2))?));
    }
    if occurs(Landmark::Colon, marks) {
        let (centre, rest) = split(Landmark::Colon, marks);
        let centre = number_of(alloc, centre)?;
        return Ok(near(centre, number_of(alloc, behind(rest, 1))?));
    }
    Ok(near(number_of(alloc, marks)?, Some(Decimal(0))))
}
