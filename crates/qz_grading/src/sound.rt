//! Which kinds are sound: neither too many parts nor too few, and each as it must be.

ghost use Rattle.std.specs.Prelude.{◌≡◌, ◌↔◌, IsTrue};
ghost use Rattle.qz_grading.specs.Questions.{is_weight, is_short_number, is_extent, parts, least_parts, are_weighed, are_weighed_shorts, are_weighed_extents, has_numbers_in_range, no_blank_choice, no_blank_answer, no_blank_pattern, has_no_blank, some_choice_right, has_right_choice, has_stem, IsSound};

use crate::matching::{is_blank, stem_count};
use crate::{Choice, Extent, Kind, MOST_PARTS, Num, Pair, Short};
use qz_decimal::{Decimal, Fraction, ONE};

/// A number in units of 10^-10 that is no longer short: it has 16 whole digits.
const LONG: u128 = 10_000_000_000_000_000_000_000_000;

/// Whether a kind is sound, as each question of a bank is.
///
/// It has at most 64 choices, pairs or answers, and at least two choices or pairs, or one answer. Weights are from -1 to 1.
/// Numbers have at most 15 whole digits, tolerances are no less than 0, and the ends of ranges stand in order. No choice,
/// pattern or answer of a pair is blank. A single choice has a choice of weight 1, and a matching question a stem.
pub fn is_sound(kind: &Kind) -> bool
    ensures { IsTrue result ↔ IsSound kind.now }
{
    let parts = parts(kind);
    parts <= MOST_PARTS
        && least_parts(kind) <= parts
        && has_numbers_in_range(kind)
        && has_no_blank(kind)
        && has_right_choice(kind)
        && has_stem(kind)
}

/// How many choices, pairs or answers a kind has.
pub fn parts(kind: &Kind) -> usize
    ensures { result ≡ parts kind.now }
{
    match kind {
        Kind::One(choices) | Kind::Several(choices) => choices.as_slice().len(),
        Kind::Matching(pairs) => pairs.as_slice().len(),
        Kind::ShortAnswer(answers) => answers.as_slice().len(),
        Kind::Numerical(answers) => answers.as_slice().len(),
        _ => 0,
    }
}

/// The fewest of them that a sound kind may have.
pub fn least_parts(kind: &Kind) -> usize
    ensures { result ≡ least_parts kind.now }
{
    match kind {
        Kind::One(_) | Kind::Several(_) | Kind::Matching(_) => 2,
        Kind::ShortAnswer(_) | Kind::Numerical(_) => 1,
        _ => 0,
    }
}

fn is_weight(weight: Fraction) -> bool
    ensures { result ≡ is_weight weight }
{
    -ONE <= weight.0 && weight.0 <= ONE
}

fn is_short_number(number: Decimal) -> bool
    ensures { result ≡ is_short_number number }
{
    number.0.unsigned_abs() < LONG
}

fn is_extent(extent: Extent) -> bool
    ensures { result ≡ is_extent extent }
{
    match extent {
        Extent::Any => true,
        Extent::Near { centre, slack } => {
            is_short_number(centre) && is_short_number(slack) && 0 <= slack.0
        }
        Extent::Between { low, high } => {
            is_short_number(low) && is_short_number(high) && low.0 <= high.0
        }
    }
}

fn are_weighed(choices: &[Choice]) -> bool
    ensures { result ≡ are_weighed choices.now }
{
    choices.iter().all(|choice| is_weight(choice.weight))
}

fn are_weighed_shorts(answers: &[Short]) -> bool
    ensures { result ≡ are_weighed_shorts answers.now }
{
    answers.iter().all(|answer| is_weight(answer.weight))
}

fn are_weighed_extents(answers: &[Num]) -> bool
    ensures { result ≡ are_weighed_extents answers.now }
{
    answers.iter().all(|answer| is_weight(answer.weight) && is_extent(answer.extent))
}

fn has_numbers_in_range(kind: &Kind) -> bool
    ensures { result ≡ has_numbers_in_range kind.now }
{
    match kind {
        Kind::One(choices) | Kind::Several(choices) => are_weighed(choices.as_slice()),
        Kind::ShortAnswer(answers) => are_weighed_shorts(answers.as_slice()),
        Kind::Numerical(answers) => are_weighed_extents(answers.as_slice()),
        _ => true,
    }
}

fn no_blank_choice(choices: &[Choice]) -> bool
    ensures { result ≡ no_blank_choice choices.now }
{
    choices.iter().all(|choice| !is_blank(&choice.text.text))
}

fn no_blank_answer(pairs: &[Pair]) -> bool
    ensures { result ≡ no_blank_answer pairs.now }
{
    pairs.iter().all(|pair| !is_blank(&pair.answer))
}

fn no_blank_pattern(answers: &[Short]) -> bool
    ensures { result ≡ no_blank_pattern answers.now }
{
    answers
        .iter()
        .all(|answer| !is_blank(answer.pattern.text()))
}

/// Whether no choice, pattern or answer of a pair is blank.
pub fn has_no_blank(kind: &Kind) -> bool
    ensures { result ≡ has_no_blank kind.now }
{
    match kind {
        Kind::One(choices) | Kind::Several(choices) => no_blank_choice(choices.as_slice()),
        Kind::Matching(pairs) => no_blank_answer(pairs.as_slice()),
        Kind::ShortAnswer(answers) => no_blank_pattern(answers.as_slice()),
        _ => true,
    }
}

fn some_choice_right(choices: &[Choice]) -> bool
    ensures { result ≡ some_choice_right choices.now }
{
    choices.iter().any(|choice| choice.weight.0 == ONE)
}

/// Whether some choice is wholly right, where one choice is to be picked.
pub fn has_right_choice(kind: &Kind) -> bool
    ensures { result ≡ has_right_choice kind.now }
{
    match kind {
        Kind::One(choices) => some_choice_right(choices.as_slice()),
        _ => true,
    }
}

/// Whether some stem isn't blank, where there are stems.
pub fn has_stem(kind: &Kind) -> bool
    ensures { result ≡ has_stem kind.now }
{
    match kind {
        Kind::Matching(pairs) => stem_count(pairs.as_slice()) > 0,
        _ => true,
    }
}
