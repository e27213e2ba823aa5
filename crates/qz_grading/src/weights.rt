//! What answers are worth.

ghost use Rattle.std.specs.Prelude.{◌≡◌, ◌≤◌, ◌&&◌, find, length, fold, map, pos, neg_ℤ, ◌+ℤ◌, ◌-ℤ◌, int_le, IfSome, IsTrue, if◌then◌else◌};
ghost use Rattle.std.specs.Option.{option_copied};
ghost use Rattle.qz_grading.specs.declared.limits.TheConstants.{MOST_PARTS};
ghost use Rattle.qz_grading.specs.declared.question.Num.{Num};
ghost use Rattle.qz_decimal.specs.Numbers.{one, IsWithin};
ghost use Rattle.qz_grading.specs.Grading.{weight_at, clamped, short_weight, takes_number, number_weight, numerical_weight};
ghost use Rattle.qz_grading.specs.Questions.{are_weighed, are_weighed_shorts, are_weighed_extents, is_short_number, is_extent};

use crate::{Choice, Extent, Num, Short};
use qz_decimal::{Decimal, Fraction, ONE};
use qz_text::Typed;

/// All or nothing.
pub(crate) fn whole_if(right: bool) -> Fraction
    ensures { result ≡ (if right then pos one else pos 0) }
{
    if right { Fraction(ONE) } else { Fraction(0) }
}

/// The weight of the choice at a place, from 1. Where there is no such choice it is 0.
pub(crate) fn weight_at(choices: &[Choice], place: u8) -> Fraction
    requires { IsTrue (are_weighed choices.now) }
    ensures value { result ≡ weight_at choices.now place }
    ensures within { IsWithin (neg_ℤ (pos one)) (pos one) result }
{
    let Some(index) = place.checked_sub(1) else {
        return Fraction(0);
    };
    match choices.get(usize::from(index)) {
        Some(choice) => choice.weight,
        None => Fraction(0),
    }
}

/// The weights of the choices at these places, added up.
fn sum_of_weights(choices: &[Choice], places: &[u8]) -> i64
    requires weights { IsTrue (are_weighed choices.now) }
    requires few { length places.now ≤ MOST_PARTS }
    ensures { result ≡ fold ◌+ℤ◌ (pos 0) (map (weight_at choices.now) places.now) }
{
    let mut sum = 0;
    for place in places {
        sum += weight_at(choices, *place).0;
    }
    sum
}

/// The sum of the weights of the choices picked, cut to 0 and 1.
pub(crate) fn weight_of_picked(choices: &[Choice], places: &[u8]) -> Fraction
    requires weights { IsTrue (are_weighed choices.now) }
    requires few { length places.now ≤ MOST_PARTS }
    ensures value { result ≡ clamped (fold ◌+ℤ◌ (pos 0) (map (weight_at choices.now) places.now)) }
    ensures within { IsWithin (pos 0) (pos one) result }
{
    Fraction(sum_of_weights(choices, places).clamp(0, ONE))
}

/// The weight of the first answer whose pattern the typed text fits, or 0.
pub(crate) fn short_weight(answers: &[Short], typed: &Typed) -> Fraction
    requires { IsTrue (are_weighed_shorts answers.now) }
    ensures value { result ≡ short_weight answers.now typed.now }
    ensures within { IsWithin (neg_ℤ (pos one)) (pos one) result }
{
    match answers.iter().find(|answer| answer.pattern.fits(typed)) {
        Some(answer) => answer.weight,
        None => Fraction(0),
    }
}

/// Whether an extent takes a number. Its ends are included.
fn takes_number(extent: Extent, number: Decimal) -> bool
    requires { IsTrue (is_extent extent) }
    ensures { result ≡ takes_number extent number }
{
    match extent {
        Extent::Any => true,
        Extent::Near { centre, slack } => is_near(centre.0, slack.0, number.0),
        Extent::Between { low, high } => is_within(low.0, high.0, number.0),
    }
}

fn is_near(centre: i128, slack: i128, number: i128) -> bool
    requires centre { IsTrue (is_short_number centre) }
    requires slack { IsTrue (is_short_number slack) }
    ensures { result ≡ (int_le (centre -ℤ slack) number && int_le number (centre +ℤ slack)) }
{
    is_within(centre - slack, centre + slack, number)
}

fn is_within(low: i128, high: i128, number: i128) -> bool
    ensures { result ≡ (int_le low number && int_le number high) }
{
    low <= number && number <= high
}

/// The first answer whose extent takes the number.
pub fn first_taking(answers: &[Num], number: Decimal) -> Option<&Num>
    requires { IsTrue (are_weighed_extents answers.now) }
    ensures first { option_copied result ≡ find (λ (a : Num). takes_number a.extent number) answers.now }
    ensures within { IfSome result (λ a. IsWithin (neg_ℤ (pos one)) (pos one) a.now.weight) }
{
    for answer in answers {
        if takes_number(answer.extent, number) {
            return Some(answer);
        }
    }
    None
}

/// The weight of the first answer whose extent takes the number, or 0.
fn number_weight(answers: &[Num], number: Decimal) -> Fraction
    requires { IsTrue (are_weighed_extents answers.now) }
    ensures value { result ≡ number_weight answers.now number }
    ensures within { IsWithin (neg_ℤ (pos one)) (pos one) result }
{
    match first_taking(answers, number) {
        Some(answer) => answer.weight,
        None => Fraction(0),
    }
}

/// The weight of the first answer whose extent takes the number typed, or 0.
pub(crate) fn numerical_weight(answers: &[Num], typed: &Typed) -> Fraction
    requires { IsTrue (are_weighed_extents answers.now) }
    ensures value { result ≡ numerical_weight answers.now typed.now }
    ensures within { IsWithin (neg_ℤ (pos one)) (pos one) result }
{
    match Decimal::read(typed.text().as_bytes()) {
        Some(number) => number_weight(answers, number),
        None => Fraction(0),
    }
}
