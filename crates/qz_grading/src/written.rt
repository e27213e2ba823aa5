//! How long numbers are written in a canonical text. No text is built.

ghost use Rattle.std.specs.Prelude.{◌≡◌, ◌+◌, ◌^◌, ◌<◌, ◌≤◌, [], ◌++◌, pos, length, codes, if◌then◌else◌};
ghost use Rattle.std.specs.Fmt.{decimal};
ghost use Rattle.std.specs.Ordering.{int_eq};
ghost use Rattle.qz_grading.specs.Canonical.{behind_point, without_zeros, short_natural, short_number, weight_text, decimal_text, extent_text};
ghost use Rattle.qz_grading.specs.Words.{in_digits};

use crate::question::Extent;
use qz_decimal::{Decimal, Fraction};

/// The decimals that a weight in percent may have, and a number.
const WEIGHT_PLACES: u32 = 5;

const NUMBER_PLACES: u32 = 10;

/// How many digits a number has.
fn digit_count(number: u128) -> usize
    ensures value { result ≡ length (decimal number) }
    ensures few { result ≤ 40 }
{
    let mut count = 1;
    let mut left = number;
    while left >= 10 {
        left /= 10;
        count += 1;
    }
    count
}

/// How long the decimals are, with the point before them and without the zeros at their end.
fn decimals_len(places: u32, part: u64) -> usize
    requires few_places { places ≤ 10 }
    requires fits { part < 10 ^ places }
    ensures value { result ≡ length (behind_point (without_zeros (in_digits places part))) }
    ensures few { result ≤ 11 }
{
    if part == 0 {
        return 0;
    }
    let mut left = places;
    let mut digits = part;
    while digits % 10 == 0 {
        digits /= 10;
        left -= 1;
    }
    left as usize + 1
}

fn natural_len(places: u32, units: u128) -> usize
    requires { places ≤ 10 }
    ensures value { result ≡ length (short_natural places units) }
    ensures few { result ≤ 51 }
{
    let one = 10u128.pow(places);
    digit_count(units / one) + decimals_len(places, (units % one) as u64)
}

fn number_len(places: u32, number: i128) -> usize
    requires { places ≤ 10 }
    ensures value { result ≡ length (short_number places number) }
    ensures few { result ≤ 52 }
{
    usize::from(number < 0) + natural_len(places, number.unsigned_abs())
}

pub(crate) fn weight_len(weight: Fraction) -> usize
    ensures value { result ≡ length (weight_text weight) }
    ensures few { result ≤ 54 }
{
    number_len(WEIGHT_PLACES, i128::from(weight.0)) + "%%".len()
}

fn decimal_len(number: Decimal) -> usize
    ensures value { result ≡ length (decimal_text number) }
    ensures few { result ≤ 52 }
{
    number_len(NUMBER_PLACES, number.0)
}

/// A tolerance of 0 isn't written.
fn slack_len(slack: Decimal) -> usize
    ensures value { result ≡ length (if int_eq slack (pos 0) then [] else codes ":" ++ decimal_text slack) }
    ensures few { result ≤ 53 }
{
    if slack.0 == 0 {
        return 0;
    }
    ":".len() + decimal_len(slack)
}

pub(crate) fn extent_len(extent: Extent) -> usize
    ensures value { result ≡ length (extent_text extent) }
    ensures few { result ≤ 106 }
{
    match extent {
        Extent::Any => "*".len(),
        Extent::Near { centre, slack } => decimal_len(centre) + slack_len(slack),
        Extent::Between { low, high } => decimal_len(low) + "..".len() + decimal_len(high),
    }
}
