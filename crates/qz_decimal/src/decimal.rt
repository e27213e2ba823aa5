//! Numbers of numerical questions and of their answers.
ghost use Rattle.std.specs.Prelude.{◌≡◌, ◌+◌, ◌*◌, ◌^◌, ◌<◌, ◌≤◌, ◌↔◌, ◌++◌, length, ℤ, Some, IsNone, IsTrue, IfSome};
ghost use Rattle.std.specs.Option.{option_map};
ghost use Rattle.std.specs.Str.{all_ascii_digits};
ghost use Rattle.std.specs.Str.Parse.{digits_value};
ghost use Rattle.qz_decimal.specs.Reading.{has_minus};
ghost use Rattle.qz_decimal.specs.Decimals.{is_space, after_blanks, after_sign, first_decimals, after_decimals, digits_in, exponent_in, tens_in, signed_tens, short_size, short_quotient, exact_size, decimal_in, IsDecimal};

use crate::digits::{number_of, split_digits, with_zeros};
use crate::quotient::with_sign;
use crate::units::Decimal;

impl Decimal {
    /// Reads an optional `+` or `-`, 1 to 30 digits with at most one point among, before or after
    /// them, and optionally `e` or `E`, an optional sign and one to three digits. Spaces, tabs and
    /// line feeds around all this are dropped.
    ///
    /// The number has at most 15 whole digits and 10 decimals, exactly. `None` is any other text.
    pub fn read(text: &[u8]) -> Option<Decimal>
        ensures value { result ≡ decimal_in text.now }
        ensures found { (units : ℤ) → (result ≡ Some units) ↔ IsDecimal text.now units }
        ensures none { IsNone result ↔ ((units : ℤ) → ¬ IsDecimal text.now units) }
    {
        read_decimal(text)
    }
}

/// At most so many digits stand before an exponent, and in one.
const MOST_DIGITS: u32 = 30;

const MOST_EXPONENT_DIGITS: u32 = 3;

/// The decimals of a unit.
const PLACES: u32 = 10;

/// The digits of the greatest size: 15 whole digits and the decimals.
const SIZE_DIGITS: u32 = 15 + PLACES;

/// The digits of a number as a whole number, and how many of them stand behind the point.
#[derive(Clone, Copy)]
struct Digits {
    number: u128,
    decimals: u32,
}

/// Powers of ten to multiply by and to divide by.
#[derive(Clone, Copy)]
struct Tens {
    up: u32,
    down: u32,
}

#[tactic(auto, unfolding(crate::specs::Decimals::decimal_in))]
fn read_decimal(text: &[u8]) -> Option<Decimal>
    ensures { result ≡ decimal_in text.now }
{
    let (negative, text) = strip_sign(skip_blanks(text));
    let (digits, text) = read_digits(text)?;
    let (tens, text) = read_exponent(text)?;
    if !skip_blanks(text).is_empty() {
        return None;
    }
    let size = exact_size(digits.number, PLACES + tens.up, digits.decimals + tens.down)?;
    Some(Decimal(with_sign(negative, size)))
}

/// Whether a byte is white space of a text: a space, a tab or a line feed.
pub fn is_space(byte: u8) -> bool
    ensures { result ≡ is_space byte }
{
    matches!(byte, b' ' | b'\t' | b'\n')
}

/// What follows the blanks at a text's front.
fn skip_blanks(text: &[u8]) -> &[u8]
    ensures { result.now ≡ after_blanks text.now }
{
    let count = text.iter().take_while(|byte| is_space(**byte)).count();
    text.split_at(count).1
}

/// Whether a minus stands first, and what follows the sign.
fn strip_sign(text: &[u8]) -> (bool, &[u8])
    ensures negative { result.0 ≡ has_minus text.now }
    ensures rest { result.1.now ≡ after_sign text.now }
{
    match text {
        [b'-', rest @ ..] => (true, rest),
        [b'+', rest @ ..] => (false, rest),
        _ => (false, text),
    }
}

/// The digits that a text begins with, and what follows them.
#[tactic(auto, unfolding(crate::specs::Decimals::digits_in))]
fn read_digits(text: &[u8]) -> Option<(Digits, &[u8])>
    ensures value { option_map (λ x. (x.0, x.1.now)) result ≡ digits_in text.now }
    ensures room { IfSome result (λ x. (x.0.number < 10 ^ 30) × (x.0.decimals ≤ 30)) }
{
    let (whole, rest) = split_digits(text, MOST_DIGITS);
    let (decimals, rest) = split_decimals(rest, MOST_DIGITS - whole.len() as u32);
    if whole.len() + decimals.len() == 0 {
        return None;
    }
    let digits = Digits {
        number: joined_number(whole, decimals),
        decimals: decimals.len() as u32,
    };
    Some((digits, rest))
}

/// The number that digits write with others behind them.
fn joined_number(first: &[u8], second: &[u8]) -> u128
    requires first { IsTrue (all_ascii_digits first.now) }
    requires second { IsTrue (all_ascii_digits second.now) }
    requires few { length first.now + length second.now ≤ 30 }
    ensures value { result ≡ digits_value 10 (first.now ++ second.now) }
    ensures room { result < 10 ^ 30 }
{
    with_zeros(first, second.len() as u32) + number_of(second)
}

/// The decimals behind a point at the front, at most so many, and what follows them.
fn split_decimals(text: &[u8], most: u32) -> (&[u8], &[u8])
    ensures decimals { result.0.now ≡ first_decimals most text.now }
    ensures rest { result.1.now ≡ after_decimals most text.now }
    ensures each { IsTrue (all_ascii_digits result.0.now) }
    ensures few { length result.0.now ≤ most }
{
    match text {
        [b'.', after @ ..] => split_digits(after, most),
        _ => text.split_at(0),
    }
}

/// The exponent that a text begins with, if any, and what follows it.
fn read_exponent(text: &[u8]) -> Option<(Tens, &[u8])>
    ensures value { option_map (λ x. (x.0, x.1.now)) result ≡ exponent_in text.now }
    ensures room { IfSome result (λ x. (x.0.up < 1000) × (x.0.down < 1000)) }
{
    match text {
        [b'e' | b'E', rest @ ..] => read_tens(rest),
        _ => Some((Tens { up: 0, down: 0 }, text)),
    }
}

/// What follows the letter of an exponent, and what follows that.
#[tactic(auto, unfolding(crate::specs::Decimals::tens_in))]
fn read_tens(text: &[u8]) -> Option<(Tens, &[u8])>
    ensures value { option_map (λ x. (x.0, x.1.now)) result ≡ tens_in text.now }
    ensures room { IfSome result (λ x. (x.0.up < 1000) × (x.0.down < 1000)) }
{
    let (negative, digits) = strip_sign(text);
    let (digits, rest) = split_digits(digits, MOST_EXPONENT_DIGITS);
    if digits.is_empty() {
        return None;
    }
    Some((signed_tens(negative, number_of(digits) as u32), rest))
}

fn signed_tens(negative: bool, tens: u32) -> Tens
    ensures { result ≡ signed_tens negative tens }
{
    if negative {
        Tens { up: 0, down: tens }
    } else {
        Tens { up: tens, down: 0 }
    }
}

/// `number * 10^up / 10^down`, if it is whole and has at most 25 digits.
#[tactic(auto, unfolding(crate::specs::Decimals::exact_size))]
fn exact_size(number: u128, up: u32, down: u32) -> Option<u128>
    requires { number < 10 ^ 30 }
    ensures value { result ≡ exact_size number up down }
    ensures room { IfSome result (λ size. size < 10 ^ 25) }
{
    if number == 0 {
        return Some(0);
    }
    if down <= up {
        times_tens(number, up - down)
    } else {
        over_tens(number, down - up)
    }
}

/// `number * 10^tens`, if it has at most 25 digits.
fn times_tens(number: u128, tens: u32) -> Option<u128>
    requires { 0 < number }
    ensures value { result ≡ short_size (number * 10 ^ tens) }
    ensures room { IfSome result (λ size. size < 10 ^ 25) }
{
    if tens > SIZE_DIGITS {
        return None;
    }
    if number >= 10u128.pow(SIZE_DIGITS - tens) {
        return None;
    }
    Some(number * 10u128.pow(tens))
}

/// `number / 10^tens`, if it is whole and has at most 25 digits.
fn over_tens(number: u128, tens: u32) -> Option<u128>
    requires some { 0 < number }
    requires room { number < 10 ^ 30 }
    ensures value { result ≡ short_quotient number (10 ^ tens) }
    ensures room { IfSome result (λ size. size < 10 ^ 25) }
{
    if tens > MOST_DIGITS {
        return None;
    }
    let divisor = 10u128.pow(tens);
    let size = number / divisor;
    if number % divisor != 0 || size >= 10u128.pow(SIZE_DIGITS) {
        return None;
    }
    Some(size)
}
