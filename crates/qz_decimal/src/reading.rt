//! Numbers as they are written: an optional minus, whole digits, and optionally a point and decimals.
ghost use Rattle.std.specs.Prelude.{◌≡◌, ◌+◌, ◌≤◌, ◌<◌, ◌^◌, ◌↔◌, ℕ, ℤ, IfOk, Ok, Err};
ghost use Rattle.qz_decimal.specs.Numbers.{IsWithin, IsQuizGrade};
ghost use Rattle.qz_decimal.specs.Reading.{mark_form, grade_form, mark_in, fraction_in, grade_in, IsWrittenMark, IsWrittenFraction, IsSpelled, SpellsOther, Stuck, decimals_at, size_at, has_minus, without_minus, units_in, units_within};

use crate::digits::{split_digits, with_zeros};
use crate::quotient::with_sign;
use crate::units::{Fraction, Grade, Mark, ONE};

/// Why a text is no number.
#[derive(Clone, Copy, PartialEq, Eq, Debug)]
pub enum BadNumber {
    /// No number is written so. The place is that of the first byte with which no number goes on,
    /// or the text's length where it ends too early.
    Malformed { place: u32 },
    /// A number is written so, but it is too small or too great.
    Range,
}

impl Mark {
    /// Reads an optional `-`, one to six digits, and optionally a point and one to seven digits.
    /// The mark is from -100,000 to 100,000.
    pub fn read(text: &[u8]) -> Result<Mark, BadNumber>
        ensures value { result ≡ mark_in text.now }
        ensures found { (units : ℤ) →
            (result ≡ Ok units) ↔ (IsSpelled mark_form text.now units × IsWrittenMark units) }
        ensures malformed { (place : ℕ) →
            (result ≡ Err (BadNumber.Malformed place)) ↔ Stuck mark_form text.now place }
        ensures range { (result ≡ Err BadNumber.Range) ↔ SpellsOther mark_form IsWrittenMark text.now }
    {
        let units = read_within(text, MARK_FORM, -GREATEST_MARK, GREATEST_MARK)?;
        Ok(Mark(units as i64))
    }
}

impl Fraction {
    /// Reads a number in the form of a mark, from 0 to 1.
    pub fn read(text: &[u8]) -> Result<Fraction, BadNumber>
        ensures value { result ≡ fraction_in text.now }
        ensures found { (units : ℤ) →
            (result ≡ Ok units) ↔ (IsSpelled mark_form text.now units × IsWrittenFraction units) }
        ensures malformed { (place : ℕ) →
            (result ≡ Err (BadNumber.Malformed place)) ↔ Stuck mark_form text.now place }
        ensures range { (result ≡ Err BadNumber.Range) ↔ SpellsOther mark_form IsWrittenFraction text.now }
    {
        let units = read_within(text, MARK_FORM, 0, WHOLE_FRACTION)?;
        Ok(Fraction(units as i64))
    }
}

impl Grade {
    /// Reads a number in the form of a mark with at most five decimals, from 0 to 10,000.
    pub fn read(text: &[u8]) -> Result<Grade, BadNumber>
        ensures value { result ≡ grade_in text.now }
        ensures found { (units : ℤ) →
            (result ≡ Ok units) ↔ (IsSpelled grade_form text.now units × IsQuizGrade units) }
        ensures malformed { (place : ℕ) →
            (result ≡ Err (BadNumber.Malformed place)) ↔ Stuck grade_form text.now place }
        ensures range { (result ≡ Err BadNumber.Range) ↔ SpellsOther grade_form IsQuizGrade text.now }
    {
        Ok(Grade(read_within(text, GRADE_FORM, 0, GREATEST_GRADE)?))
    }
}

/// The units in a mark of 100,000.
const GREATEST_MARK: i128 = 1_000_000_000_000;

/// The units in a fraction of 1.
pub(crate) const WHOLE_FRACTION: i128 = ONE as i128;

/// The units in a grade of 10,000.
const GREATEST_GRADE: i128 = 1_000_000_000;

/// Six whole digits, and seven decimals behind a point.
const MARK_FORM: Form = Form {
    whole: 6,
    places: 7,
    bare_point: false,
};

/// Six whole digits, and five decimals behind a point.
const GRADE_FORM: Form = Form {
    whole: 6,
    places: 5,
    bare_point: false,
};

/// How a number is written.
#[derive(Clone, Copy)]
pub(crate) struct Form {
    /// At most so many whole digits; there is at least one.
    pub whole: u32,
    /// At most so many decimals.
    pub places: u32,
    /// Whether a point may stand with no decimals behind it.
    pub bare_point: bool,
}

/// The number that a text spells, in units of 10^-places, if it is in a range.
#[tactic(auto, unfolding(crate::specs::Reading::units_within))]
pub(crate) fn read_within(
    text: &[u8],
    form: Form,
    least: i128,
    greatest: i128,
) -> Result<i128, BadNumber>
    requires { form.whole + form.places ≤ 30 }
    ensures value { result ≡ units_within form least greatest text.now }
    ensures range { IfOk result (IsWithin least greatest) }
{
    let units = read_units(text, form)?;
    if units < least || greatest < units {
        return Err(BadNumber::Range);
    }
    Ok(units)
}

/// The number that a text spells, in units of 10^-places.
#[tactic(auto, unfolding(crate::specs::Reading::units_in))]
fn read_units(text: &[u8], form: Form) -> Result<i128, BadNumber>
    requires { form.whole + form.places ≤ 30 }
    ensures { result ≡ units_in form text.now }
{
    let (negative, digits) = strip_minus(text);
    let size = read_size(digits, form, u32::from(negative))?;
    Ok(with_sign(negative, size))
}

/// Whether a minus stands first, and what follows it.
fn strip_minus(text: &[u8]) -> (bool, &[u8])
    ensures negative { result.0 ≡ has_minus text.now }
    ensures rest { result.1.now ≡ without_minus text.now }
{
    match text {
        [b'-', rest @ ..] => (true, rest),
        _ => (false, text),
    }
}

/// The size of the number whose digits begin at a place of the whole text.
#[tactic(auto, unfolding(crate::specs::Reading::size_at, crate::specs::Reading::rest_at))]
fn read_size(text: &[u8], form: Form, place: u32) -> Result<u128, BadNumber>
    requires small { form.whole + form.places ≤ 30 }
    requires near { place ≤ 1 }
    ensures value { result ≡ size_at form place text.now }
    ensures room { IfOk result (λ size. size < 2 ^ 127) }
{
    let (digits, rest) = split_digits(text, form.whole);
    if digits.is_empty() {
        return Err(BadNumber::Malformed { place });
    }
    let place = place + digits.len() as u32;
    let whole = with_zeros(digits, form.places);
    match rest {
        [] => Ok(whole),
        [b'.', decimals @ ..] => Ok(whole + read_decimals(decimals, form, place + 1)?),
        [_, ..] => Err(BadNumber::Malformed { place }),
    }
}

/// The decimals, which begin at a place of the whole text and take up the rest of it.
#[tactic(auto, unfolding(crate::specs::Reading::decimals_at))]
fn read_decimals(text: &[u8], form: Form, place: u32) -> Result<u128, BadNumber>
    requires small { form.places ≤ 30 }
    requires near { place ≤ 40 }
    ensures value { result ≡ decimals_at form place text.now }
    ensures room { IfOk result (λ units. units < 10 ^ 36) }
{
    let (digits, rest) = split_digits(text, form.places);
    let count = digits.len() as u32;
    if (count == 0 && !form.bare_point) || !rest.is_empty() {
        return Err(BadNumber::Malformed {
            place: place + count,
        });
    }
    Ok(with_zeros(digits, form.places - count))
}
