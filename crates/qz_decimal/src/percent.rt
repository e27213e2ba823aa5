//! Weights of answers, which are written in percent.
ghost use Rattle.std.specs.Prelude.{◌≡◌, ◌↔◌, ℤ, Some, IsNone};
ghost use Rattle.std.specs.Option.{option_copied};
ghost use Rattle.qz_decimal.specs.Percent.{between_percents, weight_in, IsWeight};

use crate::reading::{Form, WHOLE_FRACTION, read_within};
use crate::units::Fraction;

impl Fraction {
    /// Reads a weight as Moodle's GIFT format has it: `%`, an optional `-`, one to three digits,
    /// optionally a point and up to five digits, and `%`. It is from -100% to 100%, and `None` is
    /// any other text.
    pub fn of_percent(text: &[u8]) -> Option<Fraction>
        ensures value { result ≡ weight_in text.now }
        ensures found { (units : ℤ) → (result ≡ Some units) ↔ IsWeight text.now units }
        ensures none { IsNone result ↔ ((units : ℤ) → ¬ IsWeight text.now units) }
    {
        read_weight(text)
    }
}

/// Three whole digits, and five decimals behind a point, which may stand alone. Its units, 10^-5 of
/// a percent, are those of a fraction.
const PERCENT_FORM: Form = Form {
    whole: 3,
    places: 5,
    bare_point: true,
};

#[tactic(auto, unfolding(crate::specs::Percent::weight_in))]
fn read_weight(text: &[u8]) -> Option<Fraction>
    ensures { result ≡ weight_in text.now }
{
    let number = between_percents(text)?;
    let units = read_within(number, PERCENT_FORM, -WHOLE_FRACTION, WHOLE_FRACTION).ok()?;
    Some(Fraction(units as i64))
}

/// What stands between the two `%` at a text's ends.
fn between_percents(text: &[u8]) -> Option<&[u8]>
    ensures { option_copied result ≡ between_percents text.now }
{
    match text {
        [b'%', number @ .., b'%'] => Some(number),
        _ => None,
    }
}
