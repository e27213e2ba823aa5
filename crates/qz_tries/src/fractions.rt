//! Fractions: which are right, and what penalties leave of them.

ghost use Rattle.std.specs.Prelude.{◌≡◌, pos, neg_ℤ, ◌-ℤ◌, ◌*ℤ◌, ◌≤ℤ◌};
ghost use Rattle.qz_decimal.specs.Numbers.{one, IsWithin};
ghost use Rattle.qz_decimal.specs.Reading.{IsWrittenFraction};
ghost use Rattle.qz_grading.specs.Behaviours.{is_right};

use qz_decimal::{Fraction, Tone, tone_of};

/// Whether a fraction is that of a right answer.
pub(crate) fn is_right(fraction: Fraction) -> bool
    ensures { result ≡ is_right fraction }
{
    tone_of(fraction) == Tone::Right
}

/// What so many penalties leave of a fraction. It may be below 0.
pub(crate) fn reduced(fraction: Fraction, penalties: u32, penalty: Fraction) -> Fraction
    requires fraction { IsWithin (neg_ℤ (pos one)) (pos one) fraction }
    requires penalty { IsWrittenFraction penalty }
    ensures value { result ≡ fraction -ℤ pos penalties *ℤ penalty }
    ensures at_most_one { result ≤ℤ pos one }
{
    Fraction(fraction.0 - i64::from(penalties) * penalty.0)
}
