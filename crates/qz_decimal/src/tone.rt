//! How right a fraction is.
ghost use Rattle.std.specs.Prelude.{◌≡◌};
ghost use Rattle.qz_decimal.specs.Numbers.{tone_of};

use crate::units::{Fraction, ONE};

/// How right a response is by its fraction.
#[derive(Clone, Copy, PartialEq, Eq, Debug)]
pub enum Tone {
    /// The fraction is below 0.000001.
    Wrong,
    /// The fraction is neither wrong nor right.
    Partial,
    /// The fraction is above 0.999999.
    Right,
}

/// A fraction below it is wrong.
const LEAST_PARTIAL: i64 = 10;

/// A fraction above it is right.
const GREATEST_PARTIAL: i64 = ONE - LEAST_PARTIAL;

/// How right a fraction is, with the bounds of Moodle's question engine.
pub fn tone_of(fraction: Fraction) -> Tone
    ensures { result ≡ tone_of fraction }
{
    if fraction.0 < LEAST_PARTIAL {
        Tone::Wrong
    } else if fraction.0 > GREATEST_PARTIAL {
        Tone::Right
    } else {
        Tone::Partial
    }
}
