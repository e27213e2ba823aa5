//! Exact numbers of a quiz, each rounded once.
#![tactic(auto)]

mod decimal;
mod digits;
mod marks;
mod percent;
mod quotient;
mod reading;
mod tone;
mod units;

pub use decimal::is_space;
pub use marks::{fraction_of, grade_of, mark_of, rescale, share};
pub use reading::BadNumber;
pub use tone::{Tone, tone_of};
pub use units::{Decimal, Fraction, Grade, Mark, ONE};
