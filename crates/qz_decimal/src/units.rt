//! The four kinds of numbers, each a whole number of units of its own.
ghost use Rattle.std.specs.Prelude.{ℤ};

use std::marker::Model;

/// The units in a mark or a fraction of 1.
pub const ONE: i64 = 10_000_000;

/// A mark or a max mark, in units of 10^-7.
#[derive(Clone, Copy, PartialEq, Eq, PartialOrd, Ord)]
pub struct Mark(pub i64);

/// A part of a mark, in units of 10^-7: 1 is the whole mark.
#[derive(Clone, Copy, PartialEq, Eq, PartialOrd, Ord)]
pub struct Fraction(pub i64);

/// A grade of a quiz, in units of 10^-5.
#[derive(Clone, Copy, PartialEq, Eq, PartialOrd, Ord)]
pub struct Grade(pub i128);

/// A number in a numerical question or its answer, in units of 10^-10.
#[derive(Clone, Copy, PartialEq, Eq, PartialOrd, Ord)]
pub struct Decimal(pub i128);

impl Model for Mark {
    ghost Value = { ℤ };

    ghost view = { λ mark. mark.0 };

    ghost inverse = { λ units. record { 0 = units } };
}

impl Model for Fraction {
    ghost Value = { ℤ };

    ghost view = { λ fraction. fraction.0 };

    ghost inverse = { λ units. record { 0 = units } };
}

impl Model for Grade {
    ghost Value = { ℤ };

    ghost view = { λ grade. grade.0 };

    ghost inverse = { λ units. record { 0 = units } };
}

impl Model for Decimal {
    ghost Value = { ℤ };

    ghost view = { λ decimal. decimal.0 };

    ghost inverse = { λ units. record { 0 = units } };
}
