//! How marks, grades, numbers and attempts are spelled.

ghost use Rattle.std.specs.Prelude.{◌≡◌, ◌^◌, ◌<◌, ◌++◌, List, ℕ, OnOk, OnErr, IfOk, string_bytes};
ghost use Rattle.qz_decimal.specs.Reading.{sign_text};
ghost use Rattle.qz_grading.specs.Words.{mark_text, units_text, grade_text, grade_units_text, decimal_text, short_natural, behind_point, without_zeros, in_digits, attempt_word};

use crate::AttemptId;
use qz_decimal::{Decimal, Grade, Mark, ONE};
use qz_text::{NoMemory, Text};
use std::alloc::Global;

/// A value with one spelling.
pub trait Spelled: Sized {
    /// The bytes of the spelling.
    ghost spelling: { Self → List ℕ };

    /// The spelling.
    fn text(self, alloc: Global) -> Result<Text, NoMemory>
        ensures { IfOk result (λ text. text ≡ spelling self) };

    /// Adds the spelling at the end of a text. Where memory is wanting the text is as it was.
    fn spell_onto(self, out: &mut String) -> Result<(), NoMemory>
        ensures added { OnOk result (string_bytes out.new ≡ string_bytes out.old ++ spelling self) }
        ensures unchanged { OnErr result (string_bytes out.new ≡ string_bytes out.old) }
    {
        let spelled = self.text(*out.allocator())?;
        out.push_str(spelled.as_str())?;
        Ok(())
    }
}

/// The units in a mark of 1.
const UNITS: u64 = ONE as u64;

/// The units in a grade of 1.
const GRADE_UNITS: u128 = 100_000;

/// The units in a number of 1.
const NUMBER_UNITS: u128 = 10_000_000_000;

/// A minus before a number below 0.
fn sign_onto(out: &mut String, negative: bool) -> Result<(), NoMemory>
    ensures { OnOk result (string_bytes out.new ≡ string_bytes out.old ++ sign_text negative) }
{
    if negative {
        out.push_str("-")?;
    }
    Ok(())
}

/// The whole part, a point and seven decimals.
fn units_onto(out: &mut String, units: u64) -> Result<(), NoMemory>
    ensures { OnOk result (string_bytes out.new ≡ string_bytes out.old ++ units_text units) }
{
    let whole = units / UNITS;
    let part = units % UNITS;
    write!(out, "{whole}.{part:07}")?;
    Ok(())
}

/// An optional `-`, the whole part, a point and seven decimals, as `-6.0000000`.
impl Spelled for Mark {
    ghost spelling = { mark_text };

    fn text(self, alloc: Global) -> Result<Text, NoMemory> {
        let mut items = String::new(alloc);
        sign_onto(&mut items, self.0 < 0)?;
        units_onto(&mut items, self.0.unsigned_abs())?;
        Ok(Text { items })
    }
}

/// The whole part, a point and five decimals.
fn grade_units_onto(out: &mut String, units: u128) -> Result<(), NoMemory>
    ensures { OnOk result (string_bytes out.new ≡ string_bytes out.old ++ grade_units_text units) }
{
    let whole = units / GRADE_UNITS;
    let part = (units % GRADE_UNITS) as u64;
    write!(out, "{whole}.{part:05}")?;
    Ok(())
}

/// An optional `-`, the whole part, a point and five decimals, as `7.25000`.
impl Spelled for Grade {
    ghost spelling = { grade_text };

    fn text(self, alloc: Global) -> Result<Text, NoMemory> {
        let mut items = String::new(alloc);
        sign_onto(&mut items, self.0 < 0)?;
        grade_units_onto(&mut items, self.0.unsigned_abs())?;
        Ok(Text { items })
    }
}

/// A point and decimals, of which the last isn't zero.
fn decimals_onto(out: &mut String, part: u64) -> Result<(), NoMemory>
    requires some { 0 < part }
    requires ten { part < 10 ^ 10 }
    ensures { OnOk result (string_bytes out.new ≡ string_bytes out.old ++ behind_point (without_zeros (in_digits 10 part))) }
{
    let mut digits = part;
    let mut places: usize = 10;
    while digits % 10 == 0 {
        digits /= 10;
        places -= 1;
    }
    write!(out, ".{digits:0places$}")?;
    Ok(())
}

/// The whole part, and the decimals where there are any.
fn size_onto(out: &mut String, units: u128) -> Result<(), NoMemory>
    ensures { OnOk result (string_bytes out.new ≡ string_bytes out.old ++ short_natural 10 units) }
{
    let whole = units / NUMBER_UNITS;
    let part = (units % NUMBER_UNITS) as u64;
    write!(out, "{whole}")?;
    if part == 0 {
        return Ok(());
    }
    decimals_onto(out, part)
}

/// An optional `-`, the whole part, and where the rest isn't zero a point and the decimals without zeros at their end, as
/// `-0.05`.
impl Spelled for Decimal {
    ghost spelling = { decimal_text };

    fn text(self, alloc: Global) -> Result<Text, NoMemory> {
        let mut items = String::new(alloc);
        sign_onto(&mut items, self.0 < 0)?;
        size_onto(&mut items, self.0.unsigned_abs())?;
        Ok(Text { items })
    }
}

/// An attempt as `USER.NTH`.
pub fn attempt_onto(out: &mut String, attempt: AttemptId) -> Result<(), NoMemory>
    ensures { OnOk result (string_bytes out.new ≡ string_bytes out.old ++ attempt_word attempt) }
{
    let user = attempt.user;
    let nth = attempt.nth;
    write!(out, "{user}.{nth}")?;
    Ok(())
}
