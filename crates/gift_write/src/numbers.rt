//! Weights of answers, and the numbers of numerical answers.

ghost use Rattle.std.specs.Prelude.{◌≡◌, ◌++◌, pos, ◌*ℤ◌, OnOk, string_bytes};
ghost use Rattle.qz_grading.specs.Canonical.{short_number, weight_text, decimal_text, extent_text};

use qz_decimal::{Decimal, Fraction};
use qz_grading::{Extent, Spelled};
use qz_text::NoMemory;

/// A weight in percent.
fn percent_of(weight: Fraction) -> Decimal
    ensures { result ≡ weight *ℤ pos 100000 }
{
    // A unit of a weight is 10^-5 of a percent, and that of a number is 10^-10.
    Decimal(i128::from(weight.0) * 100_000)
}

fn percent_onto(out: &mut String, weight: Fraction) -> Result<(), NoMemory>
    ensures { OnOk result (string_bytes out.new ≡ string_bytes out.old ++ short_number 5 weight) }
{
    percent_of(weight).spell_onto(out)
}

/// Adds a weight in percent, without zeros at its end.
pub(crate) fn weight_onto(out: &mut String, weight: Fraction) -> Result<(), NoMemory>
    ensures { OnOk result (string_bytes out.new ≡ string_bytes out.old ++ weight_text weight) }
{
    out.push_str("%")?;
    percent_onto(out, weight)?;
    Ok(out.push_str("%")?)
}

/// Adds a number, without zeros at its end.
fn decimal_onto(out: &mut String, value: Decimal) -> Result<(), NoMemory>
    ensures { OnOk result (string_bytes out.new ≡ string_bytes out.old ++ decimal_text value) }
{
    value.spell_onto(out)
}

/// Adds the numbers that an answer takes: a star, a number, a number with a tolerance, or two numbers.
pub(crate) fn extent_onto(out: &mut String, extent: Extent) -> Result<(), NoMemory>
    ensures { OnOk result (string_bytes out.new ≡ string_bytes out.old ++ extent_text extent) }
{
    match extent {
        Extent::Any => Ok(out.push_str("*")?),
        Extent::Near { centre, slack } => {
            decimal_onto(out, centre)?;
            if slack == Decimal(0) {
                return Ok(());
            }
            out.push_str(":")?;
            decimal_onto(out, slack)
        }
        Extent::Between { low, high } => {
            decimal_onto(out, low)?;
            out.push_str("..")?;
            decimal_onto(out, high)
        }
    }
}
