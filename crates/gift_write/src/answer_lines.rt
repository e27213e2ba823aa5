//! The lines of an answer part: a choice, a pair or an answer each.

ghost use Rattle.std.specs.Prelude.{◌≡◌, ◌++◌, [], ◌∷◌, ℕ, List, OnOk, string_bytes, codes, flat_map};
ghost use Rattle.qz_grading.specs.declared.question.Format.{Format};
ghost use Rattle.qz_grading.specs.Canonical.{rich_behind, weight_if_needed, tilde_choice, equals_choice, single_choices, pair_piece, short_piece, num_piece};

use crate::escaping::{Escape, text_onto};
use crate::numbers::{extent_onto, weight_onto};
use crate::rich::{begins_with, rich_behind_onto, rich_onto};
use qz_decimal::{Fraction, ONE};
use qz_grading::{Choice, Format, Num, Pair, Short};
use qz_text::NoMemory;

/// The weights that a choice has where none is written: behind an equals sign and behind a tilde.
const RIGHT: Fraction = Fraction(ONE);

const WRONG: Fraction = Fraction(0);

/// What an answer part has a line of.
pub(crate) trait AnswerLine {
    /// Its line, where a text without a format mark has this format.
    ghost line: { Format → Self → List ℕ };

    /// Adds its line.
    fn line_onto(&self, out: &mut String, default: Format) -> Result<(), NoMemory>
        ensures { OnOk result (string_bytes out.new ≡ string_bytes out.old ++ line default self.now) };
}

/// Adds lines, one after the other.
pub(crate) fn lines_onto<L: AnswerLine>(
    out: &mut String,
    default: Format,
    lines: &[L],
) -> Result<(), NoMemory>
    ensures { OnOk result (string_bytes out.new
        ≡ string_bytes out.old ++ flat_map (L.line default) lines.now) }
{
    for line in lines {
        line.line_onto(out, default)?;
    }
    Ok(())
}

/// Adds what stands before the answer of a line: a tab, its sign, and its weight where it isn't the sign's own or where
/// the answer begins with a percent sign.
fn opening_onto(
    out: &mut String,
    sign: &str,
    own: Fraction,
    weight: Fraction,
    answer: &[u8],
) -> Result<(), NoMemory>
    ensures { OnOk result (string_bytes out.new
        ≡ string_bytes out.old ++ 9 ∷ (sign.now ++ weight_if_needed own weight answer.now)) }
{
    out.push_str("\t")?;
    out.push_str(sign)?;
    if own == weight && !begins_with(b'%', answer) {
        return Ok(());
    }
    weight_onto(out, weight)
}

/// Adds what stands behind the answer of a line: its feedback and a line feed.
fn closing_onto(
    out: &mut String,
    default: Format,
    feedback: &qz_grading::Rich,
) -> Result<(), NoMemory>
    ensures { OnOk result (string_bytes out.new
        ≡ string_bytes out.old ++ (rich_behind (codes "#") default feedback.now ++ 10 ∷ [])) }
{
    rich_behind_onto(out, "#", default, feedback)?;
    Ok(out.push_str("\n")?)
}

/// A choice behind a tilde.
impl AnswerLine for Choice {
    ghost line = { tilde_choice };

    fn line_onto(&self, out: &mut String, default: Format) -> Result<(), NoMemory> {
        opening_onto(out, "~", WRONG, self.weight, self.text.text.as_bytes())?;
        rich_onto(out, default, &self.text)?;
        closing_onto(out, default, &self.feedback)
    }
}

/// Adds a choice behind an equals sign.
fn right_choice_onto(out: &mut String, default: Format, choice: &Choice) -> Result<(), NoMemory>
    ensures { OnOk result (string_bytes out.new ≡ string_bytes out.old ++ equals_choice default choice.now) }
{
    opening_onto(out, "=", RIGHT, choice.weight, choice.text.text.as_bytes())?;
    rich_onto(out, default, &choice.text)?;
    closing_onto(out, default, &choice.feedback)
}

/// Adds the choices of which one is to be picked: the first that is wholly right behind an equals sign, and any other
/// behind a tilde.
pub(crate) fn single_choices_onto(
    out: &mut String,
    default: Format,
    choices: &[Choice],
) -> Result<(), NoMemory>
    ensures { OnOk result (string_bytes out.new
        ≡ string_bytes out.old ++ single_choices default choices.now) }
{
    let mut rest = choices;
    while let [choice, after @ ..] = rest {
        if choice.weight == RIGHT {
            right_choice_onto(out, default, choice)?;
            return lines_onto(out, default, after);
        }
        choice.line_onto(out, default)?;
        rest = after;
    }
    Ok(())
}

/// A stem and its answer.
impl AnswerLine for Pair {
    ghost line = { pair_piece };

    fn line_onto(&self, out: &mut String, default: Format) -> Result<(), NoMemory> {
        out.push_str("\t=")?;
        rich_onto(out, default, &self.stem)?;
        out.push_str(" -> ")?;
        text_onto(out, Escape::Signs, self.answer.as_str())?;
        Ok(out.push_str("\n")?)
    }
}

/// A short answer behind an equals sign.
impl AnswerLine for Short {
    ghost line = { short_piece };

    fn line_onto(&self, out: &mut String, default: Format) -> Result<(), NoMemory> {
        let pattern = self.pattern.text();
        opening_onto(out, "=", RIGHT, self.weight, pattern.as_bytes())?;
        text_onto(out, Escape::Signs, pattern.as_str())?;
        closing_onto(out, default, &self.feedback)
    }
}

/// A numerical answer behind an equals sign.
impl AnswerLine for Num {
    ghost line = { num_piece };

    fn line_onto(&self, out: &mut String, default: Format) -> Result<(), NoMemory> {
        opening_onto(out, "=", RIGHT, self.weight, b"")?;
        extent_onto(out, self.extent)?;
        closing_onto(out, default, &self.feedback)
    }
}
