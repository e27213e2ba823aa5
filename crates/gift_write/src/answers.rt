//! The answer part of a question.

ghost use Rattle.std.specs.Prelude.{◌≡◌, ◌++◌, [], OnOk, string_bytes, codes, if◌then◌else◌, ◌&&◌};
ghost use Rattle.qz_grading.specs.Canonical.{is_nothing, rich_text, general_line, general_behind, true_false_text, answer_part};

use crate::answer_lines::{lines_onto, single_choices_onto};
use crate::rich::{rich_behind_onto, rich_onto};
use qz_grading::{Format, Kind, Rich};
use qz_text::NoMemory;

/// Adds the answer part: nothing for a description.
pub(crate) fn answer_part_onto(
    out: &mut String,
    kind: &Kind,
    default: Format,
    general: &Rich,
) -> Result<(), NoMemory>
    ensures { OnOk result (string_bytes out.new
        ≡ string_bytes out.old ++ answer_part kind.now default general.now) }
{
    match kind {
        Kind::Description => Ok(()),
        Kind::Essay => essay_onto(out, default, general),
        Kind::TrueFalse {
            right,
            on_wrong,
            on_right,
        } => {
            truth_onto(out, *right)?;
            wrong_onto(out, default, on_wrong, on_right)?;
            rich_behind_onto(out, "#", default, on_right)?;
            rich_behind_onto(out, "####", default, general)?;
            Ok(out.push_str("}")?)
        }
        Kind::One(choices) => {
            out.push_str("{\n")?;
            single_choices_onto(out, default, choices.as_slice())?;
            close_onto(out, default, general)
        }
        Kind::Several(choices) => {
            out.push_str("{\n")?;
            lines_onto(out, default, choices.as_slice())?;
            close_onto(out, default, general)
        }
        Kind::Matching(pairs) => {
            out.push_str("{\n")?;
            lines_onto(out, default, pairs.as_slice())?;
            close_onto(out, default, general)
        }
        Kind::ShortAnswer(answers) => {
            out.push_str("{\n")?;
            lines_onto(out, default, answers.as_slice())?;
            close_onto(out, default, general)
        }
        Kind::Numerical(answers) => {
            out.push_str("{#\n")?;
            lines_onto(out, default, answers.as_slice())?;
            close_onto(out, default, general)
        }
    }
}

/// Adds the line of the general feedback, where it isn't empty, and the closing brace.
fn close_onto(out: &mut String, default: Format, general: &Rich) -> Result<(), NoMemory>
    ensures { OnOk result (string_bytes out.new
        ≡ string_bytes out.old ++ (general_line default general.now ++ codes "}")) }
{
    if !general.text.as_bytes().is_empty() {
        out.push_str("\t")?;
        rich_behind_onto(out, "####", default, general)?;
        out.push_str("\n")?;
    }
    Ok(out.push_str("}")?)
}

/// Adds the braces of an essay, with its general feedback where that isn't empty.
fn essay_onto(out: &mut String, default: Format, general: &Rich) -> Result<(), NoMemory>
    ensures { OnOk result (string_bytes out.new
        ≡ string_bytes out.old ++ answer_part Kind.Essay default general.now) }
{
    if general.text.as_bytes().is_empty() {
        return Ok(out.push_str("{}")?);
    }
    out.push_str("{\n")?;
    close_onto(out, default, general)
}

/// Adds the opening brace and the answer that is right.
fn truth_onto(out: &mut String, right: bool) -> Result<(), NoMemory>
    ensures { OnOk result (string_bytes out.new
        ≡ string_bytes out.old ++ (if right then codes "{TRUE" else codes "{FALSE")) }
{
    if right {
        Ok(out.push_str("{TRUE")?)
    } else {
        Ok(out.push_str("{FALSE")?)
    }
}

/// Adds the feedback for a wrong answer, where it or that for a right one isn't empty.
fn wrong_onto(
    out: &mut String,
    default: Format,
    on_wrong: &Rich,
    on_right: &Rich,
) -> Result<(), NoMemory>
    ensures { OnOk result (string_bytes out.new
        ≡ string_bytes out.old ++ (if is_nothing on_wrong.now.text && is_nothing on_right.now.text then []
        else codes "#" ++ rich_text default on_wrong.now)) }
{
    if on_wrong.text.as_bytes().is_empty() && on_right.text.as_bytes().is_empty() {
        return Ok(());
    }
    out.push_str("#")?;
    rich_onto(out, default, on_wrong)
}
