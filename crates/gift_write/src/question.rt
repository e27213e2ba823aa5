//! One question.

ghost use Rattle.std.specs.Prelude.{◌≡◌, ◌++◌, OnOk, string_bytes};
ghost use Rattle.qz_grading.specs.Canonical.{canonical_question};

use crate::answers::answer_part_onto;
use crate::escaping::{Escape, text_onto};
use crate::rich::rich_onto;
use qz_grading::{Format, Question};
use qz_text::NoMemory;

/// Adds the canonical text of a question: the name, the text, the answer part, and a blank line.
pub fn question_onto(out: &mut String, question: &Question) -> Result<(), NoMemory>
    ensures { OnOk result (string_bytes out.new ≡ string_bytes out.old ++ canonical_question question.now) }
{
    out.push_str("::")?;
    text_onto(out, Escape::Signs, question.name.as_str())?;
    out.push_str("::")?;
    rich_onto(out, Format::Moodle, &question.text)?;
    answer_part_onto(out, &question.kind, question.text.format, &question.general)?;
    Ok(out.push_str("\n\n")?)
}
