//! The question of a block.

ghost use Rattle.std.specs.Prelude.{◌≡◌, IfOk};
ghost use Rattle.gift_read.specs.Parts.{body};
ghost use Rattle.gift_read.specs.Values.{penalty_of, name_or, question_about, question};

use crate::kinds::kind_in;
use crate::parts::{PartedBlock, joined_text};
use crate::places::are_blank;
use crate::texts::{formatted, made_name, rich_of, split_format, text_of};
use gift_lex::Piece;
use qz_decimal::{Fraction, ONE};
use qz_grading::{Format, Kind, Question};
use qz_text::{Listed, NoMemory, Text};
use std::alloc::Global;

/// The penalty of each question that isn't true-false.
const THIRD: i64 = 3_333_333;

/// The question of a block, whatever its faults. The text goes on behind the answer part, unless that is blank.
pub(crate) fn question(alloc: Global, block: &PartedBlock) -> Result<Question, NoMemory>
    ensures { IfOk result (λ made. made ≡ question block.now) }
{
    let name = text_of(alloc, block.name())?;
    let before = block.before();
    let behind = block.behind();
    if are_blank(behind) {
        return question_about(alloc, name, before, block);
    }
    let text = joined_text(alloc, before, behind)?;
    question_about(alloc, name, &text, block)
}

/// The question with a text, and what else a block tells.
fn question_about(
    alloc: Global,
    name: Text,
    text: &[Piece],
    block: &PartedBlock,
) -> Result<Question, NoMemory>
    ensures { IfOk result (λ made. made ≡ question_about name text.now (body block.now.marks)) }
{
    let name = name_or(alloc, name, split_format(text).1)?;
    let text = formatted(alloc, Format::Moodle, text)?;
    let general = rich_of(alloc, text.format, block.general())?;
    let kind = kind_in(alloc, text.format, block.answers(), block.sort())?;
    let penalty = penalty_of(&kind);
    Ok(Question {
        name,
        text,
        general,
        kind,
        penalty,
        hints: Listed::empty(alloc),
    })
}

/// The name that is given, or else one made from the text.
fn name_or(alloc: Global, name: Text, text: &[Piece]) -> Result<Text, NoMemory>
    ensures { IfOk result (λ made. made ≡ name_or name text.now) }
{
    if name.as_bytes().is_empty() {
        return made_name(alloc, text);
    }
    Ok(name)
}

/// The penalty of a question that is read: a third, but all for two choices.
fn penalty_of(kind: &Kind) -> Fraction
    ensures { result ≡ penalty_of kind.now }
{
    match kind {
        Kind::TrueFalse { .. } => Fraction(ONE),
        _ => Fraction(THIRD),
    }
}
