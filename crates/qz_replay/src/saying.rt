//! The lines that a replay says.

ghost use Rattle.std.specs.Prelude.{◌≡◌, ◌++◌, OnOk, string_bytes};
ghost use Rattle.qz_grading.specs.Words.{mark_or_dash};
ghost use Rattle.qz_replay.specs.Plays.{standing, said_of};
ghost use Rattle.qz_replay.specs.Replayed.{line_of};

use crate::played::{Fate, Played};
use qz_decimal::Mark;
use qz_grading::{Moved, Spelled};
use qz_text::NoMemory;
use qz_wire::refused_onto;

/// A mark, or a dash where there is none.
fn mark_onto(out: &mut String, mark: Option<Mark>) -> Result<(), NoMemory>
    ensures { OnOk result (string_bytes out.new ≡ string_bytes out.old ++ mark_or_dash mark) }
{
    match mark {
        Some(mark) => mark.spell_onto(out),
        None => Ok(out.push_str("-")?),
    }
}

/// The state and the mark of a slot.
fn standing_onto(out: &mut String, played: &Played) -> Result<(), NoMemory>
    ensures { OnOk result (string_bytes out.new ≡ string_bytes out.old ++ standing played.now) }
{
    out.push_str(played.state().word())?;
    out.push_str(" ")?;
    mark_onto(out, played.mark())
}

/// What is said of a line.
fn told_onto(out: &mut String, fate: Fate, played: &Played) -> Result<(), NoMemory>
    ensures { OnOk result (string_bytes out.new ≡ string_bytes out.old ++ said_of fate played.now) }
{
    match fate {
        Ok(Moved::Kept) => standing_onto(out, played),
        Ok(Moved::Same) => {
            out.push_str("same ")?;
            standing_onto(out, played)
        }
        Err(refusal) => {
            out.push_str("refused ")?;
            refused_onto(out, refusal)
        }
    }
}

/// The line of the slot before its first step.
pub fn first_line_onto(out: &mut String, played: &Played) -> Result<(), NoMemory>
    ensures { OnOk result (string_bytes out.new ≡ string_bytes out.old ++ line_of 0 (standing played.now)) }
{
    let number = 0u32;
    write!(out, "{number} ")?;
    standing_onto(out, played)?;
    Ok(out.push('\n')?)
}

/// The line with this number, after which the slot stands so.
pub fn told_line_onto(
    out: &mut String,
    number: u32,
    fate: Fate,
    played: &Played,
) -> Result<(), NoMemory>
    ensures { OnOk result (string_bytes out.new ≡ string_bytes out.old ++ line_of number (said_of fate played.now)) }
{
    write!(out, "{number} ")?;
    told_onto(out, fate, played)?;
    Ok(out.push('\n')?)
}
