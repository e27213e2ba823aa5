//! How marks are spelled where they are shown.

ghost use Rattle.std.specs.Prelude.{◌≡◌, ◌++◌, OnOk, string_bytes};
ghost use Rattle.qz_grading.specs.Words.{mark_text};
ghost use Rattle.qz_pages.specs.Shown.{shown_words};

use qz_decimal::Mark;
use qz_grading::Spelled;
use qz_terms::Shown;
use qz_text::NoMemory;

/// A mark, a dash where there is none, or `hidden`.
pub fn mark_onto(out: &mut String, mark: Shown<Mark>) -> Result<(), NoMemory>
    ensures { OnOk result (string_bytes out.new ≡ string_bytes out.old ++ shown_words mark_text mark) }
{
    match mark {
        Shown::None => Ok(out.push_str("-")?),
        Shown::Hidden => Ok(out.push_str("hidden")?),
        Shown::Value(mark) => mark.spell_onto(out),
    }
}
