//! The lines that name categories.

ghost use Rattle.std.specs.Prelude.{◌≡◌, ◌++◌, ℕ, List, OnOk, string_bytes, codes};
ghost use Rattle.qz_grading.specs.Canonical.{category_path, category_line};

use crate::escaping::{Escape, text_onto};
use qz_grading::same_texts;
use qz_text::{NoMemory, Text};

/// Adds a line with the names on the path of a category, and a blank line, where the path isn't the one before.
pub(crate) fn category_line_onto(
    out: &mut String,
    before: &[Text],
    path: &[Text],
) -> Result<(), NoMemory>
    ensures { OnOk result (string_bytes out.new ≡ string_bytes out.old ++ category_line before.now path.now) }
{
    if same_texts(before, path) {
        return Ok(());
    }
    path_line_onto(out, path)
}

/// Adds the line that names a category, and a blank line.
fn path_line_onto(out: &mut String, path: &[Text]) -> Result<(), NoMemory>
    ensures { OnOk result (string_bytes out.new
        ≡ string_bytes out.old ++ (codes "$CATEGORY: " ++ category_path path.now ++ codes "\n\n")) }
{
    out.push_str("$CATEGORY: ")?;
    path_onto(out, path)?;
    Ok(out.push_str("\n\n")?)
}

/// Adds names with slashes between them. A slash in a name is doubled.
fn path_onto(out: &mut String, names: &[Text]) -> Result<(), NoMemory>
    ensures { OnOk result (string_bytes out.new ≡ string_bytes out.old ++ category_path names.now) }
{
    let mut rest = names;
    while let [name, after @ ..] = rest {
        text_onto(out, Escape::Slashes, name.as_str())?;
        if !after.is_empty() {
            out.push_str("/")?;
        }
        rest = after;
    }
    Ok(())
}
