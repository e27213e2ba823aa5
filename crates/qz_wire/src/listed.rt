//! Words one by one, and on a line.

ghost use Rattle.std.specs.Prelude.{◌≡◌, [], ◌∷◌, ◌++◌, OnOk, decimal, string_bytes};
ghost use Rattle.qz_grading.specs.Words.{attempt_word};
ghost use Rattle.qz_wire.specs.Spaced.{behind};

use crate::escapes::text_word_onto;
use qz_grading::AttemptId;
use qz_text::{Listed, NoMemory, Text};

/// A word more.
pub fn word_onto(words: &mut Listed<Text>, word: &str) -> Result<(), NoMemory>
    ensures { OnOk result (words.new ≡ words.old ++ word.now ∷ []) }
{
    let text = Text::of(*words.items.allocator(), word)?;
    Ok(words.items.push(text)?)
}

/// A number more.
pub fn number_onto(words: &mut Listed<Text>, number: u64) -> Result<(), NoMemory>
    ensures { OnOk result (words.new ≡ words.old ++ decimal number ∷ []) }
{
    let mut items = String::new(*words.items.allocator());
    write!(items, "{number}")?;
    Ok(words.items.push(Text { items })?)
}

/// An attempt more, as `USER.NTH`.
pub fn attempt_onto(words: &mut Listed<Text>, attempt: AttemptId) -> Result<(), NoMemory>
    ensures { OnOk result (words.new ≡ words.old ++ attempt_word attempt ∷ []) }
{
    let mut items = String::new(*words.items.allocator());
    qz_grading::attempt_onto(&mut items, attempt)?;
    Ok(words.items.push(Text { items })?)
}

/// Each word behind a space, and written with its escapes.
pub fn behind_onto(out: &mut String, words: &[Text]) -> Result<(), NoMemory>
    ensures { OnOk result (string_bytes out.new ≡ string_bytes out.old ++ behind words.now) }
{
    for word in words {
        out.push_str(" ")?;
        text_word_onto(out, word.as_str())?;
    }
    Ok(())
}
