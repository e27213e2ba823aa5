//! Texts in which some characters are written in another way.

ghost use Rattle.std.specs.Prelude.{◌≡◌, ◌++◌, OnOk, string_bytes, encode_utf8};
ghost use Rattle.qz_grading.specs.Canonical.{is_sign, escaped, category_name};
ghost use Rattle.gift_write.specs.Escapes.{written_text};

use qz_text::NoMemory;

/// Which characters are written in another way.
#[derive(Clone, Copy)]
pub(crate) enum Escape {
    /// Each of `~ = # { } :` and each backslash gets a backslash, and a line feed is written as a backslash and `n`.
    Signs,
    /// Each slash is doubled.
    Slashes,
}

/// Adds a text.
pub(crate) fn text_onto(out: &mut String, escape: Escape, text: &str) -> Result<(), NoMemory>
    ensures { OnOk result (string_bytes out.new ≡ string_bytes out.old ++ written_text escape text.now) }
{
    for c in text.chars() {
        char_onto(out, escape, c)?;
    }
    Ok(())
}

/// Adds one character.
fn char_onto(out: &mut String, escape: Escape, c: char) -> Result<(), NoMemory>
    ensures { OnOk result (string_bytes out.new
        ≡ string_bytes out.old ++ written_text escape (encode_utf8 c)) }
{
    match escape {
        Escape::Signs => escaped_onto(out, c),
        Escape::Slashes => doubled_onto(out, c),
    }
}

fn escaped_onto(out: &mut String, c: char) -> Result<(), NoMemory>
    ensures { OnOk result (string_bytes out.new ≡ string_bytes out.old ++ escaped (encode_utf8 c)) }
{
    if c == '\n' {
        return Ok(out.push_str("\\n")?);
    }
    if gets_backslash(c) {
        out.push('\\')?;
        return Ok(out.push(c)?);
    }
    Ok(out.push(c)?)
}

/// Whether a character gets a backslash.
fn gets_backslash(c: char) -> bool
    ensures { result ≡ is_sign c }
{
    matches!(c, '~' | '=' | '#' | '{' | '}' | ':' | '\\')
}

fn doubled_onto(out: &mut String, c: char) -> Result<(), NoMemory>
    ensures { OnOk result (string_bytes out.new ≡ string_bytes out.old ++ category_name (encode_utf8 c)) }
{
    if c == '/' {
        return Ok(out.push_str("//")?);
    }
    Ok(out.push(c)?)
}
