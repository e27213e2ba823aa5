//! Texts in words, where spaces and line feeds are written as escapes.

ghost use Rattle.std.specs.Prelude.{◌≡◌, ◌++◌, Some, IfOk, OnOk, encode_utf8, option_copied, string_bytes};
ghost use Rattle.qz_wire.specs.Escapes.{written_for, escaped, text_word};
ghost use Rattle.qz_wire.specs.Words.{escape_of, unescaped, text_of, utf8_of};

use qz_text::{Bytes, NoMemory, Text};
use std::alloc::Global;

/// The byte that a backslash and this one stand for.
fn escaped(byte: u8) -> Option<u8>
    ensures { result ≡ escape_of byte }
{
    match byte {
        b's' => Some(b' '),
        b'n' => Some(b'\n'),
        b't' => Some(b'\t'),
        b'r' => Some(b'\r'),
        b'\\' => Some(b'\\'),
        _ => None,
    }
}

/// The text that is written with escapes. None exactly where a backslash begins none.
pub fn unescaped(alloc: Global, word: &[u8]) -> Result<Option<Bytes>, NoMemory>
    ensures { IfOk result (λ found. found ≡ unescaped word.now) }
{
    let mut items = Vec::new(alloc);
    let mut rest = word;
    while let [first, after @ ..] = rest {
        if *first != b'\\' {
            items.push(*first)?;
            rest = after;
        } else {
            let [second, behind @ ..] = after else {
                return Ok(None);
            };
            let Some(byte) = escaped(*second) else {
                return Ok(None);
            };
            items.push(byte)?;
            rest = behind;
        }
    }
    Ok(Some(Bytes { items }))
}

/// The text that a word spells. A word has a byte, and `\e` alone is the empty text.
pub fn text_in(alloc: Global, word: &[u8]) -> Result<Option<Bytes>, NoMemory>
    ensures { IfOk result (λ found. found ≡ text_of word.now) }
{
    if word.is_empty() {
        return Ok(None);
    }
    if word == b"\\e".as_slice() {
        return Ok(Some(Bytes {
            items: Vec::new(alloc),
        }));
    }
    unescaped(alloc, word)
}

/// The text that bytes are. None exactly where they aren't UTF-8.
pub fn utf8_in(alloc: Global, bytes: &[u8]) -> Result<Option<Text>, NoMemory>
    ensures { IfOk result (λ found. found ≡ utf8_of bytes.now) }
{
    match str::from_utf8(bytes) {
        Ok(text) => Ok(Some(Text::of(alloc, text)?)),
        Err(_) => Ok(None),
    }
}

// ---- texts written as words

/// What a character is written as, where it isn't written as it is.
fn escape(c: char) -> Option<&'static str>
    ensures { option_copied result ≡ written_for c }
{
    match c {
        ' ' => Some("\\s"),
        '\n' => Some("\\n"),
        '\t' => Some("\\t"),
        '\r' => Some("\\r"),
        '\\' => Some("\\\\"),
        _ => None,
    }
}

fn char_onto(out: &mut String, c: char) -> Result<(), NoMemory>
    ensures { OnOk result (string_bytes out.new ≡ string_bytes out.old ++ escaped (encode_utf8 c)) }
{
    match escape(c) {
        Some(written) => Ok(out.push_str(written)?),
        None => Ok(out.push(c)?),
    }
}

fn chars_onto(out: &mut String, text: &str) -> Result<(), NoMemory>
    ensures { OnOk result (string_bytes out.new ≡ string_bytes out.old ++ escaped text.now) }
{
    for c in text.chars() {
        char_onto(out, c)?;
    }
    Ok(())
}

/// Adds a text as one word, from which it is read again.
pub fn text_word_onto(out: &mut String, text: &str) -> Result<(), NoMemory>
    ensures added { OnOk result (string_bytes out.new ≡ string_bytes out.old ++ text_word text.now) }
    ensures read { text_of (text_word text.now) ≡ Some text.now }
{
    if text.is_empty() {
        return Ok(out.push_str("\\e")?);
    }
    chars_onto(out, text)
}
