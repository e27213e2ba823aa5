//! What marks spell.

ghost use Rattle.std.specs.Prelude.{◌≡◌, ◌++◌, length, encode_utf8_all, IfOk};
ghost use Rattle.qz_grading.specs.Canonical.{format_mark};
ghost use Rattle.gift_read.specs.Places.{character, trimmed};
ghost use Rattle.gift_read.specs.Texts.{spelled, text_of, spells, named_format, shown, formatted, rich_of, begins_blank, single_spaced, or_question, made_name};

use crate::places::{character, characters_at, front, is_space, trimmed};
use gift_lex::Piece;
use qz_grading::{Format, Rich};
use qz_text::{NoMemory, Text};
use std::alloc::Global;

/// The text of marks, without the white space around it.
pub(crate) fn text_of(alloc: Global, marks: &[Piece]) -> Result<Text, NoMemory>
    ensures { IfOk result (λ made. made ≡ text_of marks.now) }
{
    spelled(alloc, trimmed(marks))
}

/// The characters that marks stand for.
pub(crate) fn spelled(alloc: Global, marks: &[Piece]) -> Result<Text, NoMemory>
    ensures { IfOk result (λ made. made ≡ spelled marks.now) }
{
    let mut items = String::with_capacity(alloc, marks.len())?;
    let mut rest = marks;
    while let [mark, after @ ..] = rest {
        items.push(character(*mark))?;
        rest = after;
    }
    Ok(Text { items })
}

/// Whether marks are these characters.
pub(crate) fn spells(word: &[u8], marks: &[Piece]) -> bool
    ensures { result ≡ spells word.now marks.now }
{
    marks.len() == word.len() && characters_at(word, marks)
}

/// The format that marks name in brackets at their front.
fn named_format(marks: &[Piece]) -> Option<Format>
    ensures { result ≡ named_format marks.now }
{
    if characters_at(b"[moodle]", marks) {
        Some(Format::Moodle)
    } else if characters_at(b"[html]", marks) {
        Some(Format::Html)
    } else if characters_at(b"[plain]", marks) {
        Some(Format::Plain)
    } else if characters_at(b"[markdown]", marks) {
        Some(Format::Markdown)
    } else {
        None
    }
}

/// How long the name of a format is, with its brackets.
fn format_mark_len(format: Format) -> usize
    ensures { result ≡ length (format_mark format) }
{
    match format {
        Format::Moodle => 8,
        Format::Html => 6,
        Format::Plain => 7,
        Format::Markdown => 10,
    }
}

/// The format that a text names, and its own marks.
pub(crate) fn split_format(marks: &[Piece]) -> (Option<Format>, &[Piece])
    ensures format { result.0 ≡ named_format (trimmed marks.now) }
    ensures shown { result.1.now ≡ shown marks.now }
{
    let marks = trimmed(marks);
    let Some(format) = named_format(marks) else {
        return (None, marks);
    };
    let len = format_mark_len(format).min(marks.len());
    (Some(format), trimmed(marks.split_at(len).1))
}

/// A text in the format that it names, or else in this one.
pub(crate) fn formatted(alloc: Global, default: Format, marks: &[Piece]) -> Result<Rich, NoMemory>
    ensures { IfOk result (λ made. made ≡ formatted default marks.now) }
{
    let (format, shown) = split_format(marks);
    Ok(Rich {
        format: format.unwrap_or(default),
        text: spelled(alloc, shown)?,
    })
}

/// The same, where an empty text names no format.
pub(crate) fn rich_of(alloc: Global, default: Format, marks: &[Piece]) -> Result<Rich, NoMemory>
    ensures { IfOk result (λ made. made ≡ rich_of default marks.now) }
{
    let made = formatted(alloc, default, marks)?;
    if made.text.as_bytes().is_empty() {
        return Ok(Rich {
            format: default,
            text: made.text,
        });
    }
    Ok(made)
}

/// How many characters of a text a name is made from.
const NAME_CHARACTERS: usize = 80;

/// The name of a question without one: the first 80 characters of its text, where each run of white space is one space, or
/// a word where they are blank.
pub(crate) fn made_name(alloc: Global, marks: &[Piece]) -> Result<Text, NoMemory>
    ensures { IfOk result (λ made. made ≡ made_name marks.now) }
{
    let name = single_spaced(alloc, trimmed(front(marks, NAME_CHARACTERS)))?;
    or_question(alloc, name)
}

/// A name, or a word where it is empty.
fn or_question(alloc: Global, name: Text) -> Result<Text, NoMemory>
    ensures { IfOk result (λ made. made ≡ or_question name) }
{
    if name.as_bytes().is_empty() {
        return Text::of(alloc, "Question");
    }
    Ok(name)
}

/// The characters of marks, where each run of white space is one space.
fn single_spaced(alloc: Global, marks: &[Piece]) -> Result<Text, NoMemory>
    ensures { IfOk result (λ made. made ≡ encode_utf8_all (single_spaced marks.now)) }
{
    let mut items = String::with_capacity(alloc, marks.len())?;
    let mut rest = marks;
    while let [mark, after @ ..] = rest {
        if !is_space(*mark) {
            items.push(character(*mark))?;
        } else if !begins_blank(after) {
            items.push(' ')?;
        }
        rest = after;
    }
    Ok(Text { items })
}

/// Whether marks begin with white space.
fn begins_blank(marks: &[Piece]) -> bool
    ensures { result ≡ begins_blank marks.now }
{
    match marks {
        [mark, ..] => is_space(*mark),
        [] => false,
    }
}
