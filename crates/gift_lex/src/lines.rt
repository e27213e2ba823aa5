//! The lines of a text, and what kind each is of.

ghost use Rattle.std.specs.Prelude.{◌≡◌, ◌<◌, [], ◌∷◌, length, position, MatchOption, IfSome};
ghost use Rattle.std.specs.Str.{chars};
ghost use Rattle.gift_lex.specs.Blocks.{unindented, is_blank_line, is_comment, is_category};
ghost use Rattle.gift_lex.specs.Gathering.{is_break, after_break, split_lines};

use crate::characters::split_char;
use memchr::memchr2;

/// The first line of a text, and what follows its break, where it has one.
pub(crate) fn split_line(text: &str) -> (&str, Option<&str>)
    ensures lines { MatchOption result.1 (split_lines (chars text.now) ≡ chars result.0.now ∷ [])
        (λ after. split_lines (chars text.now) ≡ chars result.0.now ∷ split_lines (chars after.now)) }
    ensures shorter { IfSome result.1 (λ after. length after.now < length text.now) }
{
    match break_place(text) {
        None => (text, None),
        Some(at) => {
            let (line, rest) = text.split_at(at);
            (line, Some(after_break(rest)))
        }
    }
}

/// Where the first break of a text begins.
fn break_place(text: &str) -> Option<usize>
    ensures { result ≡ position is_break text.now }
{
    memchr2(b'\r', b'\n', text.as_bytes())
}

/// What follows the break that stands first.
fn after_break(text: &str) -> &str
    ensures rest { chars result.now ≡ after_break (chars text.now) }
    ensures shorter { 0 < length text.now → length result.now < length text.now }
{
    let Some((first, after)) = split_char(text) else {
        return text;
    };
    match split_char(after) {
        Some(('\n', behind)) if first == '\r' => behind,
        _ => after,
    }
}

/// Whether a line has spaces and tabs alone.
pub(crate) fn is_blank_line(line: &str) -> bool
    ensures { result ≡ is_blank_line (chars line.now) }
{
    unindented(line).is_empty()
}

/// Whether a line is a comment.
pub(crate) fn is_comment(line: &str) -> bool
    ensures { result ≡ is_comment (chars line.now) }
{
    unindented(line).starts_with("//")
}

/// Whether a line names a category, where it stands at the front of a block.
pub(crate) fn is_category(line: &str) -> bool
    ensures { result ≡ is_category (chars line.now) }
{
    unindented(line).starts_with("$CATEGORY:")
}

/// A line without the spaces and tabs that it begins with.
fn unindented(line: &str) -> &str
    ensures { chars result.now ≡ unindented (chars line.now) }
{
    let mut rest = line;
    while let Some((' ' | '\t', after)) = split_char(rest) {
        rest = after;
    }
    rest
}
