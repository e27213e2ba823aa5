//! The marks of a line.

ghost use Rattle.std.specs.Prelude.{◌≡◌, ◌<◌, ◌++◌, [], ◌∷◌, length, MatchOption, IfSome, OnOk};
ghost use Rattle.std.specs.Str.{chars};
ghost use Rattle.gift_lex.specs.Blocks.{is_sign, is_escape, escaped, single, marks_of};

use crate::block::Piece;
use crate::characters::split_char;
use qz_text::{Listed, NoMemory};

/// Puts the marks of a line's characters behind others.
pub(crate) fn push_marks(marks: &mut Listed<Piece>, line: &str) -> Result<(), NoMemory>
    ensures { OnOk result (marks.new ≡ marks.old ++ marks_of (chars line.now)) }
{
    let mut rest = line;
    while let Some((mark, after)) = split_mark(rest) {
        marks.items.push(mark)?;
        rest = after;
    }
    Ok(())
}

/// The first mark of a line, and what follows it.
fn split_mark(line: &str) -> Option<(Piece, &str)>
    ensures cases { MatchOption result (chars line.now ≡ [])
        (λ x. marks_of (chars line.now) ≡ x.0 ∷ marks_of (chars x.1.now)) }
    ensures shorter { IfSome result (λ x. length x.1.now < length line.now) }
{
    let (first, after) = split_char(line)?;
    if first == '\\'
        && let Some((second, behind)) = split_char(after)
        && is_escape(second)
    {
        return Some((Piece::Escaped(escaped(second)), behind));
    }
    Some((single(first), after))
}

/// The mark of a character that stands in no escape pair.
fn single(c: char) -> Piece
    ensures { result ≡ single c }
{
    if is_sign(c) {
        Piece::Sign(c)
    } else {
        Piece::Plain(c)
    }
}

/// Whether a backslash and this character are an escape pair.
fn is_escape(c: char) -> bool
    ensures { result ≡ is_escape c }
{
    is_sign(c) || c == '\\' || c == 'n'
}

/// The character that a backslash and this one stand for.
fn escaped(c: char) -> char
    ensures { result ≡ escaped c }
{
    if c == 'n' { '\n' } else { c }
}

fn is_sign(c: char) -> bool
    ensures { result ≡ is_sign c }
{
    matches!(c, '~' | '=' | '#' | '{' | '}' | ':')
}
