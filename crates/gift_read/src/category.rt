//! Category lines, and the names on their paths.

ghost use Rattle.std.specs.Prelude.{◌≡◌, ◌++◌, ◌∷◌, [], ℕ, ◌==◌, ◌<◌, length, if◌then◌else◌, MatchOption, IfSome, IfOk};
ghost use Rattle.gift_lex.specs.Blocks.{line_feed, letter_n};
ghost use Rattle.std.specs.List.{list_any};
ghost use Rattle.gift_read.specs.Category.{is_indented, line_marks, is_category, path_marks, is_slash, names, path, is_bad_name};

use crate::places::{behind, character, characters_at, is_space};
use crate::texts::text_of;
use gift_lex::Piece;
use qz_text::{Listed, NoMemory, Text};
use std::alloc::Global;

/// Whether a mark is white space that isn't written with a backslash.
fn is_indented(mark: Piece) -> bool
    ensures { result ≡ is_indented mark }
{
    !matches!(mark, Piece::Escaped(_)) && is_space(mark)
}

/// What stands behind the comments before a category line, and behind the white space at its front.
fn line_marks(marks: &[Piece]) -> &[Piece]
    ensures { result.now ≡ line_marks marks.now }
{
    let mut rest = marks;
    while let [mark, after @ ..] = rest {
        if !is_indented(*mark) {
            return rest;
        }
        rest = after;
    }
    rest
}

/// Whether a block is a category line.
pub(crate) fn is_category(marks: &[Piece]) -> bool
    ensures { result ≡ is_category marks.now }
{
    let line = line_marks(marks);
    characters_at(b"$CATEGORY", line)
        && matches!(line, [_, _, _, _, _, _, _, _, _, Piece::Sign(':'), ..])
}

/// The character that begins an escape pair.
const BACKSLASH: Piece = Piece::Plain('\\');

/// The letter of an escape pair.
fn letter(escaped: char) -> char
    ensures { result ≡ (if escaped == line_feed then letter_n else escaped) }
{
    if escaped == '\n' { 'n' } else { escaped }
}

/// The marks of a path, in which each backslash stands for itself.
fn path_marks(alloc: Global, marks: &[Piece]) -> Result<Vec<Piece>, NoMemory>
    ensures { IfOk result (λ made. made.items ≡ path_marks marks.now) }
{
    let mut made = Vec::new(alloc);
    let mut rest = behind(line_marks(marks), "$CATEGORY:".len());
    while let [mark, after @ ..] = rest {
        if let Piece::Escaped(c) = *mark {
            made.push(BACKSLASH)?;
            made.push(Piece::Plain(letter(c)))?;
        } else {
            made.push(Piece::Plain(character(*mark)))?;
        }
        rest = after;
    }
    Ok(made)
}

fn is_slash(mark: Piece) -> bool
    ensures { result ≡ is_slash mark }
{
    character(mark) == '/'
}

/// The marks of the first name on a path, and what stands behind the slash that ends it, where one does.
fn first_name(alloc: Global, path: &[Piece]) -> Result<(Vec<Piece>, Option<&[Piece]>), NoMemory>
    ensures cases { IfOk result (λ x. MatchOption x.1 (names path.now ≡ x.0.items ∷ [])
        (λ rest. names path.now ≡ x.0.items ∷ names rest.now)) }
    ensures shorter { IfOk result (λ x. IfSome x.1 (λ rest. length rest.now < length path.now)) }
{
    let mut name = Vec::new(alloc);
    let mut rest = path;
    while let [mark, after @ ..] = rest {
        rest = after;
        if is_slash(*mark) {
            match after {
                [next, behind @ ..] if is_slash(*next) => rest = behind,
                _ => return Ok((name, Some(after))),
            }
        }
        name.push(*mark)?;
    }
    Ok((name, None))
}

/// The names on the path of a category line. Two slashes are a slash in a name, and one stands between names.
pub(crate) fn path(alloc: Global, marks: &[Piece]) -> Result<Listed<Text>, NoMemory>
    ensures { IfOk result (λ made. made ≡ path marks.now) }
{
    let path = path_marks(alloc, marks)?;
    let mut items = Vec::new(alloc);
    let mut rest = path.as_slice();
    loop {
        let (name, behind) = first_name(alloc, rest)?;
        items.push(text_of(alloc, &name)?)?;
        match behind {
            Some(behind) => rest = behind,
            None => return Ok(Listed { items }),
        }
    }
}

/// Whether a name on a path is blank, or begins with a slash.
fn is_bad_name(name: &Text) -> bool
    ensures { result ≡ is_bad_name name.now }
{
    matches!(name.as_bytes(), [] | [b'/', ..])
}

/// Whether one of the names on a path is.
pub(crate) fn is_bad_path(names: &[Text]) -> bool
    ensures { result ≡ list_any is_bad_name names.now }
{
    names.iter().any(|name| is_bad_name(name))
}
