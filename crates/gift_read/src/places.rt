//! Places in a block, and what stands before and behind them.

ghost use Rattle.std.specs.Prelude.{◌≡◌, ◌≤◌, length, take, drop};
ghost use Rattle.std.specs.List.{list_any};
ghost use Rattle.gift_read.specs.declared.places.Landmark.TheVariants.{Hashes};
ghost use Rattle.gift_read.specs.Places.{character, is_space, is_this_sign, begins_choice, characters_at, others_at, is_at, before, from, occurs, is_last, are_blank, unled, trimmed};

use gift_lex::Piece;

/// What is looked for in a block.
#[derive(Clone, Copy)]
pub enum Landmark {
    /// `::`, at either end of a name.
    Colons,
    /// `{`, which begins the answer part.
    Opening,
    /// `}`, which ends it.
    Closing,
    /// Either brace.
    Brace,
    /// `#`, before a feedback.
    Hash,
    /// `####`, before the general feedback.
    Hashes,
    /// `~`, before a choice.
    Tilde,
    /// `=`, before a right choice, a pair or an answer.
    Equals,
    /// Either of these two.
    Choice,
    /// `~#` with neither behind it: the feedback for every other number.
    Others,
    /// `->`, between a stem and its answer.
    Arrow,
    /// `%`, at either end of a weight.
    Percent,
    /// `..`, between the ends of a range.
    Points,
    /// `:`, before a tolerance.
    Colon,
}

impl Landmark {
    /// Whether marks begin with it.
    pub(crate) fn is_at(self, marks: &[Piece]) -> bool
        ensures { result ≡ is_at self marks.now }
    {
        match self {
            Landmark::Colons => matches!(marks, [Piece::Sign(':'), Piece::Sign(':'), ..]),
            Landmark::Opening => matches!(marks, [Piece::Sign('{'), ..]),
            Landmark::Closing => matches!(marks, [Piece::Sign('}'), ..]),
            Landmark::Brace => matches!(marks, [Piece::Sign('{' | '}'), ..]),
            Landmark::Hash => matches!(marks, [Piece::Sign('#'), ..]),
            Landmark::Hashes => hashes_at(marks),
            Landmark::Tilde => matches!(marks, [Piece::Sign('~'), ..]),
            Landmark::Equals => matches!(marks, [Piece::Sign('='), ..]),
            Landmark::Choice => matches!(marks, [Piece::Sign('~' | '='), ..]),
            Landmark::Others => others_at(marks),
            Landmark::Arrow => characters_at(b"->", marks),
            Landmark::Percent => characters_at(b"%", marks),
            Landmark::Points => characters_at(b"..", marks),
            Landmark::Colon => characters_at(b":", marks),
        }
    }
}

fn hashes_at(marks: &[Piece]) -> bool
    ensures { result ≡ is_at Hashes marks.now }
{
    matches!(
        marks,
        [
            Piece::Sign('#'),
            Piece::Sign('#'),
            Piece::Sign('#'),
            Piece::Sign('#'),
            ..
        ]
    )
}

/// Whether marks begin with the feedback for every other number: `~#`, behind which no answer begins.
fn others_at(marks: &[Piece]) -> bool
    ensures { result ≡ others_at marks.now }
{
    match marks {
        [Piece::Sign('~'), Piece::Sign('#'), behind @ ..] => { !has_choice(behind) }
        _ => false,
    }
}

/// Whether a sign among marks begins a choice.
fn has_choice(marks: &[Piece]) -> bool
    ensures { result ≡ list_any begins_choice marks.now }
{
    marks.iter().any(|mark| begins_choice(*mark))
}

fn begins_choice(mark: Piece) -> bool
    ensures { result ≡ begins_choice mark }
{
    matches!(mark, Piece::Sign('~' | '='))
}

/// Whether marks begin with these characters, signs or not.
pub(crate) fn characters_at(word: &[u8], marks: &[Piece]) -> bool
    ensures { result ≡ characters_at word.now marks.now }
{
    let [first, word @ ..] = word else {
        return true;
    };
    let [mark, marks @ ..] = marks else {
        return false;
    };
    character(*mark) == char::from(*first) && characters_at(word, marks)
}

/// The character that a mark stands for.
pub(crate) fn character(mark: Piece) -> char
    ensures { result ≡ character mark }
{
    match mark {
        Piece::Escaped(c) | Piece::Sign(c) | Piece::Plain(c) => c,
    }
}

/// Whether a mark is a space, a tab or a line feed, which may be written `\n`.
pub(crate) fn is_space(mark: Piece) -> bool
    ensures { result ≡ is_space mark }
{
    matches!(character(mark), ' ' | '\t' | '\n')
}

/// What stands before the first place of a landmark, and what stands from there on: everything and nothing, where
/// there is no such place.
pub(crate) fn split(landmark: Landmark, marks: &[Piece]) -> (&[Piece], &[Piece])
    ensures before { result.0.now ≡ before (is_at landmark) marks.now }
    ensures from { result.1.now ≡ from (is_at landmark) marks.now }
{
    let found = from(landmark, marks);
    (marks.split_at(marks.len() - found.len()).0, found)
}

/// What stands before the last place of a landmark, and what stands from there on.
pub(crate) fn split_last(landmark: Landmark, marks: &[Piece]) -> (&[Piece], &[Piece])
    ensures before { result.0.now ≡ before (is_last (is_at landmark)) marks.now }
    ensures from { result.1.now ≡ from (is_last (is_at landmark)) marks.now }
{
    let found = from_last(landmark, marks);
    (marks.split_at(marks.len() - found.len()).0, found)
}

/// The first marks, so many where there are.
pub(crate) fn front(marks: &[Piece], count: usize) -> &[Piece]
    ensures { result.now ≡ take count marks.now }
{
    if count <= marks.len() {
        marks.split_at(count).0
    } else {
        marks
    }
}

/// Marks behind the first so many.
pub(crate) fn behind(marks: &[Piece], count: usize) -> &[Piece]
    ensures { result.now ≡ drop count marks.now }
{
    if count <= marks.len() {
        marks.split_at(count).1
    } else {
        marks.split_at(marks.len()).1
    }
}

/// Whether there is a place of a landmark.
pub(crate) fn occurs(landmark: Landmark, marks: &[Piece]) -> bool
    ensures { result ≡ occurs (is_at landmark) marks.now }
{
    !from(landmark, marks).is_empty()
}

/// What stands from the first place of a landmark on.
fn from(landmark: Landmark, marks: &[Piece]) -> &[Piece]
    ensures value { result.now ≡ from (is_at landmark) marks.now }
    ensures shorter { length result.now ≤ length marks.now }
{
    let mut rest = marks;
    while let [_, after @ ..] = rest {
        if landmark.is_at(rest) {
            return rest;
        }
        rest = after;
    }
    rest
}

/// What stands from the last place of a landmark on.
fn from_last(landmark: Landmark, marks: &[Piece]) -> &[Piece]
    ensures value { result.now ≡ from (is_last (is_at landmark)) marks.now }
    ensures shorter { length result.now ≤ length marks.now }
{
    let mut found = marks.split_at(marks.len()).1;
    let mut rest = marks;
    while let [_, after @ ..] = rest {
        if landmark.is_at(rest) {
            found = rest;
        }
        rest = after;
    }
    found
}

/// Whether marks are white space alone.
pub(crate) fn are_blank(marks: &[Piece]) -> bool
    ensures { result ≡ are_blank marks.now }
{
    marks.iter().all(|mark| is_space(*mark))
}

/// Marks without the white space before them.
pub(crate) fn unled(marks: &[Piece]) -> &[Piece]
    ensures { result.now ≡ unled marks.now }
{
    let mut rest = marks;
    while let [mark, after @ ..] = rest {
        if !is_space(*mark) {
            return rest;
        }
        rest = after;
    }
    rest
}

/// Marks without the white space around them.
pub(crate) fn trimmed(marks: &[Piece]) -> &[Piece]
    ensures { result.now ≡ trimmed marks.now }
{
    unfollowed(unled(marks))
}

/// Marks without the white space behind them.
fn unfollowed(marks: &[Piece]) -> &[Piece]
    ensures { result.now ≡ before are_blank marks.now }
{
    let mut end = marks.len();
    while end > 0 {
        if !is_space(marks[end - 1]) {
            return marks.split_at(end).0;
        }
        end -= 1;
    }
    marks.split_at(0).0
}
