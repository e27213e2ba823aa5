//! What a GIFT text is read as: its blocks, each a list of marks.

use qz_text::Listed;

/// A character of a block, with what a backslash before it makes of it.
#[derive(Clone, Copy, Debug, PartialEq, Eq)]
pub enum Piece {
    /// The character that an escape pair stands for: one of `~ = # { } :` or a backslash, behind a backslash, or a line
    /// feed, which is written `\n`.
    Escaped(char),
    /// One of `~ = # { } :` outside such a pair.
    Sign(char),
    /// Any other character.
    Plain(char),
}

/// Lines of a GIFT text that stand together: a question, or a category line. Comments may stand before them, among them
/// and behind them.
#[derive(Debug, Drop)]
pub struct Block {
    /// The number of its first line, which may be a comment. Lines count from 1.
    pub line: u32,
    /// The number of its last line, which may be a comment too.
    pub last_line: u32,
    /// Its marks, with a plain line feed between two lines. A comment counts as one space.
    pub marks: Listed<Piece>,
}
