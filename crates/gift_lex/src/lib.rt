//! The lexer of GIFT, Moodle's text format for question banks: the blocks of a text, and the marks of each.
#![tactic(auto)]

mod block;
mod characters;
mod cursor;
mod gathering;
mod lines;
mod marks;

pub use block::{Block, Piece};
pub use cursor::Blocks;
