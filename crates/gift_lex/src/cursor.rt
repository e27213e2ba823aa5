//! The blocks of a text, one by one.

ghost use Rattle.std.specs.Prelude.{◌≡◌, ◌∷◌, [], IfOk, MatchOption};
ghost use Rattle.gift_lex.specs.Blocks.{blocks_of};

use crate::block::Block;
use crate::characters::without_order_mark;
use crate::gathering::{end, take_line};
use crate::lines::split_line;
use qz_text::NoMemory;
use std::alloc::Global;
use std::marker::Model;

/// The blocks of a GIFT text in order, after the page "GIFT format" of Moodle's documentation; what it leaves open is
/// settled here. They are given one by one, with the marks of one at a time in memory. It is seen as the blocks that are
/// still to come.
///
/// Blank lines, of spaces and tabs alone, stand between blocks. A line that begins with `//` is a comment. A line that
/// begins with `$CATEGORY:` ends its block where only comments stand before it there. Comments alone are no block.
///
/// A byte order mark at the front is dropped. A carriage return, with or without a line feed behind it, ends a line as a
/// line feed does. A text with more lines than a `u32` counts is want of memory.
#[derive(Drop)]
pub struct Blocks<'a> {
    rest: &'a str,
    taken: u32,
}

impl<'a> Model for Blocks<'a> {
    ghost use Rattle.std.specs.Prelude.{List};
    ghost use Rattle.std.specs.Str.{IsUtf8, chars};
    ghost use Rattle.gift_lex.specs.declared.block.Block.{Block};
    ghost use Rattle.gift_lex.specs.Gathering.{to_come};

    ghost Value = { List Block };

    ghost view = { λ s. to_come s.taken (chars s.rest.now) };

    ghost invariant = { λ s. IsUtf8 s.rest.now };
}

impl<'a> Blocks<'a> {
    /// The blocks of a text, before the first.
    pub fn of(text: &'a str) -> Blocks<'a>
        ensures { result ≡ blocks_of text.now }
    {
        Blocks {
            rest: without_order_mark(text),
            taken: 0,
        }
    }

    /// The next block, or none behind the last. After want of memory it is not said which blocks are still to come.
    pub fn next(&mut self, alloc: Global) -> Result<Option<Block>, NoMemory>
        ensures { IfOk result (λ found. MatchOption found (self.old ≡ [])
            (λ block. self.old ≡ block ∷ self.new)) }
    {
        let mut started = None;
        while !self.rest.is_empty() {
            // A text with more lines than this counts is taken as one for which memory is wanting.
            self.taken = self.taken.checked_add(1).ok_or(NoMemory)?;
            let (line, after) = split_line(self.rest);
            self.rest = after.unwrap_or("");
            if let Some(block) = take_line(alloc, &mut started, self.taken, line)? {
                return Ok(Some(block));
            }
        }
        Ok(end(&mut started))
    }
}
