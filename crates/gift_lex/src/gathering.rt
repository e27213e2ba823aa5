//! Blocks, gathered line by line.

ghost use Rattle.std.specs.Prelude.{◌≡◌, None, OnOk, IfOk, OnSome};
ghost use Rattle.std.specs.Option.{option_to_list};
ghost use Rattle.std.specs.Str.{chars};
ghost use Rattle.gift_lex.specs.Gathering.{at_front, begun, extended, ended, TakesLine};

use crate::block::{Block, Piece};
use crate::lines::{is_blank_line, is_category, is_comment};
use crate::marks::push_marks;
use qz_text::{Listed, NoMemory};
use std::alloc::Global;

/// A block that further lines may join.
#[derive(Drop)]
pub(crate) struct Started {
    line: u32,
    last_line: u32,
    marks: Listed<Piece>,
    only_comments: bool,
}

/// Takes the next line, and gives the block that it ends.
pub(crate) fn take_line(
    alloc: Global,
    started: &mut Option<Started>,
    number: u32,
    line: &str,
) -> Result<Option<Block>, NoMemory>
    ensures taken { IfOk result (TakesLine started.old started.new (number, chars line.now)) }
    ensures over { IfOk result (λ block. OnSome block (started.new ≡ None)) }
{
    if is_blank_line(line) {
        return Ok(end(started));
    }
    let ends = at_front(started) && is_category(line);
    let mut grown = begun(alloc, started.take(), number)?;
    grown.extend(number, line)?;
    *started = Some(grown);
    if ends {
        return Ok(end(started));
    }
    Ok(None)
}

/// Ends the started block, so that no further line joins it, and gives it. Comments alone are none.
pub(crate) fn end(started: &mut Option<Started>) -> Option<Block>
    ensures block { option_to_list result ≡ ended started.old }
    ensures over { started.new ≡ None }
{
    let started = started.take()?;
    if started.only_comments {
        return None;
    }
    Some(started.into_block())
}

impl Started {
    /// Adds the marks of a line, which is the last so far. A comment counts as one space.
    fn extend(&mut self, number: u32, line: &str) -> Result<(), NoMemory>
        ensures { OnOk result (self.new ≡ extended self.old (number, chars line.now)) }
    {
        let is_comment = is_comment(line);
        if is_comment {
            self.marks.items.push(Piece::Plain(' '))?;
        } else {
            push_marks(&mut self.marks, line)?;
        }
        self.last_line = number;
        self.only_comments = self.only_comments && is_comment;
        Ok(())
    }

    /// The block, where no further line joins it.
    fn into_block(self) -> Block
        ensures { result ≡ record { line = self.line; last_line = self.last_line; marks = self.marks } }
    {
        Block {
            line: self.line,
            last_line: self.last_line,
            marks: self.marks,
        }
    }
}

/// Whether a further line stands at the front of its block, but for comments.
fn at_front(started: &Option<Started>) -> bool
    ensures { result ≡ at_front started.now }
{
    match started {
        None => true,
        Some(started) => started.only_comments,
    }
}

/// The started block up to a line of this number, which may be its first.
fn begun(alloc: Global, started: Option<Started>, number: u32) -> Result<Started, NoMemory>
    ensures { IfOk result (λ made. made ≡ begun started number) }
{
    let Some(mut started) = started else {
        return Ok(Started {
            line: number,
            last_line: number,
            marks: Listed::empty(alloc),
            only_comments: true,
        });
    };
    started.marks.items.push(Piece::Plain('\n'))?;
    Ok(started)
}
