//! A line of a script.

ghost use Rattle.std.specs.Prelude.{◌≡◌, [], IfOk};
ghost use Rattle.std.specs.Str.{is_utf8};
ghost use Rattle.qz_wire.specs.Asking.{CanBeAsked};
ghost use Rattle.qz_script.specs.ScriptLines.{IsItem, kept, kept_item, with_piece};

use qz_grading::Refusal;
use qz_terms::Ask;
use qz_text::{Bytes, NoMemory};
use qz_wire::ask_of_line;
use std::alloc::Global;

/// A line has at most so many bytes, its line feed not counted.
const LONGEST: usize = 17_825_792;

/// A line, or the front of one that was read so far. Of a line that is too long nothing is kept.
#[derive(Drop)]
pub enum ScriptLine {
    Kept(Bytes),
    TooLong,
}

impl ScriptLine {
    /// A line without a byte.
    pub fn empty(alloc: Global) -> ScriptLine
        ensures { result ≡ kept [] }
    {
        ScriptLine::Kept(Bytes {
            items: Vec::new(alloc),
        })
    }

    /// The line with this piece behind it.
    pub fn with_piece(self, piece: &[u8]) -> Result<ScriptLine, NoMemory>
        ensures { IfOk result (λ longer. longer ≡ with_piece self piece.now) }
    {
        match self {
            ScriptLine::TooLong => Ok(ScriptLine::TooLong),
            ScriptLine::Kept(front) => longer(front, piece),
        }
    }

    /// The moment and the request of the line. A line without a reading is `Malformed`: at the place 0 as a whole, where it is too long
    /// (rule 2) or no UTF-8 (rule 0).
    pub fn item(&self, alloc: Global) -> Result<(u64, Ask), Refusal>
        ensures item { IsItem result (kept_item self.now) }
        ensures asked { IfOk result (λ x. CanBeAsked x.1 x.0) }
    {
        match self {
            ScriptLine::TooLong => Err(Refusal::Malformed { place: 0, rule: 2 }),
            ScriptLine::Kept(line) => text_item(alloc, line.as_slice()),
        }
    }
}

fn longer(mut front: Bytes, piece: &[u8]) -> Result<ScriptLine, NoMemory>
    ensures { IfOk result (λ longer. longer ≡ with_piece (ScriptLine.Kept front) piece.now) }
{
    if front.items.len().saturating_add(piece.len()) > LONGEST {
        return Ok(ScriptLine::TooLong);
    }
    front.items.extend_from_slice(piece)?;
    Ok(ScriptLine::Kept(front))
}

fn text_item(alloc: Global, line: &[u8]) -> Result<(u64, Ask), Refusal>
    ensures item { IsItem result (kept_item (ScriptLine.Kept line.now)) }
    ensures asked { IfOk result (λ x. CanBeAsked x.1 x.0) }
{
    if !is_text(line) {
        return Err(Refusal::Malformed { place: 0, rule: 0 });
    }
    ask_of_line(alloc, line)
}

/// Whether bytes are UTF-8.
fn is_text(bytes: &[u8]) -> bool
    ensures { result ≡ is_utf8 bytes.now }
{
    str::from_utf8(bytes).is_ok()
}
