//! Reading a source whole.

ghost use Rattle.std.specs.Prelude.{◌≡◌, ◌^◌, ◌<◌, length, IfOk, IfErr};
ghost use Rattle.qz_outside.specs.declared.read.ReadStop.TheVariants.{Fault, Memory};
ghost use Rattle.qz_outside.specs.Sources.{EndsReading, ReadsPiece, StopsPiece};

use crate::{Failed, Source};
use qz_text::Bytes;
use std::alloc::{AllocError, Global};

/// How many bytes one call reads at most.
const CHUNK: usize = 65_536;

/// Why a source couldn't be read whole.
#[derive(Clone, Copy, Debug, PartialEq, Eq)]
pub enum ReadStop {
    /// The source failed: its count of faults rose.
    Fault,
    /// It had more bytes than the limit.
    TooLong,
    /// Memory was wanting.
    Memory,
}

impl From<Failed> for ReadStop {
    ghost from_gives = { λ _ stop. stop ≡ Fault };

    fn from(_: Failed) -> Self {
        ReadStop::Fault
    }
}

impl From<AllocError> for ReadStop {
    ghost from_gives = { λ _ stop. stop ≡ Memory };

    fn from(_: AllocError) -> Self {
        ReadStop::Memory
    }
}

/// Reads a source to its end, `limit` bytes at most. Of a longer source it takes one byte past the limit and answers
/// `TooLong`. After `Fault` and `Memory` the bytes read until then are lost.
pub fn read_all<S: Source>(alloc: Global, source: &mut S, limit: usize) -> Result<Bytes, ReadStop>
    requires { limit < 2 ^ 63 }
    ensures { EndsReading limit (S.left source.old) (S.left source.new)
        (S.faults source.old) (S.faults source.new) result }
{
    let mut chunk = vec![in alloc; 0u8; CHUNK.min(limit + 1)]?;
    let mut items = Vec::new(alloc);
    while items.len() <= limit {
        let wanted = CHUNK.min(limit + 1 - items.len());
        let count = read_piece(source, &mut chunk[..wanted], &mut items)?;
        if count == 0 {
            return Ok(Bytes { items });
        }
    }
    Err(ReadStop::TooLong)
}

/// Reads one piece into `room`, puts it behind `items`, and tells how long it is. 0 for a room that isn't empty is the end. After
/// `Fault` no byte is lost, and after `Memory` the piece is.
pub fn read_piece<S: Source>(
    source: &mut S,
    room: &mut [u8],
    items: &mut Vec<u8>,
) -> Result<usize, ReadStop>
    ensures read { IfOk result (ReadsPiece (length room.old) (S.left source.old) (S.left source.new)
        (S.faults source.old) (S.faults source.new) items.old.items items.new.items) }
    ensures stopped { IfErr result (StopsPiece (length room.old) (S.left source.old) (S.left source.new)
        (S.faults source.old) (S.faults source.new)) }
{
    let count = source.read(room)?;
    items.extend_from_slice(&room[..count])?;
    Ok(count)
}
