//! Links in memory at a pace, and a door at which they come.

use qz_links::{MemoryDoor, MemoryLink};
use qz_outside::{MemorySink, MemorySource};
use qz_ready::{Pace, PacedDoor, PacedLink, ReadyLink, Turn};
use qz_text::{Bytes, Listed, NoMemory};
use std::alloc::Global;

pub(crate) type Line = PacedLink<MemoryLink>;

pub(crate) type LineDoor = PacedDoor<MemoryDoor<Line>>;

/// So many calls wait first.
pub(crate) fn late(alloc: Global, waits: usize) -> Result<Listed<Turn>, NoMemory> {
    Ok(Listed {
        items: vec![in alloc; Turn::Waits; waits]?,
    })
}

/// One call moves so many bytes at most, and the next waits.
pub(crate) fn cut(alloc: Global, most: usize) -> Result<Listed<Turn>, NoMemory> {
    Ok(Listed {
        items: vec![in alloc; Turn::Moves(most), Turn::Waits]?,
    })
}

/// So many bytes go one by one, and before each a call waits.
pub(crate) fn singly(alloc: Global, bytes: usize) -> Result<Listed<Turn>, NoMemory> {
    let mut items = Vec::new(alloc);
    for _ in 0..bytes {
        items.push(Turn::Waits)?;
        items.push(Turn::Moves(1))?;
    }
    Ok(Listed { items })
}

/// What a peer sends. The reads of these numbers fail.
pub(crate) fn sent(alloc: Global, text: &str, failing: &[u64]) -> Result<MemorySource, NoMemory> {
    let failing = Listed {
        items: Vec::from_slice(alloc, failing)?,
    };
    let bytes = Bytes::of(alloc, text.as_bytes())?;
    Ok(MemorySource::new(bytes, failing, 65_536))
}

/// One link more, whose key is the number of those before it.
pub(crate) fn add(
    alloc: Global,
    lines: &mut Listed<Line>,
    source: MemorySource,
    reads: Listed<Turn>,
    writes: Listed<Turn>,
) -> Result<(), NoMemory> {
    let sink = MemorySink::new(alloc, 16_384, Listed::empty(alloc), 65_536)?;
    let link = MemoryLink::new(source, sink);
    let key = lines.items.len() as u64;
    let line = PacedLink::new(key, link, Pace::new(reads), Pace::new(writes));
    lines.items.push(line)?;
    Ok(())
}

/// One link more, whose peer sends this and which never waits.
pub(crate) fn add_ready(
    alloc: Global,
    lines: &mut Listed<Line>,
    text: &str,
) -> Result<(), NoMemory> {
    let source = sent(alloc, text, &[])?;
    add(
        alloc,
        lines,
        source,
        Listed::empty(alloc),
        Listed::empty(alloc),
    )
}

/// A door at which these links come, the first of them late. Its call of this number fails.
pub(crate) fn door_of(
    alloc: Global,
    lines: Listed<Line>,
    failing: u64,
) -> Result<LineDoor, NoMemory> {
    let failing = Listed {
        items: vec![in alloc; failing]?,
    };
    let door = MemoryDoor::new(alloc, lines, failing)?;
    Ok(PacedDoor::new(u64::MAX, door, Pace::new(late(alloc, 2)?)))
}

/// How many links were given back of which this was read and on which this was written.
pub(crate) fn count(door: &LineDoor, written: &str) -> usize {
    let mut count = 0_usize;
    for line in door.door().returned() {
        let link = line.link();
        if link.left().is_empty() && link.bytes() == written.as_bytes() {
            count = count.saturating_add(1);
        }
    }
    count
}

/// The key of the link that was given back first.
pub(crate) fn first(door: &LineDoor) -> Option<u64> {
    let line = door.door().returned().first()?;
    Some(line.key())
}
