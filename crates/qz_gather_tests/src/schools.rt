//! Schools in memory, and doors at which they are asked.

ghost use Rattle.std.specs.Prelude.{◌≡◌, ◌≤◌, length, IfOk};
ghost use Rattle.qz_disks.specs.Shelves.{NoneOutIn};
ghost use Rattle.qz_disks.specs.Slots.{memory_files};
ghost use Rattle.qz_terms.specs.declared.limits.TheConstants.{MOST_SHARDS};

use qz_disks::MemoryShelf;
use qz_found::found_folder;
use qz_links::{MemoryClock, MemoryDoor, MemoryLink};
use qz_outside::{MemorySink, MemorySource};
use qz_script_schools::script_folder;
use qz_text::{Bytes, Listed, NoMemory, Text};
use std::alloc::Global;

/// Two students, a question of which true is right, and a quiz of it. The first student begins it, and answers true.
pub(crate) const BEGUN: &str = "\
100 root a1 user ann student ann
100 root a2 user bob student bob
100 root a3 import Sky\\s{T}
100 root a4 quiz Q deferredfeedback
100 root a5 slot 1 1 2
100 root a6 ready 1
110 ann k1 start 1
120 ann k2 save 2.1 1 0 pick:1
";

/// Founds a school of so many shards in a folder.
pub(crate) fn found(
    alloc: Global,
    folder: &[u8],
    shards: u8,
    shelf: &mut MemoryShelf,
) -> Result<(), NoMemory>
    requires some { 1 ≤ shards }
    requires few { shards ≤ MOST_SHARDS }
    requires none_out { NoneOutIn folder.now (memory_files shelf.old.slots) }
    ensures { NoneOutIn folder.now (memory_files shelf.new.slots) }
{
    let token = Text::of(alloc, "root")?;
    let mut sink = MemorySink::new(alloc, 64, Listed::empty(alloc), 64)?;
    found_folder(alloc, folder, shards, &token, &mut sink, shelf);
    Ok(())
}

/// Asks the school of a folder these lines.
pub(crate) fn script(
    alloc: Global,
    folder: &[u8],
    lines: &str,
    shelf: &mut MemoryShelf,
) -> Result<(), NoMemory>
    requires { NoneOutIn folder.now (memory_files shelf.old.slots) }
    ensures { NoneOutIn folder.now (memory_files shelf.new.slots) }
{
    let lines = Bytes::of(alloc, lines.as_bytes())?;
    let mut source = MemorySource::new(lines, Listed::empty(alloc), 65_536);
    let mut sink = MemorySink::new(alloc, 65_536, Listed::empty(alloc), 65_536)?;
    script_folder(alloc, folder, &mut source, &mut sink, shelf);
    Ok(())
}

/// A link whose peer asks this.
fn link_for(alloc: Global, asked: &str) -> Result<MemoryLink, NoMemory> {
    let bytes = Bytes::of(alloc, asked.as_bytes())?;
    let source = MemorySource::new(bytes, Listed::empty(alloc), 65_536);
    let sink = MemorySink::new(alloc, 65_536, Listed::empty(alloc), 65_536)?;
    Ok(MemoryLink::new(source, sink))
}

/// A door at which one link comes, whose peer asks this.
fn door_of(alloc: Global, asked: &str) -> Result<MemoryDoor<MemoryLink>, NoMemory> {
    let mut links = Listed::empty(alloc);
    links.items.push(link_for(alloc, asked)?)?;
    MemoryDoor::new(alloc, links, Listed::empty(alloc))
}

/// A clock that tells a moment at which the time of every attempt is over.
fn late_clock(alloc: Global) -> Result<MemoryClock, NoMemory> {
    let mut moments = Listed::empty(alloc);
    moments.items.push(9000)?;
    Ok(MemoryClock::new(moments))
}

/// The same door, with a clock at which the time of every attempt is over.
pub(crate) fn doors_for(
    alloc: Global,
    asked: &str,
) -> Result<Vec<(MemoryDoor<MemoryLink>, MemoryClock)>, NoMemory>
    ensures { IfOk result (λ doors. length doors.items ≡ 1) }
{
    let door = door_of(alloc, asked)?;
    let clock = late_clock(alloc)?;
    let mut doors = Vec::new(alloc);
    doors.push((door, clock))?;
    Ok(doors)
}
