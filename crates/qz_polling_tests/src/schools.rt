//! A school in memory that is polled.

ghost use Rattle.qz_disks.specs.Shelves.{NoneOutIn};
ghost use Rattle.qz_disks.specs.Slots.{memory_files};

use crate::lines::{LineDoor, add_ready, door_of};
use qz_disks::MemoryShelf;
use qz_found::found_folder;
use qz_links::Clock;
use qz_outside::MemorySink;
use qz_polling::poll_folder;
use qz_ready_doors::Unwatched;
use qz_text::{Listed, NoMemory, Text};
use std::alloc::{AllocGlobal, Global};
use std::random::RandomSource;
use std::sync::Wait;

/// A clock that stands still.
#[derive(Clone, Copy)]
pub(crate) struct Still {
    pub(crate) moment: u64,
}

impl Clock for Still {
    ghost tells = { λ _ _ _. Unit {0} };

    fn now(&mut self) -> u64 {
        self.moment
    }
}

/// A student, a question of which true is right, and a quiz of it. The student begins it, and answers true. Each is asked
/// by a token, and stands with ' in the place of ".
const BEGUN: [(&str, &str); 7] = [
    (
        "root",
        "{'do':'user','key':'a1','name':'ann','role':'student','token':'ann'}",
    ),
    ("root", "{'do':'import','key':'a2','gift':'Sky {T}'}"),
    (
        "root",
        "{'do':'quiz','key':'a3','name':'Q','behaviour':'deferredfeedback'}",
    ),
    (
        "root",
        "{'do':'slot','key':'a4','quiz':1,'entry':1,'max':'2'}",
    ),
    ("root", "{'do':'ready','key':'a5','quiz':1}"),
    ("ann", "{'do':'start','key':'k1','quiz':1}"),
    (
        "ann",
        "{'do':'save','key':'k2','attempt':'2.1','slot':1,'certainty':0,'response':'pick:1'}",
    ),
];

/// A door at which one link comes, whose peer asks this.
fn door_to_begin(alloc: Global) -> Result<LineDoor, NoMemory> {
    let mut text = String::new(alloc);
    for (token, body) in BEGUN {
        let body = body.replace(alloc, "'", "\"")?;
        let count = body.len();
        let head = format!(in alloc;
            "POST /api/ask HTTP/1.1\r\nHost: localhost\r\nAuthorization: Bearer {token}\r\nContent-Length: {count}\r\n\r\n"
        )?;
        text.push_str(&head)?;
        text.push_str(&body)?;
    }
    let mut lines = Listed::empty(alloc);
    add_ready(alloc, &mut lines, &text)?;
    door_of(alloc, lines, 9)
}

/// Founds a school of one shard in a folder.
fn found(alloc: Global, folder: &[u8], shelf: &mut MemoryShelf) -> Result<(), NoMemory>
    requires { NoneOutIn folder.now (memory_files shelf.old.slots) }
    ensures { NoneOutIn folder.now (memory_files shelf.new.slots) }
{
    let token = Text::of(alloc, "root")?;
    let mut sink = MemorySink::new(alloc, 64, Listed::empty(alloc), 64)?;
    found_folder(alloc, folder, 1, &token, &mut sink, shelf);
    Ok(())
}

/// Polls the school of a folder by so many visits, where so many links are taken at most: the status, and what it says.
pub(crate) fn poll<R: Wait + RandomSource + AllocGlobal>(
    rt: &R,
    alloc: Global,
    folder: &[u8],
    bounds: (u16, u32),
    door: &mut LineDoor,
    shelf: &mut MemoryShelf,
) -> Result<(u8, String), NoMemory>
    requires { NoneOutIn folder.now (memory_files shelf.old.slots) }
    ensures { NoneOutIn folder.now (memory_files shelf.new.slots) }
{
    let (visits, links) = bounds;
    let mut sink = MemorySink::new(alloc, 64, Listed::empty(alloc), 64)?;
    let clocks = vec![in alloc; Still { moment: 1000 }; usize::from(visits)]?;
    let watch = &mut Unwatched;
    let status = poll_folder(
        rt, watch, alloc, folder, links, &mut sink, shelf, door, clocks,
    );
    Ok((status, String::from_utf8_lossy(alloc, sink.bytes())?))
}

/// The same of a school in which the student has begun.
pub(crate) fn poll_begun<R: Wait + RandomSource + AllocGlobal>(
    rt: &R,
    alloc: Global,
    bounds: (u16, u32),
    door: &mut LineDoor,
) -> Result<(u8, String), NoMemory> {
    let folder = b"school";
    let mut shelf = MemoryShelf::new(alloc, Listed::empty(alloc));
    found(alloc, folder, &mut shelf)?;
    let mut first = door_to_begin(alloc)?;
    poll(rt, alloc, folder, (1, 1), &mut first, &mut shelf)?;
    poll(rt, alloc, folder, bounds, door, &mut shelf)
}
