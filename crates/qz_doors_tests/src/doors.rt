//! A link whose write fails is given back, and its door isn't blamed.

ghost use Rattle.std.specs.Prelude.{[], ⊤, None};

use qz_decimal::Mark;
use qz_doors::{DoorEnd, serve_door, serve_link};
use qz_http::LinkEnd;
use qz_links::{MemoryClock, MemoryDoor, MemoryLink};
use qz_outside::{MemorySink, MemorySource};
use qz_terms::{Ask, Desk, Done, Reply, Shown};
use qz_text::{Bytes, Listed, NoMemory};
use std::alloc::Global;
use std::test::Fail;

/// A desk that gives each request the same reply, and counts them.
#[derive(Drop)]
struct Counting {
    asked: u64,
}

impl Desk for Counting {
    ghost lists = { λ _. record { records = record { list = []; doubt = None }; parts = [] } };

    ghost faults = { λ _. 0 };

    ghost takes = { λ _ _. ⊤ };

    ghost answers = { λ _ _ _ _ _. ⊤ };

    fn ask(&mut self, _alloc: Global, _ask: &Ask, _moment: u64) -> Reply {
        self.asked = self.asked.saturating_add(1);
        let total = Shown::Value(Mark(20_000_000));
        Reply::Ok {
            place: 3,
            done: Done::Finished { total },
        }
    }
}

/// The student finishes.
const ASKED: &str = "POST /api/ask HTTP/1.1\r\n\
    Host: localhost\r\n\
    Authorization: Bearer ann\r\n\
    Content-Length: 42\r\n\r\n\
    {\"do\":\"finish\",\"key\":\"k3\",\"attempt\":\"2.1\"}";

const TOLD: &str = "HTTP/1.1 200 OK\r\n\
    Content-Type: application/json\r\n\
    Content-Length: 54\r\n\
    Connection: keep-alive\r\n\r\n\
    {\"ok\":true,\"place\":3,\"words\":[\"finished\",\"2.0000000\"]}";

/// A request that no route takes.
const LOST: &str = "GET /nowhere HTTP/1.1\r\n\r\n";

const NOT_FOUND: &str = "HTTP/1.1 404 Not Found\r\n\
    Content-Type: text/plain\r\n\
    Content-Length: 0\r\n\
    Connection: keep-alive\r\n\r\n";

/// These texts, one behind the other.
fn joined(alloc: Global, pieces: &[&str]) -> Result<String, NoMemory> {
    let mut text = String::new(alloc);
    for piece in pieces {
        text.push_str(piece)?;
    }
    Ok(text)
}

fn only(alloc: Global, number: u64) -> Result<Listed<u64>, NoMemory> {
    Ok(Listed {
        items: vec![in alloc; number]?,
    })
}

/// A link whose peer sends this, and whose write of this number fails. A response is written at once.
fn link_of(alloc: Global, text: &str, failing: u64) -> Result<MemoryLink, NoMemory> {
    let bytes = Bytes::of(alloc, text.as_bytes())?;
    let source = MemorySource::new(bytes, Listed::empty(alloc), 1000);
    let sink = MemorySink::new(alloc, 1000, only(alloc, failing)?, 1000)?;
    Ok(MemoryLink::new(source, sink))
}

/// A link that asks four times, the second time in vain. Its write of this number fails.
fn four_times(alloc: Global, failing: u64) -> Result<MemoryLink, NoMemory> {
    let text = joined(alloc, &[ASKED, LOST, ASKED, ASKED])?;
    link_of(alloc, &text, failing)
}

/// How serving that link ends, and how many requests the desk was asked.
fn served(alloc: Global, failing: u64) -> Result<(LinkEnd, u64), NoMemory> {
    let mut link = four_times(alloc, failing)?;
    let mut desk = Counting { asked: 0 };
    let mut clock = MemoryClock::new(only(alloc, 130)?);
    let end = serve_link(alloc, &mut desk, &mut link, &mut clock);
    Ok((end, desk.asked))
}

/// The request whose response isn't written was asked; what comes behind it isn't.
#[test]
fn a_link_ends_where_a_write_fails(rt: HostRuntime) -> Result<(), Fail> {
    for (failing, told) in [
        (1, (LinkEnd::WriteFault, 1)),
        (2, (LinkEnd::WriteFault, 1)),
        (3, (LinkEnd::WriteFault, 2)),
        (4, (LinkEnd::WriteFault, 3)),
        (5, (LinkEnd::End, 3)),
    ] {
        let heard = served(rt.alloc(), failing)?;
        assert!(rt; heard == told, "the write {failing}");
    }
    Ok(())
}

/// A door at which such a link comes, and then one that asks once.
fn door_of(alloc: Global, failing: u64) -> Result<MemoryDoor<MemoryLink>, NoMemory> {
    let mut links = Listed::empty(alloc);
    links.items.push(four_times(alloc, failing)?)?;
    links.items.push(link_of(alloc, ASKED, 9)?)?;
    MemoryDoor::new(alloc, links, Listed::empty(alloc))
}

/// How serving that door ends.
fn served_door(alloc: Global, door: &mut MemoryDoor<MemoryLink>) -> Result<DoorEnd, NoMemory> {
    let mut desk = Counting { asked: 0 };
    let mut clock = MemoryClock::new(only(alloc, 130)?);
    Ok(serve_door(alloc, &mut desk, door, &mut clock, 9))
}

/// How many bytes were written on the first of two links that were given back, if they begin these, and how many faults of it were
/// counted; where the other link has its reply.
fn returned(door: &MemoryDoor<MemoryLink>, all: &str) -> Option<(usize, u64)> {
    let [one, other] = door.returned() else {
        return None;
    };
    let is_front = all.as_bytes().starts_with(one.bytes());
    let is_told = other.bytes() == TOLD.as_bytes();
    (is_front && is_told).then_some((one.bytes().len(), one.faults()))
}

/// It is given back with what was written before, and the next link is served. The fault is the link's, not the door's.
#[test]
fn the_next_link_is_served_where_a_write_fails(rt: HostRuntime) -> Result<(), Fail> {
    let alloc = rt.alloc();
    let all = joined(alloc, &[TOLD, NOT_FOUND, TOLD, TOLD])?;
    for (failing, written, faults) in [
        (1, 0, 1),
        (2, 149, 1),
        (3, 244, 1),
        (4, 393, 1),
        (5, 542, 0),
    ] {
        let mut door = door_of(alloc, failing)?;
        let end = served_door(alloc, &mut door)?;
        assert!(rt; end.taken == 2 && end.short == 0, "the write {failing}");
        assert!(rt; !end.fault && door.faults() == 0, "the write {failing}");
        let told = returned(&door, &all);
        assert!(rt; told == Some((written, faults)), "the write {failing}");
    }
    Ok(())
}
