//! What a poll of a school says, and what is written on the links that it took.

use crate::lines::{
    Line, LineDoor, add, add_ready, count, cut, door_of, first, late, sent, singly,
};
use crate::schools::{poll, poll_begun};
use qz_disks::MemoryShelf;
use qz_text::{Listed, NoMemory};
use std::alloc::Global;
use std::test::Fail;

/// The student finishes, or has finished by this key.
const ASKED: &str = "POST /api/ask HTTP/1.1\r\n\
    Host: localhost\r\n\
    Authorization: Bearer ann\r\n\
    Content-Length: 42\r\n\r\n\
    {\"do\":\"finish\",\"key\":\"k3\",\"attempt\":\"2.1\"}";

const TOLD: &str = "HTTP/1.1 200 OK\r\n\
    Content-Type: application/json\r\n\
    Content-Length: 54\r\n\
    Connection: keep-alive\r\n\r\n\
    {\"ok\":true,\"place\":3,\"words\":[\"finished\",\"2.0000000\"]}";

/// A request that no route takes.
const LOST: &str = "GET /nowhere HTTP/1.1\r\n\r\n";

const NOT_FOUND: &str = "HTTP/1.1 404 Not Found\r\n\
    Content-Type: text/plain\r\n\
    Content-Length: 0\r\n\
    Connection: keep-alive\r\n\r\n";

/// The request and the reply go in two pieces each, on each link in others, and the second piece is late.
fn in_two_pieces(alloc: Global) -> Result<LineDoor, NoMemory> {
    let mut lines = Listed::empty(alloc);
    for at in 0..TOLD.len() {
        let source = sent(alloc, ASKED, &[])?;
        add(alloc, &mut lines, source, cut(alloc, at)?, cut(alloc, at)?)?;
    }
    door_of(alloc, lines, 999)
}

#[test]
fn an_exchange_may_be_cut_anywhere(rt: HostRuntime) -> Result<(), Fail> {
    let mut door = in_two_pieces(rt.alloc())?;
    let (status, said) = poll_begun(&rt, rt.alloc(), (2, 999), &mut door)?;
    assert_eq!(rt;
        (status, said.as_str(), count(&door, TOLD)),
        (0, "served 149\n", 149)
    );
    Ok(())
}

/// Each byte of the request and of the reply goes alone, and late.
fn one_by_one(alloc: Global) -> Result<LineDoor, NoMemory> {
    let mut lines = Listed::empty(alloc);
    let source = sent(alloc, ASKED, &[])?;
    let reads = singly(alloc, ASKED.len())?;
    add(alloc, &mut lines, source, reads, singly(alloc, TOLD.len())?)?;
    door_of(alloc, lines, 9)
}

#[test]
fn each_byte_may_be_late(rt: HostRuntime) -> Result<(), Fail> {
    let mut door = one_by_one(rt.alloc())?;
    let (status, said) = poll_begun(&rt, rt.alloc(), (1, 1), &mut door)?;
    assert_eq!(rt;
        (status, said.as_str(), count(&door, TOLD)),
        (0, "served 1\n", 1)
    );
    Ok(())
}

/// A link that waits for long. It is read at last, unless that fails.
fn add_late(alloc: Global, lines: &mut Listed<Line>, failing: &[u64]) -> Result<(), NoMemory> {
    let source = sent(alloc, "", failing)?;
    add(
        alloc,
        lines,
        source,
        late(alloc, 500)?,
        Listed::empty(alloc),
    )
}

/// A hundred of them, one of which is never read, and then one that asks.
fn hundred_and_one(alloc: Global) -> Result<LineDoor, NoMemory> {
    let mut lines = Listed::empty(alloc);
    add_late(alloc, &mut lines, &[1])?;
    for _ in 1..100 {
        add_late(alloc, &mut lines, &[])?;
    }
    add_ready(alloc, &mut lines, ASKED)?;
    door_of(alloc, lines, 999)
}

/// The one that asks has its reply, and is given back, before any of the others.
#[test]
fn a_hundred_wait_while_one_works(rt: HostRuntime) -> Result<(), Fail> {
    let mut door = hundred_and_one(rt.alloc())?;
    let (status, said) = poll_begun(&rt, rt.alloc(), (101, 101), &mut door)?;
    assert_eq!(rt; (status, said.as_str()), (0, "served 101\n"));
    assert_eq!(rt;
        (first(&door), count(&door, TOLD), count(&door, "")),
        (Some(100), 1, 100)
    );
    Ok(())
}

fn times(alloc: Global, text: &str, count: u32) -> Result<String, NoMemory> {
    let mut all = String::new(alloc);
    for _ in 0..count {
        all.push_str(text)?;
    }
    Ok(all)
}

/// A link with more requests than are answered at once, and one with one.
fn many_and_one(alloc: Global) -> Result<LineDoor, NoMemory> {
    let mut lines = Listed::empty(alloc);
    add_ready(alloc, &mut lines, &times(alloc, LOST, 130)?)?;
    add_ready(alloc, &mut lines, ASKED)?;
    door_of(alloc, lines, 9)
}

/// The second link has its turn before the first has all its replies.
#[test]
fn many_requests_leave_others_their_turn(rt: HostRuntime) -> Result<(), Fail> {
    let mut door = many_and_one(rt.alloc())?;
    let (status, said) = poll_begun(&rt, rt.alloc(), (2, 2), &mut door)?;
    assert_eq!(rt; (status, said.as_str()), (0, "served 2\n"));
    assert_eq!(rt; (first(&door), count(&door, TOLD)), (Some(1), 1));
    assert_eq!(rt; count(&door, &times(rt.alloc(), NOT_FOUND, 130)?), 1);
    Ok(())
}

/// So many links that ask, at a door whose call of this number fails.
fn asking(alloc: Global, links: u32, failing: u64) -> Result<LineDoor, NoMemory> {
    let mut lines = Listed::empty(alloc);
    for _ in 0..links {
        add_ready(alloc, &mut lines, ASKED)?;
    }
    door_of(alloc, lines, failing)
}

/// No link comes, fewer come than are asked for, more come, and the door fails behind the first.
#[test]
fn a_poll_ends_with_its_door(rt: HostRuntime) -> Result<(), Fail> {
    for (come, links, failing, status, said) in [
        (0, 5, 9, 0, "served 0\n"),
        (2, 5, 9, 0, "served 2\n"),
        (2, 1, 9, 0, "served 1\n"),
        (2, 5, 2, 10, "served 1\n"),
    ] {
        let mut door = asking(rt.alloc(), come, failing)?;
        let told = poll_begun(&rt, rt.alloc(), (1, links), &mut door)?;
        assert_eq!(rt; (told.0, told.1.as_str()), (status, said));
    }
    Ok(())
}

/// Where no school is loaded no link is taken.
#[test]
fn a_poll_without_a_school_takes_no_link(rt: HostRuntime) -> Result<(), Fail> {
    for (failing, status, said) in [(9, 7, "not founded\n"), (1, 6, "")] {
        let mut door = asking(rt.alloc(), 1, 9)?;
        let items = vec![in rt.alloc(); failing]?;
        let mut shelf = MemoryShelf::new(rt.alloc(), Listed { items });
        let told = poll(&rt, rt.alloc(), b"school", (1, 1), &mut door, &mut shelf)?;
        assert_eq!(rt; (told.0, told.1.as_str()), (status, said));
        assert!(rt; door.door().returned().is_empty());
    }
    Ok(())
}
