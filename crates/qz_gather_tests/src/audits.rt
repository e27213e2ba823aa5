//! What an audit says.

ghost use Rattle.std.specs.Prelude.{◌≤◌};
ghost use Rattle.qz_disks.specs.Shelves.{NoneOutIn};
ghost use Rattle.qz_disks.specs.Slots.{memory_files};

use crate::schools::{BEGUN, doors_for, found, script};
use qz_audit::audit_folder;
use qz_disks::MemoryShelf;
use qz_links::MemoryClock;
use qz_outside::MemorySink;
use qz_stations::Crew;
use qz_text::{Listed, NoMemory};
use std::alloc::{AllocGlobal, Global};
use std::process::Abort;
use std::sync::Wait;
use std::test::Fail;
use std::thread::Threads;

/// The student finishes.
const FINISH: &str = "POST /api/ask HTTP/1.1\r\n\
    Host: localhost\r\n\
    Authorization: Bearer ann\r\n\
    Content-Length: 42\r\n\r\n\
    {\"do\":\"finish\",\"key\":\"k3\",\"attempt\":\"2.1\"}";

/// The teacher asks for a regrade.
const REGRADE: &str = "POST /api/ask HTTP/1.1\r\n\
    Host: localhost\r\n\
    Authorization: Bearer root\r\n\
    Content-Length: 36\r\n\r\n\
    {\"do\":\"regrade\",\"key\":\"r1\",\"quiz\":1}";

/// What an audit of the school of a folder says, and its status. One worker serves a link, and so many regrade, one at most.
fn audited<W: Threads + Wait + Sync>(
    rt: &W,
    alloc: Global,
    folder: &[u8],
    regraders: u8,
    asked: &str,
    shelf: &mut MemoryShelf,
) -> Result<(u8, String), NoMemory>
    requires none_out { NoneOutIn folder.now (memory_files shelf.old.slots) }
    requires few { regraders ≤ 1 }
{
    let mut sink = MemorySink::new(alloc, 256, Listed::empty(alloc), 256)?;
    let mut doors = doors_for(alloc, asked)?;
    let mut clocks = Vec::new(alloc);
    clocks.push(MemoryClock::new(Listed::empty(alloc)))?;
    let crew = Crew {
        workers: 1,
        links: 1,
        regraders,
    };
    let status = audit_folder(
        rt, alloc, folder, crew, &mut sink, &mut doors, clocks, shelf,
    );
    Ok((status, String::from_utf8_lossy(alloc, sink.bytes())?))
}

/// The same of the school that was asked these lines.
fn audited_behind<W: Threads + Wait + Sync>(
    rt: &W,
    alloc: Global,
    lines: &str,
    regraders: u8,
    asked: &str,
) -> Result<(u8, String), NoMemory>
    requires { regraders ≤ 1 }
{
    let mut shelf = MemoryShelf::new(alloc, Listed::empty(alloc));
    found(alloc, b"school", 1, &mut shelf)?;
    script(alloc, b"school", lines, &mut shelf)?;
    audited(rt, alloc, b"school", regraders, asked, &mut shelf)
}

/// An audit behind these lines ends well and says this.
fn told<R: Abort + AllocGlobal + Threads + Wait + Sync>(
    rt: &R,
    lines: &str,
    regraders: u8,
    asked: &str,
    says: &str,
) -> Result<(), Fail>
    requires { regraders ≤ 1 }
{
    let (status, said) = audited_behind(rt, rt.alloc(), lines, regraders, asked)?;
    assert_eq!(rt; (status, said.as_str()), (0, says));
    Ok(())
}

#[test]
fn a_link_is_audited(rt: HostRuntime) -> Result<(), Fail> {
    told(&rt, BEGUN, 0, FINISH, "served 1\ngathered 1\n")
}

/// A regrade of the one attempt is asked, whose slot is bound anew, and then the job is done.
#[test]
fn the_work_of_one_who_regrades_is_audited(rt: HostRuntime) -> Result<(), Fail> {
    let mut lines = String::from_str(rt.alloc(), BEGUN)?;
    lines.push_str("130 ann k3 finish 2.1\n")?;
    told(&rt, &lines, 1, REGRADE, "served 1\ngathered 3\n")
}
