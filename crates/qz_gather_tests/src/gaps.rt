//! Which place a note that is left out leaves without one.

ghost use Rattle.std.specs.Prelude.{OnOk};
ghost use Rattle.qz_disks.specs.Shelves.{NoneOutIn};
ghost use Rattle.qz_disks.specs.Slots.{memory_files};

use crate::clerks::{Gap, Line, Out, gap_in};
use crate::schools::{BEGUN, found, script};
use qz_disks::{MemoryDisk, MemoryShelf};
use qz_text::{Bytes, Listed, NoMemory};
use std::alloc::{AllocGlobal, Global};
use std::process::Abort;
use std::sync::Wait;
use std::test::Fail;

/// Two students, and a quiz with a limit of ten minutes, in which one may try again.
const MADE: &str = "\
100 root a1 user ann student ann
100 root a2 user bob student bob
100 root a3 import Sky\\s{T}
100 root a4 tune 1 0.3333333 Look\\sup.
100 root a5 quiz Q interactive
100 root a6 slot 1 1 2
100 root a7 ready 1
100 root a8 times 1 0 0 600 0 autosubmit 0 always
";

/// Requests whose records tell whatever a shard can keep, and some to the catalogue; with the list and the place of each record, and none where
/// nothing is put. There are two shards, one for each student.
const ROUND: [Line<'static>; 24] = [
    ("110 root c1 group red", Some((None, 10))),
    ("120 ann k1 start 1", Some((Some(0), 1))),
    ("121 ann k2 save 2.1 1 0 pick:1", Some((Some(0), 2))),
    ("122 ann k2 save 2.1 1 0 pick:1", None),
    ("123 ann k3 save 2.1 1 0 pick:1", Some((Some(0), 3))),
    ("124 ann k4 submit 2.1 1 0 pick:2", Some((Some(0), 4))),
    ("125 bob k1 start 1", Some((Some(1), 1))),
    ("126 ann k5 again 2.1 1", Some((Some(0), 5))),
    ("128 ann k6 finish 2.1", Some((Some(0), 6))),
    ("129 ann k7 finish 2.1", None),
    ("130 root m1 mark 2.1 1 1", Some((Some(0), 7))),
    ("131 root c2 edit 1 Sky\\s{F}", Some((None, 11))),
    ("132 root c3 regrade 1", Some((None, 12))),
    ("133 root - work 1 0", Some((Some(0), 8))),
    ("134 worker - work 1 0", Some((Some(0), 9))),
    ("136 worker - work 1 1", Some((Some(1), 2))),
    ("137 worker - work 1 1", Some((Some(1), 3))),
    ("138 root c4 edit 1 Sky\\s{=a\\s~b\\s~c}", Some((None, 13))),
    ("139 root c5 regrade 1", Some((None, 14))),
    ("140 worker - work 2 0", Some((Some(0), 10))),
    ("141 worker - work 2 0", Some((Some(0), 11))),
    ("725 worker - settle 3.1", None),
    ("726 worker - settle 3.1", Some((Some(1), 4))),
    ("727 root c6 user cid student cid", Some((None, 15))),
];

/// Requests behind `BEGUN`, to the catalogue and to the shard, with the places of their records where no call fails.
const BESIDE: [Line<'static>; 4] = [
    ("130 root b1 group red", Some((None, 8))),
    ("131 root b2 group blue", Some((None, 9))),
    ("132 ann k3 save 2.1 1 0 pick:2", Some((Some(0), 3))),
    ("133 ann k4 save 2.1 1 0 pick:1", Some((Some(0), 4))),
];

/// Behind `BEGUN` the first 20 calls of its disk load it, and the next four append a record.
const CATALOG: &[u8] = b"catalog.jnl";

/// The first ten calls of its disk load it.
const SHARD: &[u8] = b"part-00.jnl";

/// Chosen calls of the disk of a file fail from now on.
fn fail_at(
    alloc: Global,
    folder: &[u8],
    name: &[u8],
    failing: &[u64],
    shelf: &mut MemoryShelf,
) -> Result<(), NoMemory>
    requires { NoneOutIn folder.now (memory_files shelf.old.slots) }
    ensures { OnOk result (NoneOutIn folder.now (memory_files shelf.new.slots)) }
{
    let bytes = match shelf.file(folder, name) {
        Some(disk) => Bytes::of(alloc, disk.bytes())?,
        None => return Err(NoMemory),
    };
    let failing = Listed {
        items: Vec::from_slice(alloc, failing)?,
    };
    let disk = MemoryDisk::holding(alloc, bytes.as_slice(), failing)?;
    shelf.put(alloc, folder, name, disk)?;
    Ok(())
}

/// What a school of two shards was asked before, and what a clerk asks it then.
#[derive(Clone, Copy)]
struct Asking<'a> {
    before: &'a str,
    lines: &'a [Line<'a>],
}

const FINISHED: Asking<'static> = Asking {
    before: BEGUN,
    lines: &[("130 ann k3 finish 2.1", Some((Some(0), 3)))],
};

const ROUND_OF_TWO: Asking<'static> = Asking {
    before: MADE,
    lines: &ROUND,
};

const BESIDE_BEGUN: Asking<'static> = Asking {
    before: BEGUN,
    lines: &BESIDE,
};

/// The calls of the disk of a file that fail while the clerk asks.
type Failing<'a> = (&'a [u8], &'a [u64]);

/// No call fails.
const NONE: Failing<'static> = (CATALOG, &[]);

/// The first note that is taken out and how many are, and the line whose place is the first gap then.
type Row = (usize, usize, Option<usize>);

/// The first gap of a school where these calls fail and these notes are taken out.
fn gap<W: Wait>(
    rt: &W,
    alloc: Global,
    asking: Asking,
    failing: Failing,
    out: Out,
) -> Result<Gap, NoMemory> {
    let (name, calls) = failing;
    let mut shelf = MemoryShelf::new(alloc, Listed::empty(alloc));
    found(alloc, b"school", 2, &mut shelf)?;
    script(alloc, b"school", asking.before, &mut shelf)?;
    fail_at(alloc, b"school", name, calls, &mut shelf)?;
    gap_in(rt, alloc, b"school", asking.lines, out, &mut shelf)
}

/// The place of a line.
fn place_of(asking: Asking, line: Option<usize>) -> Gap {
    let (_, place) = asking.lines.get(line?)?;
    *place
}

/// Another gap than a row tells, with what was taken out.
fn wrong<W: Wait>(
    rt: &W,
    alloc: Global,
    asking: Asking,
    failing: Failing,
    rows: &[Row],
) -> Result<Option<(Out, Gap)>, NoMemory> {
    for (first, count, line) in rows {
        let out = (*first, *count);
        let told = gap(rt, alloc, asking, failing, out)?;
        if told != place_of(asking, *line) {
            return Ok(Some((out, told)));
        }
    }
    Ok(None)
}

/// Fails a test where another gap is told than a row tells.
fn told<R: Abort + AllocGlobal + Wait>(
    rt: &R,
    asking: Asking,
    failing: Failing,
    rows: &[Row],
) -> Result<(), Fail> {
    let wrong = wrong(rt, rt.alloc(), asking, failing, rows)?;
    assert_eq!(rt; wrong, None);
    Ok(())
}

#[test]
fn a_finish_without_a_note_is_a_gap(rt: HostRuntime) -> Result<(), Fail> {
    told(&rt, FINISHED, NONE, &[(0, 0, None), (0, 1, Some(0))])
}

#[test]
fn each_record_wants_its_note(rt: HostRuntime) -> Result<(), Fail> {
    for first in 0..ROUND.len() {
        told(&rt, ROUND_OF_TWO, NONE, &[(first, 1, Some(first))])?;
    }
    Ok(())
}

const FIRST_ROWS: [Row; 7] = [
    (0, 0, None),
    (0, 24, Some(0)),
    (1, 23, Some(11)),
    (6, 2, Some(7)),
    (15, 2, Some(15)),
    (15, 3, Some(17)),
    (19, 4, Some(19)),
];

#[test]
fn the_first_gap_is_told(rt: HostRuntime) -> Result<(), Fail> {
    told(&rt, ROUND_OF_TWO, NONE, &FIRST_ROWS)
}

/// Though a keeper failed at its request, a record stands where it was written, and its note speaks for it. Else it is dropped, and the next one
/// takes its place.
#[test]
fn a_note_in_doubt_speaks_for_what_stands(rt: HostRuntime) -> Result<(), Fail> {
    for (name, call, rows) in [
        (CATALOG, 21, [(0, 1, None), (1, 1, Some(0))]),
        (CATALOG, 24, [(0, 1, Some(0)), (1, 1, Some(1))]),
        (SHARD, 11, [(2, 1, None), (3, 1, Some(2))]),
        (SHARD, 14, [(2, 1, Some(2)), (3, 1, Some(3))]),
    ] {
        told(&rt, BESIDE_BEGUN, (name, &[call]), &rows)?;
    }
    Ok(())
}

#[test]
fn failing_disks_leave_no_gap(rt: HostRuntime) -> Result<(), Fail> {
    for call in 21..60 {
        told(
            &rt,
            BESIDE_BEGUN,
            (CATALOG, &[call, call + 1]),
            &[(0, 0, None)],
        )?;
        told(
            &rt,
            BESIDE_BEGUN,
            (SHARD, &[call - 10, call - 9]),
            &[(0, 0, None)],
        )?;
    }
    Ok(())
}
