use qz_outside::{MemorySink, MemorySource};
use qz_sqlbases::MemoryBases;
use qz_sqlopen::sqlopen;
use qz_sqlscript::sql;
use qz_text::{Bytes, Listed, NoMemory, Text};
use std::alloc::Global;
use std::test::Fail;

const FOLDER: &[u8] = b"school";

// An attempt that was finished and one that goes on, and a regrade of both.
const LINES: &str = r"100 root a1 user ann student ann
100 root a2 user bob student bob
100 root a3 import Sky\s{T}
100 root a4 quiz Q deferredfeedback
100 root a5 slot 1 1 2
100 root a6 ready 1
110 ann k1 start 1
120 ann k2 save 2.1 1 0 pick:1
130 ann k3 finish 2.1
140 ann k4 start 1
150 ann k5 save 2.2 1 0 pick:2
160 root c1 edit 1 Sky\s{F}
170 root c2 regrade 1
175 ann - grade 1 2
180 root - work 1 0
181 ann - grade 1 2
182 root - work 1 0
183 root - work 1 0
184 root - work 1 0
";

const REPLIES: &str = "ok 2 made 2
ok 3 made 3
ok 4 imported 1 1
ok 5 made 1
ok 6 slot 1
ok 7 done
ok 1 started 2.1 1 -
ok 2 step complete -
ok 3 finished 2.0000000
ok 4 started 2.2 1 -
ok 5 step complete -
ok 8 version 1 2
ok 9 job 1
ok 5 grade 10.00000
ok 6 rebound 2.1 1 gradedwrong 0.0000000
ok 6 grade 0.00000
ok 7 rebound 2.2 1 complete -
ok 8 jobdone 1
ok 8 alreadydone 1
";

const LAST_LINES: &str = "190 ann k6 finish 2.2
191 ann - grade 1 2
192 ann k3 finish 2.1
";

const LAST_REPLIES: &str = "ok 8 finished 2.0000000
ok 8 grade 10.00000
ok 3 finished 2.0000000
";

// The status of a script over bases, and what it writes. Bases of which a database is out tell 255.
fn told(
    alloc: Global,
    bases: &mut MemoryBases,
    token: &str,
    lines: &str,
) -> Result<(u8, MemorySink), NoMemory> {
    let mut source = MemorySource::new(
        Bytes::of(alloc, lines.as_bytes())?,
        Listed::empty(alloc),
        64,
    );
    let mut sink = MemorySink::new(alloc, 4096, Listed::empty(alloc), 64)?;
    let token = Text::of(alloc, token)?;
    if token.as_bytes().len() > 64
        || bases.is_out(FOLDER, b"catalog.db")
        || bases.is_out(FOLDER, b"part-00.db")
    {
        return Ok((255, sink));
    }
    let status = sql(alloc, FOLDER, &token, &mut source, &mut sink, bases);
    Ok((status, sink))
}

// The same of the attempts at a quiz that wait.
fn open(alloc: Global, bases: &mut MemoryBases, quiz: u32) -> Result<(u8, MemorySink), NoMemory> {
    let mut sink = MemorySink::new(alloc, 64, Listed::empty(alloc), 64)?;
    if bases.is_out(FOLDER, b"part-00.db") {
        return Ok((255, sink));
    }
    let status = sqlopen(alloc, FOLDER, quiz, &mut sink, bases);
    Ok((status, sink))
}

fn bases_failing(alloc: Global, call: u64) -> Result<MemoryBases, NoMemory> {
    let mut items = Vec::new(alloc);
    items.push(call)?;
    Ok(MemoryBases::new(alloc, Listed { items }))
}

// Where nothing fails each line is answered, and nothing is counted as a fault: neither while the school is founded, nor
// while it is asked, nor when it is opened again, which another token doesn't hinder.
#[test]
fn sql_quiet(rt: HostRuntime) -> Result<(), Fail> {
    let alloc = rt.alloc();
    let mut bases = MemoryBases::new(alloc, Listed::empty(alloc));
    for (token, lines, replies, waiting) in [
        ("root", LINES, REPLIES, "2.2 1\n"),
        ("another", LAST_LINES, LAST_REPLIES, ""),
    ] {
        let (status, sink) = told(alloc, &mut bases, token, lines)?;
        assert_eq!(rt; (status, bases.faults()), (0, 0));
        assert!(rt; sink.bytes() == replies.as_bytes());
        let (status, sink) = open(alloc, &mut bases, 1)?;
        assert_eq!(rt; (status, bases.faults()), (0, 0));
        assert!(rt; sink.bytes() == waiting.as_bytes());
    }
    Ok(())
}

#[test]
fn bases_that_fail(rt: HostRuntime) -> Result<(), Fail> {
    let alloc = rt.alloc();
    for call in [1, 2] {
        let mut bases = bases_failing(alloc, call)?;
        let (status, sink) = told(alloc, &mut bases, "root", LINES)?;
        assert_eq!(rt; (status, bases.faults()), (6, 1));
        assert!(rt; sink.bytes().is_empty());
    }
    let mut bases = bases_failing(alloc, 1)?;
    let (status, sink) = open(alloc, &mut bases, 1)?;
    assert_eq!(rt; (status, bases.faults()), (6, 1));
    assert!(rt; sink.bytes().is_empty());
    Ok(())
}
