//! Attempts are started while others edit, ask for regrades and work these.

ghost use Rattle.std.specs.Prelude.{◌≡◌, length};
ghost use Rattle.qz_disks.specs.Shelves.{NoneOutIn};
ghost use Rattle.qz_disks.specs.Slots.{memory_files};

use crate::hands::{HANDS, Hand, seated};
use qz_disks::{Keeper, MemoryShelf};
use qz_folders::found;
use qz_solo::{Solo, load};
use qz_text::{Listed, NoMemory, Text};
use qz_visit::School;
use std::alloc::{AllocGlobal, Global};
use std::process::Abort;
use std::sync::Wait;
use std::test::Fail;
use std::thread;
use std::thread::Threads;

/// So many students of each of six who start attempts. The first is the user 2.
const EACH: u32 = 2;

/// All students.
const STUDENTS: u32 = 12;

/// So often each student asks for a start by the same key.
const TIMES: u32 = 200;

/// So often the question gets a version more, and a regrade is asked and worked.
const ROUNDS: u32 = 64;

/// So many steps of jobs are tried at most, many of which aren't there yet.
const STEPS: u32 = 10_000;

/// A quiz of one question.
const MADE: [&str; 4] = [
    "100 root m1 import Sky\\s{T}",
    "100 root m2 quiz Q deferredfeedback",
    "100 root m3 slot 1 1 2",
    "100 root m4 ready 1",
];

const START: &str = "110 s# k start 1";

const STARTED: &str = "ok 1 started #.1 1 -\n";

/// What is found of each student: the attempt by its key, no other one, and a slot that is bound to the last version.
const FOUND: [(&str, &str); 3] = [
    (START, STARTED),
    ("900 s# other start 1", "refused 10 #.1\n"),
    ("900 root - view #.1 1", " slot todo - 65 0\n"),
];

fn make<K: Keeper, W: Wait>(alloc: Global, hand: &mut Hand<K, W>) -> Result<(), NoMemory> {
    for line in MADE {
        hand.ask(alloc, 0, line, "ok ")?;
    }
    for user in 2..2 + STUDENTS {
        hand.ask(alloc, user, "100 root u# user s# student s#", "made #\n")?;
    }
    Ok(())
}

/// The student starts an attempt, and asks for it again and again.
fn start<K: Keeper, W: Wait>(
    alloc: Global,
    hand: &mut Hand<K, W>,
    user: u32,
) -> Result<(), NoMemory> {
    for _ in 0..TIMES {
        hand.ask(alloc, user, START, STARTED)?;
    }
    Ok(())
}

fn start_all<K: Keeper, W: Wait>(
    alloc: Global,
    hand: &mut Hand<K, W>,
    first: u32,
) -> Result<(), NoMemory> {
    for user in first..first.saturating_add(EACH) {
        start(alloc, hand, user)?;
    }
    Ok(())
}

/// Takes steps of jobs until this one is done.
fn work_to<K: Keeper, W: Wait>(
    alloc: Global,
    hand: &mut Hand<K, W>,
    job: u32,
) -> Result<(), NoMemory> {
    for _ in 0..STEPS {
        if hand.job() > job {
            return Ok(());
        }
        hand.work(alloc)?;
    }
    Ok(())
}

/// Each version is asked for, and so is its regrade, when the last job is done.
fn edit_all<K: Keeper, W: Wait>(alloc: Global, hand: &mut Hand<K, W>) -> Result<(), NoMemory> {
    for job in 1..ROUNDS + 1 {
        hand.ask(alloc, job, "110 root e# edit 1 Sky\\s#\\s{T}", "ok ")?;
        hand.ask(alloc, job, "110 root r# regrade 1", " job #\n")?;
        work_to(alloc, hand, job)?;
    }
    Ok(())
}

/// What the one at this place does.
fn act<K: Keeper, W: Wait>(
    alloc: Global,
    hand: &mut Hand<K, W>,
    place: usize,
) -> Result<(), NoMemory> {
    match place {
        0 => edit_all(alloc, hand),
        1 => work_to(alloc, hand, ROUNDS),
        2 => start_all(alloc, hand, 2),
        3 => start_all(alloc, hand, 4),
        4 => start_all(alloc, hand, 6),
        5 => start_all(alloc, hand, 8),
        6 => start_all(alloc, hand, 10),
        _ => start_all(alloc, hand, 12),
    }
}

fn act_beside<K: Keeper + Send + Sync, R: Threads + Wait + Sync>(
    rt: &R,
    alloc: Global,
    hands: &mut [Hand<K, R>],
)
    ensures { length hands.new ≡ length hands.old }
{
    thread::for_each_mut(
        rt,
        hands,
        HANDS,
        &|place, hand: &mut Hand<K, R>| {
            let _ = act(alloc, hand, place);
        },
    );
}

fn find_all<K: Keeper, W: Wait>(alloc: Global, hand: &mut Hand<K, W>) -> Result<(), NoMemory> {
    for user in 2..2 + STUDENTS {
        for (line, words) in FOUND {
            hand.ask(alloc, user, line, words)?;
        }
    }
    Ok(())
}

/// How many starts were told as the first one of their student.
fn started<K: Keeper, W: Wait>(hands: &[Hand<K, W>]) -> u64 {
    let mut sum: u64 = 0;
    for hand in hands {
        sum = sum.saturating_add(hand.heard());
    }
    sum
}

fn beside<K: Keeper + Send + Sync + Drop, R: Threads + Wait + Sync + Abort>(
    rt: &R,
    alloc: Global,
    solo: Solo<K>,
) -> Result<(), Fail> {
    let (catalog, shards) = solo.into_parts();
    let Ok((school, passes)) = School::open(alloc, catalog, shards, HANDS as u32) else {
        return Err(Fail::from(NoMemory));
    };
    let mut hands = seated(rt, alloc, &school, passes)?;
    make(alloc, &mut hands[0])?;
    act_beside(rt, alloc, &mut hands);
    let bound = hands[0].bound().saturating_add(hands[1].bound());
    // What was made, edits, regrades, and jobs that were done.
    assert!(rt; hands[0].heard() == 4 + 12 + 3 * 64);
    assert!(rt; started(&hands[2..]) == 12 * 200);
    find_all(alloc, &mut hands[2])?;
    assert!(rt; started(&hands[2..]) == 12 * 200 + 3 * 12);
    let last = hands[2].last();
    assert!(rt; last.catalog == 1 + 4 + 12 + 2 * 64);
    assert!(rt; last.parts.as_slice() == [bound.saturating_add(12 + 64)].as_slice());
    Ok(())
}

/// The same over the school of a folder.
fn over<R: Threads + Wait + Sync + Abort>(
    rt: &R,
    alloc: Global,
    folder: &[u8],
    shelf: &mut MemoryShelf,
) -> Result<(), Fail>
    requires { NoneOutIn folder.now (memory_files shelf.old.slots) }
{
    match load(alloc, shelf, folder) {
        Ok(solo) => beside(rt, alloc, solo),
        Err(_) => panic!(rt; "the school isn't loaded"),
    }
}

#[test]
fn starts_beside_regrades_act_once(rt: HostRuntime) -> Result<(), Fail> {
    let alloc = rt.alloc();
    let mut shelf = MemoryShelf::new(alloc, Listed::empty(alloc));
    let token = Text::of(alloc, "root")?;
    assert!(rt; found(alloc, &mut shelf, b"school", 1, &token).is_ok());
    over(&rt, alloc, b"school", &mut shelf)
}
