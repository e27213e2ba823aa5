//! The analysis of a quiz over the school of a folder.

ghost use Rattle.std.specs.Prelude.{◌≡◌, ◌<◌, None, Some, string_bytes, All, IfOk, MatchResult};
ghost use Rattle.qz_book.specs.Held.{IsSound};
ghost use Rattle.qz_disks.specs.Shelves.{NoneOutIn};
ghost use Rattle.qz_ending.specs.Endings.{Ended};
ghost use Rattle.qz_loading.specs.Opening.{lists_of};
ghost use Rattle.qz_stats_school.specs.Lines.{stats_text};
ghost use Rattle.qz_stats_school.specs.Endings.{IsSaid, SaysAll, StatsEnds};

use crate::lines::text_of;
use qz_disks::{Keeper, Shelf};
use qz_ending::Stop;
use qz_opening::open_school;
use qz_outside::{Sink, write_all};
use qz_shard::Shard;
use qz_solo::{Solo, close};
use qz_stats::analyse;
use qz_terms::Record;
use qz_text::{Listed, NoMemory, TryCopy};
use std::alloc::Global;
use std::thread::Threads;

fn copied(alloc: Global, records: &[Record]) -> Result<Listed<Record>, NoMemory>
    ensures { IfOk result (λ list. list ≡ records.now) }
{
    let mut items = Vec::with_capacity(alloc, records.len())?;
    for made in records {
        items.push(made.try_copy(alloc)?)?;
    }
    Ok(Listed { items })
}

/// The lists of shards, in order.
fn lists_of<K: Keeper>(alloc: Global, shards: &[Shard<K>]) -> Result<Vec<Listed<Record>>, NoMemory>
    ensures { IfOk result (λ lists. lists.items ≡ lists_of shards.now) }
{
    let mut lists = Vec::with_capacity(alloc, shards.len())?;
    for shard in shards {
        lists.push(copied(alloc, shard.records())?)?;
    }
    Ok(lists)
}

/// What is told of a quiz.
fn told<R: Threads + Sync, K: Keeper>(
    rt: &R,
    alloc: Global,
    shards: &[Shard<K>],
    quiz: u32,
    workers: u8,
) -> Result<String, NoMemory>
    requires workers { 0 < workers }
    requires sound { All IsSound (lists_of shards.now) }
    ensures { IfOk result (λ text. string_bytes text ≡ stats_text (lists_of shards.now) quiz) }
{
    let lists = lists_of(alloc, shards)?;
    let rows = analyse(rt, alloc, &lists, quiz, workers)?;
    text_of(alloc, rows.as_slice())
}

/// Writes what is told, if memory was there for it.
fn say<O: Sink>(sink: &mut O, told: Result<String, NoMemory>) -> u8
    ensures { Ended (IsSaid told
        (record { holds = O.holds sink.old; faults = O.faults sink.old })
        (record { holds = O.holds sink.new; faults = O.faults sink.new })) result }
{
    let Ok(text) = told else {
        return Stop::Memory.status();
    };
    match write_all(sink, text.as_bytes()) {
        Ok(()) => 0,
        Err(_) => Stop::SinkFault.status(),
    }
}

/// Writes how each slot of a quiz was answered in its finished attempts, over the school of a folder, of which no file is out, and answers
/// the exit status. So many workers, at least one, replay the records at once; what is written is the same for every number.
///
/// Where the files stand for the lists of a school it is the school of these, unless a fault or want of memory keeps it from being opened.
/// A quiz of which no attempt is finished, or that isn't there, has no line. With status 7 the files don't give a school, and one line says
/// why; with status 6 the shelf failed, or the disk of a file, and with 8 memory was wanting: nothing was written. With status 5 the sink
/// failed behind a front of the lines. Afterwards each file is given back, and stands for its list.
pub fn stats<R: Threads + Sync, O: Sink, F: Shelf>(
    rt: &R,
    alloc: Global,
    folder: &[u8],
    quiz: u32,
    workers: u8,
    sink: &mut O,
    shelf: &mut F,
) -> u8
    requires none_out { NoneOutIn folder.now (F.files shelf.old) }
    requires workers { 0 < workers }
    ensures ended { Ended
        (StatsEnds (record { moment = F.Disk.moment; left_at = F.Disk.left_at; sound = F.Disk.sound; faults = F.Disk.faults })
        folder.now quiz
        (record { files = F.files shelf.old; faults = F.faults shelf.old })
        (record { files = F.files shelf.new; faults = F.faults shelf.new })
        (record { holds = O.holds sink.old; faults = O.faults sink.old })
        (record { holds = O.holds sink.new; faults = O.faults sink.new }))
        result }
    ensures complete { SaysAll
        (record { files = F.files shelf.old; faults = F.faults shelf.old })
        (record { files = F.files shelf.new; faults = F.faults shelf.new })
        (record { holds = O.holds sink.old; faults = O.faults sink.old })
        (record { holds = O.holds sink.new; faults = O.faults sink.new })
        result }
{
    match open_school(alloc, folder, sink, shelf) {
        Ok(school) => {
            let (catalog, shards) = school.into_parts();
            let told = told(rt, alloc, &shards, quiz, workers);
            close(shelf, folder, Solo::of(catalog, shards));
            say(sink, told)
        }
        Err(stop) => stop.status(),
    }
}
