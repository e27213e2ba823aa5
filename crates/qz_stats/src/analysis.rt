//! The analysis of a quiz.

ghost use Rattle.std.specs.Fork.{slice_chunk};
ghost use Rattle.std.specs.List.{list_all};
ghost use Rattle.std.specs.Prelude.{◌≡◌, ℕ, ◌+◌, ◌/◌, ◌%◌, ◌^◌, ◌<◌, min, true, is_ok, slice_index_or, length, map, flat_map, fold, max, All, IfOk};
ghost use Rattle.qz_book.specs.Held.{IsSound};
ghost use Rattle.qz_terms.specs.Lists.{places_to};
ghost use Rattle.qz_stats.specs.Rows.{analysis, row_of};
ghost use Rattle.qz_stats.specs.Shards.{IsPlayed, IsSoundShard, shard_counts, shard_row, shards_in, replayed, slots_in};

use crate::SlotRow;
use crate::marks::{facility, marks_of};
use crate::picks::picks;
use crate::replaying::{Replayed, replay_each};
use crate::slots::{most_slots, slots_at};
use qz_book::Played;
use qz_terms::Record;
use qz_text::{Listed, NoMemory};
use std::alloc::Global;
use std::thread;
use std::thread::Threads;

/// Replays so many lists at a time, each time on a thread of its own where one can be started.
fn replay_parts<R: Threads + Sync>(
    rt: &R,
    alloc: Global,
    lists: &[Listed<Record>],
    quiz: u32,
    size: usize,
) -> Result<Vec<Result<Vec<Replayed>, NoMemory>>, NoMemory>
    requires some { 0 < size }
    requires sound { All IsSound lists.now }
    ensures count { IfOk result
        (λ parts. length parts.items ≡ length lists.now / size + min 1 (length lists.now % size)) }
    ensures each { IfOk result (λ parts. (n : ℕ) (d : _) → n < length parts.items
        → IfOk (slice_index_or parts.items n d)
        (λ shards. shards.items ≡ map (replayed quiz) (slice_chunk lists.now size n))) }
{
    Ok(thread::map_chunks(
        rt,
        alloc,
        lists,
        size,
        &|_, part| { replay_each(alloc, part, quiz) },
    )?)
}

/// The shards of all parts, in order.
fn joined(
    alloc: Global,
    parts: Vec<Result<Vec<Replayed>, NoMemory>>,
) -> Result<Vec<Replayed>, NoMemory>
    ensures shards { IfOk result (λ shards. shards.items ≡ flat_map shards_in parts.items) }
    ensures all { IfOk result (λ _. list_all is_ok parts.items ≡ true) }
{
    let mut shards = Vec::new(alloc);
    for part in parts {
        let mut part = part?;
        shards.append(&mut part)?;
    }
    Ok(shards)
}

/// The shards of these lists, replayed by so many workers.
fn replay_all<R: Threads + Sync>(
    rt: &R,
    alloc: Global,
    lists: &[Listed<Record>],
    quiz: u32,
    workers: u8,
) -> Result<Vec<Replayed>, NoMemory>
    requires some { 0 < workers }
    requires sound { All IsSound lists.now }
    ensures { IfOk result (λ shards. shards.items ≡ map (replayed quiz) lists.now) }
{
    let size = lists.len().div_ceil(usize::from(workers)).max(1);
    let parts = replay_parts(rt, alloc, lists, quiz, size)?;
    joined(alloc, parts)
}

/// What is told of the slots with a number.
fn row(alloc: Global, slots: &[Played], number: u16) -> Result<SlotRow, NoMemory>
    requires all { All IsPlayed slots.now }
    requires few { length slots.now < 2 ^ 32 }
    ensures { IfOk result (λ row. row ≡ row_of number (slots_in slots.now)) }
{
    let sums = marks_of(slots);
    Ok(SlotRow {
        slot: number,
        tried: sums.tried,
        facility: facility(sums),
        picks: picks(alloc, slots)?,
    })
}

/// A row for each slot, in order.
fn rows(alloc: Global, shards: &[Replayed]) -> Result<Listed<SlotRow>, NoMemory>
    requires { All IsSoundShard shards.now }
    ensures { IfOk result (λ rows. rows ≡ map (shard_row shards.now)
        (places_to (fold max 0 (flat_map shard_counts shards.now)))) }
{
    let mut items = Vec::new(alloc);
    for place in 0..most_slots(shards) {
        let number = place as u16 + 1;
        let slots = slots_at(alloc, shards, number)?;
        items.push(row(alloc, &slots, number)?)?;
    }
    Ok(Listed { items })
}

/// How each slot of a quiz was answered in its finished attempts, over the lists of all shards. Each slot that such an attempt has gets
/// a row, in order; a quiz without one has none.
///
/// So many workers, at least one, replay the lists at once, each some of them, where as many threads can be started; the rows are the
/// same for every number. Each record is followed once, and memory grows with the records. `NoMemory` is the only error.
pub fn analyse<R: Threads + Sync>(
    rt: &R,
    alloc: Global,
    lists: &[Listed<Record>],
    quiz: u32,
    workers: u8,
) -> Result<Listed<SlotRow>, NoMemory>
    requires workers { 0 < workers }
    requires lists { All IsSound lists.now }
    ensures { IfOk result (λ rows. rows ≡ analysis lists.now quiz) }
{
    let shards = replay_all(rt, alloc, lists, quiz, workers)?;
    rows(alloc, &shards)
}
