//! The slots of the attempts that are looked at.

ghost use Rattle.std.specs.Prelude.{◌≡◌, ◌≤◌, ◌<◌, ◌^◌, ◌++◌, ◌∷◌, [], max, fold, flat_map, option_to_list, length, All, IfOk, OnOk};
ghost use Rattle.qz_book.specs.Held.{IsSound};
ghost use Rattle.qz_terms.specs.History.{slot};
ghost use Rattle.qz_stats.specs.Shards.{IsPlayed, IsSoundShard, shard_counts, shard_slots, slot_in, slots_in};

use crate::replaying::Replayed;
use qz_book::{Book, Played};
use qz_grading::AttemptId;
use qz_text::NoMemory;
use std::alloc::Global;

/// So many slots are told of at once, since they are counted in 32 bits.
const MOST_TOLD: usize = 4_294_967_295;

/// Adds a slot. A list that has its greatest number grows no more, and that is a want of memory.
fn keep<'a>(slots: &mut Vec<Played<'a>>, slot: Played<'a>) -> Result<(), NoMemory>
    requires slot { IsPlayed slot }
    requires all { All IsPlayed slots.old.items }
    requires few { length slots.old.items < 2 ^ 32 }
    ensures added { OnOk result (slots.new.items ≡ slots.old.items ++ slot.entry ∷ []) }
    ensures all { OnOk result (All IsPlayed slots.new.items) }
    ensures few { OnOk result (length slots.new.items < 2 ^ 32) }
{
    if slots.len() >= MOST_TOLD {
        return Err(NoMemory);
    }
    Ok(slots.push(slot)?)
}

/// Adds the slot with a number of an attempt, if it has one.
fn slot_onto<'a>(
    slots: &mut Vec<Played<'a>>,
    book: &'a Book,
    attempt: &AttemptId,
    number: u16,
) -> Result<(), NoMemory>
    requires sound { IsSound book.now }
    requires all { All IsPlayed slots.old.items }
    requires few { length slots.old.items < 2 ^ 32 }
    ensures added { OnOk result (slots_in slots.new.items
        ≡ slots_in slots.old.items ++ option_to_list (slot book.now attempt.now number)) }
    ensures all { OnOk result (All IsPlayed slots.new.items) }
    ensures few { OnOk result (length slots.new.items < 2 ^ 32) }
{
    match book.slot(*attempt, number) {
        Some(slot) => keep(slots, slot),
        None => Ok(()),
    }
}

/// Adds the slots with a number of a shard's attempts.
fn slots_onto<'a>(
    slots: &mut Vec<Played<'a>>,
    shard: &'a Replayed,
    number: u16,
) -> Result<(), NoMemory>
    requires sound { IsSoundShard shard.now }
    requires all { All IsPlayed slots.old.items }
    requires few { length slots.old.items < 2 ^ 32 }
    ensures added { OnOk result
        (slots_in slots.new.items ≡ slots_in slots.old.items ++ shard_slots number shard.now) }
    ensures all { OnOk result (All IsPlayed slots.new.items) }
    ensures few { OnOk result (length slots.new.items < 2 ^ 32) }
{
    for attempt in shard.attempts.as_slice() {
        slot_onto(slots, &shard.book, attempt, number)?;
    }
    Ok(())
}

/// The slots with a number, over all shards.
pub(crate) fn slots_at<'a>(
    alloc: Global,
    shards: &'a [Replayed],
    number: u16,
) -> Result<Vec<Played<'a>>, NoMemory>
    requires { All IsSoundShard shards.now }
    ensures slots { IfOk result
        (λ slots. slots_in slots.items ≡ flat_map (shard_slots number) shards.now) }
    ensures all { IfOk result (λ slots. All IsPlayed slots.items) }
    ensures few { IfOk result (λ slots. length slots.items < 2 ^ 32) }
{
    let mut slots = Vec::new(alloc);
    for shard in shards {
        slots_onto(&mut slots, shard, number)?;
    }
    Ok(slots)
}

/// The most slots of an attempt of a shard, or so many if it has none with more.
fn widest(shard: &Replayed, least: usize) -> usize
    requires { least ≤ 200 }
    ensures value { result ≡ fold max least (shard_counts shard.now) }
    ensures few { result ≤ 200 }
{
    let mut most = least;
    for attempt in shard.attempts.as_slice() {
        most = most.max(shard.book.slot_count(*attempt));
    }
    most
}

/// The most slots of an attempt, over all shards, or 0.
pub(crate) fn most_slots(shards: &[Replayed]) -> usize
    ensures value { result ≡ fold max 0 (flat_map shard_counts shards.now) }
    ensures few { result ≤ 200 }
{
    let mut most = 0;
    for shard in shards {
        most = widest(shard, most);
    }
    most
}
