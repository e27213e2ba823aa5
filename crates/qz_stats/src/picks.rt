//! How often each choice was picked.

ghost use Rattle.std.specs.BTreeMap.{IsOrdered, Updates, get};
ghost use Rattle.std.specs.Prelude.{◌≡◌, ◌+◌, ◌-◌, ◌^◌, ◌<◌, ℕ, Some, if◌then◌else◌, length, map, All, IfOk, OnOk};
ghost use Rattle.qz_room.specs.Pairs.{pair_cmp};
ghost use Rattle.qz_stats.specs.Counts.{AreCounts, HasNoted, count_in, told_of};
ghost use Rattle.qz_stats.specs.Picks.{number_count, pick_rows};
ghost use Rattle.qz_stats.specs.Shards.{IsPlayed, slot_in, slots_in};

use crate::PickRow;
use crate::numbers::{last_response, number_count, tells};
use qz_book::Played;
use qz_text::{Listed, NoMemory};
use std::alloc::Global;
use std::collections::BTreeMap;

/// Counts a version and number, whether it is told or not.
fn note(
    counts: &mut BTreeMap<(u32, u8), u32>,
    pick: (u32, u8),
    is_told: bool,
) -> Result<(), NoMemory>
    requires { count_in counts.old pick < 2 ^ 32 - 1 }
    ensures { OnOk result (Updates pair_cmp counts.old counts.new pick
        (Some (count_in counts.old pick + (if is_told then 1 else 0)))) }
{
    let count = counts.get(&pick).copied().unwrap_or(0);
    counts.insert(pick, count + u32::from(is_told))?;
    Ok(())
}

/// Counts each number of a slot's question, once.
fn note_slot(counts: &mut BTreeMap<(u32, u8), u32>, slot: &Played) -> Result<(), NoMemory>
    requires slot { IsPlayed slot.now }
    requires few { (p : ℕ × ℕ) → count_in counts.old p < 2 ^ 32 - 1 }
    ensures { OnOk result (HasNoted counts.old counts.new (slot_in slot.now)
        (number_count (slot_in slot.now).question.kind)) }
{
    let version = slot.run.bound().version;
    let response = last_response(slot.run.steps());
    for number in 0..number_count(&slot.question.kind) {
        note(counts, (version, number), tells(number, response))?;
    }
    Ok(())
}

/// How often each version and number was told by some slots.
fn counts_of(alloc: Global, slots: &[Played]) -> Result<BTreeMap<(u32, u8), u32>, NoMemory>
    requires all { All IsPlayed slots.now }
    requires few { length slots.now < 2 ^ 32 }
    ensures { IfOk result (λ counts. AreCounts counts (slots_in slots.now)) }
{
    let mut counts = BTreeMap::new(alloc);
    for slot in slots {
        note_slot(&mut counts, slot)?;
    }
    Ok(counts)
}

/// The rows of counts, in order of version and number.
fn rows_of(alloc: Global, counts: &BTreeMap<(u32, u8), u32>) -> Result<Listed<PickRow>, NoMemory>
    ensures rows { IfOk result (λ rows. rows ≡ map told_of counts.now.entries) }
    ensures ordered { IsOrdered pair_cmp counts.now }
{
    let mut items = Vec::with_capacity(alloc, counts.len())?;
    for (pick, count) in counts {
        items.push(PickRow {
            version: pick.0,
            pick: pick.1,
            count: *count,
        })?;
    }
    Ok(Listed { items })
}

/// How often each choice was picked in some slots, in order of version and number.
pub(crate) fn picks(alloc: Global, slots: &[Played]) -> Result<Listed<PickRow>, NoMemory>
    requires all { All IsPlayed slots.now }
    requires few { length slots.now < 2 ^ 32 }
    ensures { IfOk result (λ rows. rows ≡ pick_rows (slots_in slots.now)) }
{
    let counts = counts_of(alloc, slots)?;
    rows_of(alloc, &counts)
}
