//! The slots of an attempt.

ghost use Rattle.std.specs.Prelude.{◌≡◌, ◌≤◌, List, length, map, zip, unwrap_or, option_map, IfSome, pos};
ghost use Rattle.std.specs.Option.{option_copied};
ghost use Rattle.std.specs.Borrow.{LendsIf, sem};
ghost use Rattle.qz_usage.specs.contracts.usage.Usage.{the_row as usage_row};
ghost use Rattle.qz_usage.specs.contracts.slot_run.SlotRun.{the_row as run_row};
ghost use Rattle.qz_decimal.specs.Numbers.{IsSlotMark};
ghost use Rattle.qz_grading.specs.declared.question.Question.{Question};
ghost use Rattle.qz_grading.specs.Grading.{at_place};
ghost use Rattle.qz_terms.specs.Rows.{IsTotal, awaits_mark, total_of};
ghost use Rattle.qz_usage.specs.Runs.{IsBound};
ghost use Rattle.qz_usage.specs.Usages.{AreBound, scored, with_slot};
ghost use Rattle.qz_terms.specs.declared.limits.TheConstants.{MOST_SLOTS};

use crate::SlotRun;
use qz_decimal::Mark;
use qz_grading::State;
use std::marker::Model;

/// The slots of an attempt, in order, seen as their list.
#[derive(Drop)]
pub struct Usage {
    slots: Vec<SlotRun>,
}

impl Model for Usage {
    ghost use Rattle.std.specs.Prelude.{◌≤◌, List, length};
    ghost use Rattle.qz_usage.specs.Runs.{Run};
    ghost use Rattle.qz_terms.specs.declared.limits.TheConstants.{MOST_SLOTS};

    ghost Value = { List Run };

    ghost view = { λ u. u.slots.items };

    ghost invariant = { λ u. length u.slots.items ≤ MOST_SLOTS };
}

/// Whether a teacher's mark is missing that would count.
fn awaits_mark(slot: &SlotRun) -> bool
    ensures { (q : Question) → IsBound slot.now q → result ≡ awaits_mark (scored (slot.now, q)) }
{
    matches!(slot.state(), State::NeedsGrading) && slot.bound().max.0 > 0
}

/// What a slot adds to the total (in 10^-7): its mark, or nothing where there is none.
fn counted(slot: &SlotRun) -> i64
    ensures value { (q : Question) → IsBound slot.now q → result ≡ unwrap_or (scored (slot.now, q)).mark (pos 0) }
    ensures range { IsSlotMark result }
{
    slot.mark().unwrap_or(Mark(0)).0
}

impl Usage {
    /// The slots that are given, at most 200.
    pub fn of(slots: Vec<SlotRun>) -> Usage
        requires { length slots.items ≤ MOST_SLOTS }
        ensures { result ≡ slots.items }
    {
        Usage { slots }
    }

    /// The slot with this number, from 1.
    pub fn slot(&self, k: u16) -> Option<&SlotRun>
        ensures { option_copied result ≡ at_place self.now k }
    {
        self.slots.get(usize::from(k).checked_sub(1)?)
    }

    /// The slot with this number, from 1, to be changed. No other slot changes.
    pub fn slot_mut(&mut self, k: u16) -> Option<&mut SlotRun>
        ensures* writes_back { sem 𝓛 (LendsIf usage_row run_row self.entry result (λ r. with_slot self.old k r) self.old) }
        ensures value { option_map (λ r. r.now) result ≡ at_place self.old k }
    {
        self.slots.get_mut(usize::from(k).wrapping_sub(1))
    }

    /// The sum of the slots' marks (in 10^-7), where one that is missing counts 0. None while a slot of a max mark above 0 needs
    /// grading.
    pub fn total(&self) -> Option<Mark>
        ensures value { (qs : List Question) → AreBound self.now qs → result ≡ total_of (map scored (zip self.now qs)) }
        ensures range { IfSome result IsTotal }
    {
        let mut total = 0;
        for slot in &self.slots {
            if awaits_mark(slot) {
                return None;
            }
            total += counted(slot);
        }
        Some(Mark(total))
    }
}
