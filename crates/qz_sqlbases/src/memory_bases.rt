//! Databases in memory.

ghost use Rattle.std.specs.Prelude.{◌≡◌, ◌≤◌, ◌+◌, ◌-◌, ◌^◌, min, true, false, [], Some, None, is_some, IfOk, OnOk, MatchResult, Contains};
ghost use Rattle.qz_outside.specs.Causes.{counted, HasRisen};
ghost use Rattle.qz_disks.specs.declared.shelf.ShelfErr.TheVariants.{Failed, Memory};
ghost use Rattle.qz_disks.specs.Shelves.{place, HasShelfCause, RisesBy};
ghost use Rattle.sqlite.specs.Held.{state};
ghost use Rattle.sqlite.specs.State.{HasCleanDisk};
ghost use Rattle.sqlite.specs.Steps.{over_memory};
ghost use Rattle.qz_sqlkeep.specs.Keeping.{kept_in, Stands};
ghost use Rattle.qz_sqlbases.specs.Databases.{standing_as, EndsHandingOut, HandsOut, SameLists, TakesBack};
ghost use Rattle.qz_disks.specs.Slots.{stands_at, Puts};
ghost use Rattle.qz_sqlbases.specs.Slots.{memory_lists};

use crate::{Bases, Returned};
use qz_disks::slots::{Slot, add, has, look, replace};
use qz_disks::{KeepErr, Keeper, ShelfErr};
use qz_outside::Calls;
use qz_sqlkeep::SqlKeeper;
use qz_text::{Bytes, Listed};
use sqlite::{Error, ErrorCode, MemStore};
use std::alloc::Global;
use std::marker::Model;

/// Databases in memory, each of which holds what was given back under its name, and else an empty list. Chosen calls of
/// `keeper` fail, and have no effect then.
#[derive(Drop)]
pub struct MemoryBases {
    slots: Vec<Slot<Option<SqlKeeper<MemStore>>>>,
    calls: Calls,
}

impl Model for MemoryBases {
    ghost use Rattle.qz_sqlbases.specs.Slots.{Cabinet, cabinet_code};

    ghost Value = { Cabinet };

    ghost coded = { cabinet_code };

    ghost view = { λ b. record {
      slots = b.slots.items;
      failing = b.calls.failing;
      calls = b.calls.made;
      faults = b.calls.faults;
    } };
}

impl MemoryBases {
    /// Bases without a database. Their calls of `keeper` whose numbers, from 1, are in `failing` fail.
    pub fn new(alloc: Global, failing: Listed<u64>) -> MemoryBases
        ensures { result ≡ record { slots = []; failing = failing; calls = 0; faults = 0 } }
    {
        MemoryBases {
            slots: Vec::new(alloc),
            calls: Calls::new(failing),
        }
    }

    /// Whether a database is out.
    pub fn is_out(&self, folder: &[u8], name: &[u8]) -> bool
        ensures { result ≡ (memory_lists self.now.slots).is_out (place folder.now name.now) }
    {
        matches!(look(&self.slots, folder, name), Some(None))
    }

    /// How many calls have failed, those of keepers that were given back among them.
    pub fn faults(&self) -> u64
        ensures { result ≡ self.now.faults }
    {
        self.calls.faults
    }
}

impl Bases for MemoryBases {
    type Store = MemStore;

    ghost lists = { λ b. memory_lists b.slots };

    ghost faults = { λ b. b.faults };

    fn keeper(
        &mut self,
        alloc: Global,
        folder: &[u8],
        name: &[u8],
    ) -> Result<(SqlKeeper<MemStore>, Listed<Bytes>), ShelfErr>
        requires { (memory_lists self.old.slots).is_out (place folder.now name.now) ≡ false }
        ensures lists { EndsHandingOut (place folder.now name.now)
            (memory_lists self.old.slots) (memory_lists self.new.slots) true
            (λ r. kept_in true (state over_memory r.0.conn).now) (λ r. r.0.doubt) (λ r. r.1) result }
        ensures fresh { IfOk result (λ r. r.0.faults ≡ 0) }
        ensures cause { HasShelfCause self.old.faults self.new.faults result }
        ensures steady { OnOk result (self.new.faults ≡ self.old.faults) }
        ensures tables { IfOk result (λ r. HasCleanDisk (state over_memory r.0.conn)
            → Stands r.1 (state over_memory r.0.conn).now) }

        // It fails where the number of this call is listed.
        ensures works { OnOk result (Contains self.old.failing (counted self.old.calls) → ⊥) }
    {
        if has(&self.slots, folder, name) {
            self.calls.begin()?;
            return match open_again(&mut self.slots, alloc, folder, name) {
                Ok(opened) => Ok(opened),
                Err(error) => Err(told(&mut self.calls, error)),
            };
        }
        let slot = Slot::of(alloc, folder, name, None)?;
        self.slots.reserve(1)?;
        let keeper = match empty(alloc) {
            Ok(keeper) => keeper,
            Err(error) => return Err(told(&mut self.calls, error)),
        };
        self.calls.begin()?;
        add(&mut self.slots, slot);
        Ok((keeper, Listed::empty(alloc)))
    }

    fn take_back<K: Returned<MemStore>>(&mut self, folder: &[u8], name: &[u8], returned: K)
        requires { (memory_lists self.old.slots).is_out (place folder.now name.now) ≡ true }
        ensures lists { TakesBack (place folder.now name.now)
            (memory_lists self.old.slots) (memory_lists self.new.slots)
            (standing_as (kept_in true (state over_memory (K.held returned).conn).now)
            (K.held returned).doubt) }
        ensures faults { RisesBy (K.held returned).faults self.old.faults self.new.faults }

        // The keeper stands there whole.
        ensures puts { Puts (place folder.now name.now) (Some (K.held returned)) self.old.slots self.new.slots }
        ensures rest { self.new ≡ record self.old {
          slots = self.new.slots;
          faults = min (self.old.faults + (K.held returned).faults) (2 ^ 64 - 1);
        } }
    {
        let keeper = returned.into_keeper();
        self.calls.faults = self.calls.faults.saturating_add(keeper.faults());
        let _ = replace(&mut self.slots, folder, name, Some(keeper));
    }
}

// The keeper that stands at a place, opened again. After an error its list stands there as it did.
fn open_again(
    slots: &mut [Slot<Option<SqlKeeper<MemStore>>>],
    alloc: Global,
    folder: &[u8],
    name: &[u8],
) -> Result<(SqlKeeper<MemStore>, Listed<Bytes>), KeepErr>
    requires there { is_some (stands_at (place folder.now name.now) slots.old) ≡ true }
    requires here { (memory_lists slots.old).is_out (place folder.now name.now) ≡ false }
    ensures lists { MatchResult result (λ r. HandsOut (place folder.now name.now)
        (memory_lists slots.old) (memory_lists slots.new) true
        (kept_in true (state over_memory r.0.conn).now) r.0.doubt r.1)
        (λ _. SameLists (memory_lists slots.old) (memory_lists slots.new)) }
    ensures fresh { IfOk result (λ r. r.0.faults ≡ 0) }
    ensures tables { IfOk result (λ r. Stands r.1 (state over_memory r.0.conn).now) }
{
    let Some(mut keeper) = replace(slots, folder, name, None) else {
        unreachable!()
    };
    match keeper.reopen(alloc) {
        Ok(payloads) => Ok((keeper.without_faults(), payloads)),
        Err(error) => {
            let _ = replace(slots, folder, name, Some(keeper));
            Err(error)
        }
    }
}

// A keeper of an empty list.
fn empty(alloc: Global) -> Result<SqlKeeper<MemStore>, KeepErr>
    ensures { IfOk result (λ k. Stands [] (state over_memory k.conn).now
        × (k.doubt ≡ None) × (k.faults ≡ 0)) }
{
    match SqlKeeper::in_memory(alloc) {
        Ok(keeper) => Ok(keeper),
        Err(Error::SqliteFailure(ErrorCode::OutOfMemory)) => Err(KeepErr::Memory),
        Err(_) => Err(KeepErr::Fault),
    }
}

// Counts a fault of a database.
fn told(calls: &mut Calls, error: KeepErr) -> ShelfErr
    ensures same { calls.new ≡ record calls.old { faults = calls.new.faults } }
    ensures failed { result ≡ Failed → HasRisen calls.old.faults calls.new.faults }
    ensures memory { result ≡ Memory → calls.new ≡ calls.old }
    ensures later { calls.old.faults ≤ calls.new.faults }
{
    match error {
        KeepErr::Memory => ShelfErr::Memory,
        KeepErr::Fault => {
            calls.count_fault();
            ShelfErr::Failed
        }
    }
}
