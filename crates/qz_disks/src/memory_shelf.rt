//! A shelf in memory.

ghost use Rattle.std.specs.Prelude.{◌≡◌, ℕ, ◌+◌, ◌-◌, ◌^◌, ◌<◌, ◌≤◌, min, true, false, [], Ok, Err, Some, None, is_some, IfOk, OnOk, OnErr, IsErrOf, Contains, option_and_then};
ghost use Rattle.std.specs.Option.{option_copied};
ghost use Rattle.qz_outside.specs.Causes.{counted};
ghost use Rattle.qz_disks.specs.Shelves.{place, EndsHandingOut, TakesBack, RisesBy, HasShelfCause};
ghost use Rattle.qz_disks.specs.Sound.{StaysSound};
ghost use Rattle.qz_disks.specs.Slots.{stands_at, disk_at, IsSound, Puts, memory_file, memory_files, memory_reads_now, memory_tells_alike};
ghost use Rattle.qz_disks.specs.declared.shelf.ShelfErr.TheVariants.{Failed, Memory};

use crate::slots::{Slot, add, has, look, replace};
use crate::{MemoryDisk, Shelf, ShelfErr};
use qz_outside::Calls;
use qz_text::{Listed, NoMemory};
use std::alloc::Global;
use std::marker::Model;

/// Files in memory. Chosen calls of `disk` fail, and have no effect then.
#[derive(Drop)]
pub struct MemoryShelf {
    slots: Vec<Slot<Option<MemoryDisk>>>,
    calls: Calls,
}

impl Model for MemoryShelf {
    ghost use Rattle.qz_disks.specs.Slots.{Cabinet};

    ghost Value = { Cabinet };

    ghost view = { λ s. record {
      slots = s.slots.items;
      failing = s.calls.failing;
      calls = s.calls.made;
      faults = s.calls.faults;
    } };
}

impl MemoryShelf {
    /// A shelf without a file. Its calls of `disk` whose numbers, from 1, are in `failing` fail.
    pub fn new(alloc: Global, failing: Listed<u64>) -> MemoryShelf
        ensures { result ≡ record { slots = []; failing = failing; calls = 0; faults = 0 } }
    {
        MemoryShelf {
            slots: Vec::new(alloc),
            calls: Calls::new(failing),
        }
    }

    /// Puts a disk where a file stands, or where none does.
    pub fn put(
        &mut self,
        alloc: Global,
        folder: &[u8],
        name: &[u8],
        disk: MemoryDisk,
    ) -> Result<(), NoMemory>
        requires { (memory_files self.old.slots).is_out (place folder.now name.now) ≡ false }
        ensures puts { OnOk result
            (Puts (place folder.now name.now) (Some disk) self.old.slots self.new.slots) }
        ensures rest { self.new ≡ record self.old { slots = self.new.slots } }
        ensures sound { disk.failing ≡ [] → IsSound self.old → IsSound self.new }
        ensures err { OnErr result (self.new ≡ self.old) }
    {
        if has(&self.slots, folder, name) {
            let _ = replace(&mut self.slots, folder, name, Some(disk));
            return Ok(());
        }
        let slot = Slot::of(alloc, folder, name, Some(disk))?;
        self.slots.reserve(1)?;
        add(&mut self.slots, slot);
        Ok(())
    }

    /// Whether a file is out.
    pub fn is_out(&self, folder: &[u8], name: &[u8]) -> bool
        ensures { result ≡ (memory_files self.now.slots).is_out (place folder.now name.now) }
    {
        matches!(look(&self.slots, folder, name), Some(None))
    }

    /// The disk of a file that was put there or given back, and isn't out.
    pub fn file(&self, folder: &[u8], name: &[u8]) -> Option<&MemoryDisk>
        ensures { option_copied result
            ≡ option_and_then (λ disk. disk) (stands_at (place folder.now name.now) self.now.slots) }
    {
        look(&self.slots, folder, name)?.as_ref()
    }

    /// How many calls have failed, those of disks that were given back among them.
    pub fn faults(&self) -> u64
        ensures { result ≡ self.now.faults }
    {
        self.calls.faults
    }
}

impl Shelf for MemoryShelf {
    type Disk = MemoryDisk;

    ghost files = { λ s. memory_files s.slots };

    ghost faults = { λ s. s.faults };

    ghost sound = { λ s. IsSound s };

    ghost tells_alike = { λ s t. memory_tells_alike s.slots t.slots };

    ghost reads_now = { λ s. memory_reads_now s.slots };

    fn disk(&mut self, alloc: Global, folder: &[u8], name: &[u8]) -> Result<MemoryDisk, ShelfErr>
        requires { (memory_files self.old.slots).is_out (place folder.now name.now) ≡ false }
        ensures files { EndsHandingOut (place folder.now name.now) (memory_files self.old.slots)
            (memory_files self.new.slots) (λ disk. memory_file disk.changes) result }
        ensures fresh { IfOk result (λ disk. disk.faults ≡ 0) }
        ensures cause { HasShelfCause self.old.faults self.new.faults result }
        ensures sound { IfOk result (λ disk. IsSound self.old → disk.failing ≡ []) }
        ensures stays_sound { StaysSound (IsSound self.old) (IsSound self.new)
            self.old.faults self.new.faults (IsErrOf result Failed) }

        // It is the disk that stands there, and that alone is taken.
        ensures whole { IfOk result (λ disk. disk
            ≡ record (disk_at (place folder.now name.now) self.old.slots) { faults = 0 }) }
        ensures takes { OnOk result
            (Puts (place folder.now name.now) None self.old.slots self.new.slots) }

        // It fails where the number of this call is listed, and there alone; it has no effect then.
        ensures fails { IsErrOf result Failed → Contains self.old.failing (counted self.old.calls) }
        ensures works { OnOk result (Contains self.old.failing (counted self.old.calls) → ⊥) }
        ensures ok { OnOk result (self.new
            ≡ record self.old { slots = self.new.slots; calls = counted self.old.calls }) }
        ensures failed { IsErrOf result Failed → self.new
            ≡ record self.old { calls = counted self.old.calls; faults = counted self.old.faults } }
        ensures unmade { IsErrOf result Memory → self.new ≡ self.old }
    {
        if has(&self.slots, folder, name) {
            self.calls.begin()?;
            let Some(disk) = replace(&mut self.slots, folder, name, None) else {
                unreachable!()
            };
            return Ok(disk.without_faults());
        }
        let slot = Slot::of(alloc, folder, name, None)?;
        self.slots.reserve(1)?;
        self.calls.begin()?;
        add(&mut self.slots, slot);
        Ok(MemoryDisk::new(alloc, Listed::empty(alloc)))
    }

    fn back(&mut self, folder: &[u8], name: &[u8], disk: MemoryDisk)
        requires { (memory_files self.old.slots).is_out (place folder.now name.now) ≡ true }
        ensures files { TakesBack (place folder.now name.now) (memory_files self.old.slots)
            (memory_files self.new.slots) (memory_file disk.changes) }
        ensures faults { RisesBy disk.faults self.old.faults self.new.faults }
        ensures stays_sound { disk.failing ≡ [] → disk.faults ≡ 0
            → StaysSound (IsSound self.old) (IsSound self.new) self.old.faults self.new.faults ⊥ }

        // The disk stands there whole, and the count of calls stays.
        ensures puts { Puts (place folder.now name.now) (Some disk) self.old.slots self.new.slots }
        ensures rest { self.new ≡ record self.old {
          slots = self.new.slots;
          faults = min (self.old.faults + disk.faults) (2 ^ 64 - 1);
        } }
    {
        self.calls.faults = self.calls.faults.saturating_add(disk.faults());
        let _ = replace(&mut self.slots, folder, name, Some(disk));
    }
}
