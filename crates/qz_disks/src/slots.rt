//! What shelves and other stores by folder and name know of what stands at their places.

ghost use Rattle.std.specs.Prelude.{◌≡◌, ◌++◌, ◌∷◌, [], Some, None, IfOk, position, is_some, true, vec_len, vec_capacity, ◌<◌};
ghost use Rattle.std.specs.Option.{option_copied};
ghost use Rattle.qz_disks.specs.Shelves.{place};
ghost use Rattle.qz_disks.specs.Slots.{is_at, stands_at, Puts};

use qz_text::{Bytes, NoMemory};
use std::alloc::Global;
use std::mem;

/// What is known of what stands at a place.
#[derive(Drop)]
pub struct Slot<T> {
    pub folder: Bytes,
    pub name: Bytes,
    pub holds: T,
}

impl<T: Drop> Slot<T> {
    /// A slot of this place.
    pub fn of(alloc: Global, folder: &[u8], name: &[u8], holds: T) -> Result<Slot<T>, NoMemory>
        ensures { IfOk result (λ slot.
            slot ≡ record { folder = folder.now; name = name.now; holds = holds }) }
    {
        Ok(Slot {
            folder: Bytes::of(alloc, folder)?,
            name: Bytes::of(alloc, name)?,
            holds,
        })
    }
}

impl<T> Slot<T> {
    fn is_at(&self, folder: &[u8], name: &[u8]) -> bool
        ensures { result ≡ is_at (place folder.now name.now) self.now }
    {
        self.folder.as_slice() == folder && self.name.as_slice() == name
    }
}

/// What stands in the slot of a place, where there is one.
pub fn look<'a, T>(slots: &'a [Slot<T>], folder: &[u8], name: &[u8]) -> Option<&'a T>
    ensures { option_copied result ≡ stands_at (place folder.now name.now) slots.now }
{
    slots
        .iter()
        .find(|slot| slot.is_at(folder, name))
        .map(|slot| &slot.holds)
}

/// Whether a place has a slot.
pub fn has<T>(slots: &[Slot<T>], folder: &[u8], name: &[u8]) -> bool
    ensures { result ≡ is_some (stands_at (place folder.now name.now) slots.now) }
{
    look(slots, folder, name).is_some()
}

// The slot of a place.
fn find<T>(slots: &[Slot<T>], folder: &[u8], name: &[u8]) -> Option<usize>
    ensures { result ≡ position (is_at (place folder.now name.now)) slots.now }
{
    slots.iter().position(|slot| slot.is_at(folder, name))
}

/// Puts something into the slot of a place, and gives what stood there.
pub fn replace<T>(slots: &mut [Slot<T>], folder: &[u8], name: &[u8], value: T) -> T
    requires { is_some (stands_at (place folder.now name.now) slots.old) ≡ true }
    ensures gives { stands_at (place folder.now name.now) slots.old ≡ Some result }
    ensures puts { Puts (place folder.now name.now) value slots.old slots.new }
{
    let Some(at) = find(slots, folder, name) else {
        unreachable!()
    };
    mem::replace(&mut slots[at].holds, value)
}

/// Adds the slot of a place that had none, for which there is room.
pub fn add<T>(slots: &mut Vec<Slot<T>>, slot: Slot<T>)
    requires absent { stands_at (place slot.folder slot.name) slots.old.items ≡ None }
    requires room { vec_len slots.old < vec_capacity slots.old }
    ensures { Puts (place slot.folder slot.name) slot.holds slots.old.items slots.new.items }
{
    slots.push_reserved(slot);
}
