//! Room for what a list gets, beside the list.

ghost use Rattle.std.specs.Prelude.{◌≡◌, ◌+◌, ◌<◌, ◌≤◌, ◌^◌, IfOk, vec_len, vec_capacity};
ghost use Rattle.qz_bank.specs.Room.{IsRoom};

use qz_text::NoMemory;
use std::alloc::Global;
use std::mem::swap;

/// Room for a list of so many items and so many more. It is twice what there is, so that a list that grows seldom moves.
pub(crate) fn make_room<T>(alloc: Global, count: usize, more: usize) -> Result<Vec<T>, NoMemory>
    requires count { count < 2 ^ 32 }
    requires more { more < 2 ^ 32 }
    ensures { IfOk result (IsRoom (count + more)) }
{
    Ok(Vec::with_capacity(alloc, 2 * count + more)?)
}

/// A list gets room for so many more items: it moves into the room that was made where its own is too little. It takes no memory.
pub(crate) fn take_room<T: Drop>(items: &mut Vec<T>, more: usize, mut room: Vec<T>)
    requires { IsRoom (vec_len items.old + more) room }
    ensures items { items.new.items ≡ items.old.items }
    ensures room { vec_len items.new + more ≤ vec_capacity items.new }
{
    if items.capacity() - items.len() < more {
        room.append(items).unwrap();
        swap(items, &mut room);
    }
}
