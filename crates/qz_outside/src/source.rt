//! What bytes are read from.

ghost use Rattle.std.specs.Prelude.{ℕ, ◌≤◌, List, length, Option, IfOk};
ghost use Rattle.std.specs.Io.KnownBytes.{ReadConsumes};
ghost use Rattle.qz_outside.specs.Causes.{HasCause};

use crate::Failed;

/// A source of bytes. Its calls take no memory.
pub trait Source {
    /// The bytes that are left, where the source tells them.
    ghost left: { Self → Option (List ℕ) };

    /// How often it has failed: a count that never falls.
    ghost faults: { Self → ℕ };

    /// Reads some of the bytes left into the front of `room`, and tells how many. 0 for a room that isn't empty is
    /// the end. After `Failed` no byte is lost.
    fn read(&mut self, room: &mut [u8]) -> Result<usize, Failed>
        ensures count { IfOk result (λ n. n ≤ length room.new) }
        ensures bytes { ReadConsumes (left self.old) (left self.new) result room.new }
        ensures cause { HasCause (faults self.old) (faults self.new) result };
}
