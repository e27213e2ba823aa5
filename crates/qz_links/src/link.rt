//! What one peer is talked with over.

ghost use Rattle.std.specs.Prelude.{◌≡◌, ℕ, ◌<◌, ◌≤◌, List, length, Option, IfOk};
ghost use Rattle.std.specs.Io.KnownBytes.{ReadConsumes, WriteAppends};
ghost use Rattle.qz_outside.specs.Causes.{HasCause, HasRisen};

use qz_outside::Failed;

/// A connection to one peer: a source of the peer's bytes, and a sink of those for it, with one count of faults. Its
/// calls take no memory, and `read` may wait for the peer.
pub trait Link {
    /// The bytes that are left to be read, where the link tells them.
    ghost left: { Self → Option (List ℕ) };

    /// The bytes written so far, where the link tells them.
    ghost holds: { Self → Option (List ℕ) };

    /// How often it has failed, in reading or in writing: a count that never falls.
    ghost faults: { Self → ℕ };

    /// Reads some of the bytes left into the front of `room`, and tells how many. 0 for a room that isn't empty is
    /// the end. After `Failed` no byte is lost.
    fn read(&mut self, room: &mut [u8]) -> Result<usize, Failed>
        ensures count { IfOk result (λ n. n ≤ length room.new) }
        ensures bytes { ReadConsumes (left self.old) (left self.new) result room.new }
        ensures cause { HasCause (faults self.old) (faults self.new) result }
        ensures apart { holds self.new ≡ holds self.old };

    /// Takes some bytes of the front of `piece`, and tells how many. 0 for a piece that isn't empty has been counted
    /// as a fault. After `Failed` no byte was taken.
    fn write(&mut self, piece: &[u8]) -> Result<usize, Failed>
        ensures count { IfOk result (λ n. n ≤ length piece.now) }
        ensures bytes { WriteAppends (holds self.old) (holds self.new) result piece.now }
        ensures cause { HasCause (faults self.old) (faults self.new) result }
        ensures stuck { IfOk result (λ n. n ≡ 0 → 0 < length piece.now
            → HasRisen (faults self.old) (faults self.new)) }
        ensures apart { left self.new ≡ left self.old };
}
