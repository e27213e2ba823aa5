//! What bytes are written to.

ghost use Rattle.std.specs.Prelude.{◌≡◌, ℕ, ◌<◌, ◌≤◌, List, length, Option, IfOk};
ghost use Rattle.std.specs.Io.KnownBytes.{WriteAppends};
ghost use Rattle.qz_outside.specs.Causes.{HasCause, HasRisen};

use crate::Failed;

/// A sink of bytes. Its calls take no memory.
pub trait Sink {
    /// The bytes written so far, where the sink tells them.
    ghost holds: { Self → Option (List ℕ) };

    /// How often it has failed: a count that never falls.
    ghost faults: { Self → ℕ };

    /// Takes some bytes of the front of `piece`, and tells how many. 0 for a piece that isn't empty has been counted
    /// as a fault. After `Failed` no byte was taken.
    fn write(&mut self, piece: &[u8]) -> Result<usize, Failed>
        ensures count { IfOk result (λ n. n ≤ length piece.now) }
        ensures bytes { WriteAppends (holds self.old) (holds self.new) result piece.now }
        ensures cause { HasCause (faults self.old) (faults self.new) result }
        ensures stuck { IfOk result (λ n. n ≡ 0 → 0 < length piece.now
            → HasRisen (faults self.old) (faults self.new)) };
}
