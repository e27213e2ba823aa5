//! What one peer is talked with over, where nobody waits for the peer.

ghost use Rattle.std.specs.Prelude.{◌≡◌, ℕ, ◌<◌, ◌≤◌, List, length, Option, IfOk};
ghost use Rattle.std.specs.Io.KnownBytes.{ReadConsumes, WriteAppends};
ghost use Rattle.qz_outside.specs.Causes.{HasCause, HasRisen};
ghost use Rattle.qz_ready.specs.Looks.{HasPause, moved};

use crate::Look;
use qz_outside::Failed;

/// A connection to one peer, whose calls neither wait nor take memory. It counts its faults, how often a read found
/// nothing yet, and how often the peer took nothing yet: three counts that never fall.
pub trait ReadyLink {
    /// The bytes that are left to be read, where the link tells them.
    ghost left: { Self → Option (List ℕ) };

    /// The bytes written so far, where the link tells them.
    ghost holds: { Self → Option (List ℕ) };

    /// How often it has failed, in reading or in writing.
    ghost faults: { Self → ℕ };

    /// How often a read found nothing yet.
    ghost waits: { Self → ℕ };

    /// How often a write found no room yet.
    ghost stalls: { Self → ℕ };

    /// Its key.
    ghost key: { Self → ℕ };

    /// The word by which the outside tells that the link is ready: the same for as long as the link lives.
    fn key(&self) -> u64
        ensures { result ≡ key self.now };

    /// Reads some of the bytes left into the front of `room`, and tells how many. `Moved(0)` for a room that isn't empty
    /// is the end. After `NotYet` and `Failed` no byte is lost.
    fn try_read(&mut self, room: &mut [u8]) -> Result<Look, Failed>
        ensures count { IfOk (moved result) (λ n. n ≤ length room.new) }
        ensures bytes { ReadConsumes (left self.old) (left self.new) (moved result) room.new }
        ensures cause { HasCause (faults self.old) (faults self.new) result }
        ensures pause { HasPause (waits self.old) (waits self.new) result }
        ensures stalls_later { stalls self.old ≤ stalls self.new }
        ensures apart { holds self.new ≡ holds self.old }
        ensures same_key { key self.new ≡ key self.old };

    /// Takes some bytes of the front of `piece`, and tells how many. `Moved(0)` for a piece that isn't empty has been
    /// counted as a fault. After `NotYet` and `Failed` no byte was taken.
    fn try_write(&mut self, piece: &[u8]) -> Result<Look, Failed>
        ensures count { IfOk (moved result) (λ n. n ≤ length piece.now) }
        ensures bytes { WriteAppends (holds self.old) (holds self.new) (moved result) piece.now }
        ensures cause { HasCause (faults self.old) (faults self.new) result }
        ensures pause { HasPause (stalls self.old) (stalls self.new) result }
        ensures stuck { IfOk (moved result) (λ n. n ≡ 0 → 0 < length piece.now
            → HasRisen (faults self.old) (faults self.new)) }
        ensures waits_later { waits self.old ≤ waits self.new }
        ensures apart { left self.new ≡ left self.old }
        ensures same_key { key self.new ≡ key self.old };
}
