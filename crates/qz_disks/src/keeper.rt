//! A keeper of a list of payloads.

ghost use Rattle.std.specs.Prelude.{◌≡◌, ℕ, ◌≤◌, List, length, Option, None, IsErrOf};
ghost use Rattle.qz_disks.specs.declared.keeper.KeepErr.TheVariants.{Fault, Memory};

use qz_outside::Failed;
use qz_text::{Bytes, Listed, NoMemory};
use std::alloc::{AllocError, Global};

/// The most bytes of a payload.
pub const MOST_PAYLOAD: usize = 67_108_864;

/// Why a keeper didn't answer.
#[derive(Clone, Copy, Debug, PartialEq, Eq)]
pub enum KeepErr {
    /// What it stands on failed: its count of faults rose in the call. The payload of an append is in doubt then.
    Fault,
    /// Memory was wanting. The list is as it was, and so is the doubt.
    Memory,
}

impl From<Failed> for KeepErr {
    ghost from_gives = { λ _ e. e ≡ Fault };

    fn from(_: Failed) -> Self {
        KeepErr::Fault
    }
}

impl From<NoMemory> for KeepErr {
    ghost from_gives = { λ _ e. e ≡ Memory };

    fn from(_: NoMemory) -> Self {
        KeepErr::Memory
    }
}

impl From<AllocError> for KeepErr {
    ghost from_gives = { λ _ e. e ≡ Memory };

    fn from(_: AllocError) -> Self {
        KeepErr::Memory
    }
}

/// A list of payloads that outlives the program. A payload whose append answered `Fault` is in doubt: the list has it
/// at its end or not, and `reopen` tells.
pub trait Keeper {
    ghost use Rattle.qz_disks.specs.Keepers.{EndsAppending, EndsReopening, HasKeepCause};
    ghost use Rattle.qz_disks.specs.Sound.{StaysSound};

    /// The payloads kept, where the keeper tells them; the one in doubt isn't among them.
    ghost kept: { Self → Option (List (List ℕ)) };

    /// The payload in doubt.
    ghost doubt: { Self → Option (List ℕ) };

    /// How often what it stands on has failed: a count that never falls.
    ghost faults: { Self → ℕ };

    /// What it stands on fails no call.
    ghost sound: { Self → Type 0 };

    /// Keeps one more payload. After `Fault` it is in doubt, and after `Memory` it
    /// isn't kept.
    fn append(&mut self, alloc: Global, payload: &[u8]) -> Result<(), KeepErr>
        requires settled { doubt self.old ≡ None }
        requires size { length payload.now ≤ MOST_PAYLOAD }
        ensures list { EndsAppending (kept self.old) (kept self.new) (doubt self.new) payload.now result }
        ensures cause { HasKeepCause (faults self.old) (faults self.new) result }
        ensures stays_sound { StaysSound (sound self.old) (sound self.new)
            (faults self.old) (faults self.new) (IsErrOf result Fault) };

    /// Gives all payloads, and the one in doubt where it turns out to be kept. From then on none is in doubt. After
    /// an error the list and the doubt are as they were.
    fn reopen(&mut self, alloc: Global) -> Result<Listed<Bytes>, KeepErr>
        ensures list { EndsReopening (kept self.old) (kept self.new)
            (doubt self.old) (doubt self.new) result }
        ensures cause { HasKeepCause (faults self.old) (faults self.new) result }
        ensures stays_sound { StaysSound (sound self.old) (sound self.new)
            (faults self.old) (faults self.new) (IsErrOf result Fault) };
}
