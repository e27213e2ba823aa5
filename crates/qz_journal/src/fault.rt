//! Why a journal can't be loaded.

ghost use Rattle.std.specs.Prelude.{◌≡◌};
ghost use Rattle.qz_journal.specs.declared.fault.JournalFault.TheVariants.{Fault, Memory};

use qz_outside::Failed;
use qz_text::NoMemory;
use std::alloc::{AllocError, AllocFailed};

/// Why a journal wasn't loaded.
#[derive(Clone, Copy, Debug, PartialEq, Eq)]
pub enum JournalFault {
    /// The disk failed: its count of faults rose.
    Fault,
    /// The file is damaged: another header (place 0), or an open gate whose frame isn't whole or isn't followed by a
    /// gate (the place of that gate).
    Damaged { place: u64 },
    /// Memory was wanting.
    Memory,
}

impl From<Failed> for JournalFault {
    ghost from_gives = { λ _ e. e ≡ Fault };

    fn from(_: Failed) -> Self {
        JournalFault::Fault
    }
}

impl From<NoMemory> for JournalFault {
    ghost from_gives = { λ _ e. e ≡ Memory };

    fn from(_: NoMemory) -> Self {
        JournalFault::Memory
    }
}

impl From<AllocError> for JournalFault {
    ghost from_gives = { λ _ e. e ≡ Memory };

    fn from(_: AllocError) -> Self {
        JournalFault::Memory
    }
}

impl<T: Drop> From<AllocFailed<T>> for JournalFault {
    ghost from_gives = { λ _ e. e ≡ Memory };

    fn from(_: AllocFailed<T>) -> Self {
        JournalFault::Memory
    }
}
