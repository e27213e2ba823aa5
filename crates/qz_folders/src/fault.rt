//! Why a journal wasn't opened, or a school not founded.

ghost use Rattle.std.specs.Prelude.{◌≡◌};
ghost use Rattle.qz_folders.specs.declared.fault.FoundFault.TheVariants as found_fault;
ghost use Rattle.qz_folders.specs.Faults.{found_fault_of, kept_fault_of, of_journal, of_shelf};

use qz_disks::{KeepErr, ShelfErr};
use qz_journal::JournalFault;
use qz_text::NoMemory;

/// Why a file wasn't opened as a journal.
#[derive(Clone, Copy, Debug, PartialEq, Eq)]
pub enum OpenFault {
    /// The file is damaged: another header (place 0), or an open gate whose frame isn't whole or isn't followed by a
    /// gate (the place of that gate).
    Damaged { place: u64 },
    /// The shelf failed, or the file's disk: the shelf's count of faults rose.
    Fault,
    /// Memory was wanting.
    Memory,
}

/// Why a school wasn't founded.
#[derive(Clone, Copy, Debug, PartialEq, Eq)]
pub enum FoundFault {
    /// The catalogue's list isn't empty.
    Already,
    /// The catalogue's file is damaged, at this place.
    Damaged { place: u64 },
    /// The shelf failed, or the file's disk: the shelf's count of faults rose.
    Fault,
    /// Memory was wanting.
    Memory,
}

impl From<ShelfErr> for OpenFault {
    ghost from_gives = { λ error fault. fault ≡ of_shelf error };

    fn from(error: ShelfErr) -> Self {
        match error {
            ShelfErr::Failed => OpenFault::Fault,
            ShelfErr::Memory => OpenFault::Memory,
        }
    }
}

impl From<JournalFault> for OpenFault {
    ghost from_gives = { λ told fault. fault ≡ of_journal told };

    fn from(told: JournalFault) -> Self {
        match told {
            JournalFault::Fault => OpenFault::Fault,
            JournalFault::Damaged { place } => OpenFault::Damaged { place },
            JournalFault::Memory => OpenFault::Memory,
        }
    }
}

impl From<OpenFault> for FoundFault {
    ghost from_gives = { λ told fault. fault ≡ found_fault_of told };

    fn from(told: OpenFault) -> Self {
        match told {
            OpenFault::Damaged { place } => FoundFault::Damaged { place },
            OpenFault::Fault => FoundFault::Fault,
            OpenFault::Memory => FoundFault::Memory,
        }
    }
}

impl From<KeepErr> for FoundFault {
    ghost from_gives = { λ error fault. fault ≡ kept_fault_of error };

    fn from(error: KeepErr) -> Self {
        match error {
            KeepErr::Fault => FoundFault::Fault,
            KeepErr::Memory => FoundFault::Memory,
        }
    }
}

impl From<NoMemory> for FoundFault {
    ghost from_gives = { λ _ fault. fault ≡ found_fault.Memory };

    fn from(_: NoMemory) -> Self {
        FoundFault::Memory
    }
}
