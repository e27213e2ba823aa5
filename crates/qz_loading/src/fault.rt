//! Why a school wasn't loaded.

ghost use Rattle.std.specs.Prelude.{◌≡◌};
ghost use Rattle.qz_loading.specs.declared.fault.LoadFault.TheVariants as load_fault;

use qz_text::{NoMemory, Text};
use std::alloc::AllocError;

/// Why a school's lists weren't loaded.
#[derive(Debug, Drop)]
pub enum LoadFault {
    /// The file of this name is damaged at this place. Its bytes are, or the payload whose gate stands there is the first
    /// that spells no record that may stand behind those before it. A place past the last of a `u64` is told as that.
    Damaged {
        name: Text,
        place: u64,
    },
    /// The first record that doesn't agree with the catalogue is of this shard, and names this position, which is past the
    /// end of the catalogue: that has so many records, and is behind.
    Behind {
        shard: u8,
        position: u64,
        length: u64,
    },
    /// The first record that doesn't agree with the catalogue is of this shard, at this place, from 1, and names no position
    /// past the catalogue's end: it was altered, or the catalogue was.
    Altered {
        shard: u8,
        place: u64,
    },
    /// The catalogue's list is empty: no school was founded in the folder.
    NotFounded,
    /// The shelf failed, or the disk of a file: the shelf's count of faults rose.
    Fault,
    /// Memory was wanting.
    Memory,
}

impl From<NoMemory> for LoadFault {
    ghost from_gives = { λ _ fault. fault ≡ load_fault.Memory };

    fn from(_: NoMemory) -> Self {
        LoadFault::Memory
    }
}

impl From<AllocError> for LoadFault {
    ghost from_gives = { λ _ fault. fault ≡ load_fault.Memory };

    fn from(_: AllocError) -> Self {
        LoadFault::Memory
    }
}
