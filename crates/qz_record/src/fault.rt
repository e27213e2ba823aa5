//! Why bytes are no record.

ghost use Rattle.std.specs.Prelude.{◌≡◌};
ghost use Rattle.qz_record.specs.declared.fault.RecordFault.TheVariants.{Memory};

use qz_text::NoMemory;
use std::alloc::{AllocError, AllocFailed};

/// Why no record was read.
#[derive(Clone, Copy, Debug, PartialEq, Eq)]
pub enum RecordFault {
    /// The bytes are the spelling of no record.
    NotOne,
    /// Memory was wanting.
    Memory,
}

impl From<NoMemory> for RecordFault {
    ghost from_gives = { λ _ e. e ≡ Memory };

    fn from(_: NoMemory) -> Self {
        RecordFault::Memory
    }
}

impl<T: Drop> From<AllocFailed<T>> for RecordFault {
    ghost from_gives = { λ _ e. e ≡ Memory };

    fn from(_: AllocFailed<T>) -> Self {
        RecordFault::Memory
    }
}
