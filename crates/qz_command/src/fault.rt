//! Why words gave no command.

ghost use Rattle.std.specs.Prelude.{◌≡◌};
ghost use Rattle.qz_command.specs.declared.fault.WordsFault.TheVariants.{Memory};

use qz_text::NoMemory;
use std::alloc::AllocError;

/// Why words gave no command.
#[derive(Clone, Copy, Debug, PartialEq, Eq)]
pub enum WordsFault {
    /// The words are no command.
    BadWords,
    /// Memory was wanting.
    Memory,
}

impl From<NoMemory> for WordsFault {
    ghost from_gives = { λ _ fault. fault ≡ Memory };

    fn from(_: NoMemory) -> Self {
        WordsFault::Memory
    }
}

impl From<AllocError> for WordsFault {
    ghost from_gives = { λ _ fault. fault ≡ Memory };

    fn from(_: AllocError) -> Self {
        WordsFault::Memory
    }
}
