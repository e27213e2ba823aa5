//! Why a list of payloads is no list of records.

ghost use Rattle.std.specs.Prelude.{◌≡◌};
ghost use Rattle.qz_record.specs.declared.list_fault.ListFault.TheVariants.{Memory};

use qz_text::NoMemory;

/// Why no list of records was read.
#[derive(Clone, Copy, Debug, PartialEq, Eq)]
pub enum ListFault {
    /// The payload at this place, from 1, is the first that doesn't spell a record that may stand behind those before it.
    Illegal { nth: u64 },
    /// Memory was wanting.
    Memory,
}

impl From<NoMemory> for ListFault {
    ghost from_gives = { λ _ e. e ≡ Memory };

    fn from(_: NoMemory) -> Self {
        ListFault::Memory
    }
}
