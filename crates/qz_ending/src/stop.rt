//! Why a command ended before its work was done.

ghost use Rattle.std.specs.Prelude.{◌≡◌};
ghost use Rattle.qz_ending.specs.declared.stop.Stop.TheVariants.{Memory};

use qz_outside::ReadStop;
use qz_text::NoMemory;
use std::alloc::AllocError;

/// Why a command ended before its work was done, each with an exit status of its own.
#[derive(Clone, Copy, Debug, PartialEq, Eq)]
pub enum Stop {
    /// The words are no command: status 2.
    BadWords,
    /// The text has no reading, and this is the first line without one, from 1: status 3.
    Malformed { line: u32 },
    /// The GIFT text has no reading: a block at this line breaks this rule, and none before breaks any: status 3.
    Unreadable { line: u32, rule: u8 },
    /// The source failed: status 4.
    SourceFault,
    /// The sink failed: status 5.
    SinkFault,
    /// The shelf failed, or a disk of it: status 6.
    ShelfFault,
    /// What stands in the folder doesn't allow it: status 7.
    Refused,
    /// Memory was wanting: status 8.
    Memory,
    /// The source held more bytes than the limit: status 9.
    TooLong,
    /// A door failed: status 10.
    DoorFault,
    /// A new record was found to be nobody's: status 11.
    Gap,
}

impl Stop {
    ghost use Rattle.std.specs.Prelude.{◌≡◌, Some};
    ghost use Rattle.qz_ending.specs.Endings.{status_of};

    /// The exit status.
    pub fn status(self) -> u8
        ensures { result ≡ status_of (Some self) }
    {
        match self {
            Stop::BadWords => 2,
            Stop::Malformed { .. } | Stop::Unreadable { .. } => 3,
            Stop::SourceFault => 4,
            Stop::SinkFault => 5,
            Stop::ShelfFault => 6,
            Stop::Refused => 7,
            Stop::Memory => 8,
            Stop::TooLong => 9,
            Stop::DoorFault => 10,
            Stop::Gap => 11,
        }
    }
}

impl From<ReadStop> for Stop {
    ghost use Rattle.std.specs.Prelude.{◌≡◌};
    ghost use Rattle.qz_ending.specs.Endings.{stop_of_reading};

    ghost from_gives = { λ given stop. stop ≡ stop_of_reading given };

    fn from(stop: ReadStop) -> Self {
        match stop {
            ReadStop::Fault => Stop::SourceFault,
            ReadStop::TooLong => Stop::TooLong,
            ReadStop::Memory => Stop::Memory,
        }
    }
}

impl From<NoMemory> for Stop {
    ghost from_gives = { λ _ stop. stop ≡ Memory };

    fn from(_: NoMemory) -> Self {
        Stop::Memory
    }
}

impl From<AllocError> for Stop {
    ghost from_gives = { λ _ stop. stop ≡ Memory };

    fn from(_: AllocError) -> Self {
        Stop::Memory
    }
}
