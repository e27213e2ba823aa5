//! Why serving a link stops before the end that its bytes decide.

ghost use Rattle.std.specs.Prelude.{◌≡◌};
ghost use Rattle.qz_doors.specs.declared.halt.Halt.TheVariants as halt;
ghost use Rattle.qz_doors.specs.Steps.{halt_end};

use qz_http::LinkEnd;
use qz_text::NoMemory;

/// What stopped a link.
#[derive(Clone, Copy)]
pub enum Halt {
    /// A read failed.
    ReadFault,
    /// A write failed.
    WriteFault,
    /// Memory was wanting.
    Memory,
}

impl From<NoMemory> for Halt {
    ghost from_gives = { λ _ why. why ≡ halt.Memory };

    fn from(_: NoMemory) -> Self {
        Halt::Memory
    }
}

impl Halt {
    pub fn end(self) -> LinkEnd
        ensures { result ≡ halt_end self }
    {
        match self {
            Halt::ReadFault => LinkEnd::ReadFault,
            Halt::WriteFault => LinkEnd::WriteFault,
            Halt::Memory => LinkEnd::Memory,
        }
    }
}
