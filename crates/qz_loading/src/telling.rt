//! What is told of the file of a list that isn't opened or read.

ghost use Rattle.std.specs.Prelude.{◌≡◌};
ghost use Rattle.qz_loading.specs.Telling.{IsWithin, TellsDamageOf, TellsUnopened, TellsUnread, name_of};

use crate::fault::LoadFault;
use crate::names::ListFile;
use crate::places::gate_of;
use qz_folders::OpenFault;
use qz_record::ListFault;
use qz_text::{Bytes, NoMemory};
use std::alloc::Global;

/// What is told of a file that is damaged at this place.
fn damaged(alloc: Global, file: ListFile, place: u64) -> LoadFault
    ensures { TellsDamageOf (name_of file) place result }
{
    match file.name(alloc) {
        Ok(name) => LoadFault::Damaged { name, place },
        Err(NoMemory) => LoadFault::Memory,
    }
}

/// What is told of a file that isn't opened.
pub(crate) fn unopened(alloc: Global, file: ListFile, fault: OpenFault) -> LoadFault
    ensures { TellsUnopened (name_of file) fault result }
{
    match fault {
        OpenFault::Damaged { place } => damaged(alloc, file, place),
        OpenFault::Fault => LoadFault::Fault,
        OpenFault::Memory => LoadFault::Memory,
    }
}

/// What is told of a file with these payloads whose list isn't read.
pub(crate) fn unread(
    alloc: Global,
    file: ListFile,
    payloads: &[Bytes],
    fault: ListFault,
) -> LoadFault
    requires { IsWithin payloads.now fault }
    ensures { TellsUnread (name_of file) payloads.now fault result }
{
    match fault {
        ListFault::Illegal { nth } => damaged(alloc, file, gate_of(payloads, nth)),
        ListFault::Memory => LoadFault::Memory,
    }
}
