//! What is told of a database whose list isn't read.

ghost use Rattle.std.specs.Prelude.{◌≡◌};
ghost use Rattle.qz_loading.specs.Telling.{TellsDamageOf};
ghost use Rattle.qz_sqlite.specs.Telling.{TellsIllegal, kept_fault_of};

use qz_disks::KeepErr;
use qz_loading::LoadFault;
use qz_record::ListFault;
use qz_text::{NoMemory, Text};
use std::alloc::Global;

/// What is told of a database whose record at this place, from 1, is damaged.
pub(crate) fn damaged(alloc: Global, name: &str, nth: u64) -> LoadFault
    ensures { TellsDamageOf name.now nth result }
{
    match Text::of(alloc, name) {
        Ok(name) => LoadFault::Damaged { name, place: nth },
        Err(NoMemory) => LoadFault::Memory,
    }
}

/// What is told of a database whose list isn't read.
pub(crate) fn unread(alloc: Global, name: &str, fault: ListFault) -> LoadFault
    ensures { TellsIllegal name.now fault result }
{
    match fault {
        ListFault::Illegal { nth } => damaged(alloc, name, nth),
        ListFault::Memory => LoadFault::Memory,
    }
}

/// What is told where a keeper didn't take the founding.
pub(crate) fn kept_fault(fault: KeepErr) -> LoadFault
    ensures { result ≡ kept_fault_of fault }
{
    match fault {
        KeepErr::Fault => LoadFault::Fault,
        KeepErr::Memory => LoadFault::Memory,
    }
}
