//! What takes the records of a list before they are put.

ghost use Rattle.std.specs.Prelude.{◌≡◌, Option, None, IfOk};
ghost use Rattle.qz_disks.specs.declared.keeper.KeepErr.{KeepErr};
ghost use Rattle.qz_keeper.specs.Recording.{failure};
ghost use Rattle.qz_terms.specs.Kept.{IsKept};
ghost use Rattle.qz_terms.specs.declared.record.Record.{Record};

use qz_disks::KeepErr;
use qz_terms::Record;
use std::alloc::Global;

/// What takes the records of a list before they are put.
pub trait Recorder {
    /// It takes this record next.
    ghost ready: { Self → Record → Type 0 };

    // What it is after a record, of before, and why the record isn't taken, if it isn't.
    ghost records: { Self → Self → Record → Option KeepErr → Type 0 };

    /// Takes a record, and gives it back.
    fn take(&mut self, alloc: Global, made: Record) -> Result<Record, KeepErr>
        requires ready { ready self.old made }
        requires kept { IsKept made }
        ensures given { IfOk result (λ given. given ≡ made) }
        ensures recorded { records self.old self.new made (failure result) };
}

/// Of a list whose records are kept already, or in memory alone: nothing is done with a record.
#[derive(Drop)]
pub struct Unrecorded;

impl Recorder for Unrecorded {
    ghost ready = { λ _ _. Unit {0} };

    ghost records = { λ _ _ _ e. e ≡ None };

    fn take(&mut self, _alloc: Global, made: Record) -> Result<Record, KeepErr> {
        Ok(made)
    }
}
