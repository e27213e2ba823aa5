//! Refusals of SQLite, as a keeper tells them.

ghost use Rattle.std.specs.Prelude.{◌≡◌};
ghost use Rattle.qz_sqlkeep.specs.Keeping.{told_of, faults_after};

use qz_disks::KeepErr;
use sqlite::{Error, ErrorCode};

/// Want of memory is told as such. Any other refusal is told as a fault, and raises the count.
pub(crate) fn told(faults: &mut u64, error: Error) -> KeepErr
    ensures told { result ≡ told_of error }
    ensures counted { faults.new ≡ faults_after result faults.old }
{
    match error {
        Error::SqliteFailure(ErrorCode::OutOfMemory) => KeepErr::Memory,
        _ => {
            *faults = faults.saturating_add(1);
            KeepErr::Fault
        }
    }
}
