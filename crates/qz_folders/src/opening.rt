//! Files of a folder as journals.

ghost use Rattle.std.specs.Prelude.{◌≡◌, ℕ, List, true, false, IfSome, IfOk, IfErr, OnOk, OnErr, IsErrOf, is_some};
ghost use Rattle.qz_disks.specs.Shelves.{place, ChangesAt, RisesBy};
ghost use Rattle.qz_disks.specs.Sound.{StaysSound};
ghost use Rattle.qz_journal.specs.Frames.{stands_for};
ghost use Rattle.qz_journal.specs.Journals.{StandFor};
ghost use Rattle.qz_folders.specs.declared.fault.OpenFault.TheVariants.{Fault};
ghost use Rattle.qz_folders.specs.Opening.{IsOpened, IsCaused, IsSoundOut, StandsStill, TellsDamage};

use crate::OpenFault;
use qz_disks::Shelf;
use qz_journal::Journal;
use qz_text::{Bytes, Listed};
use std::alloc::Global;

/// Hands a file out as a journal, with its payloads. A missing file is one of no payloads.
///
/// After an error the file is back. `Damaged`: its bytes are. `Fault`: the shelf failed, or the disk, whose faults the shelf
/// counts as it is given back. `Memory`: memory was wanting.
pub fn open<F: Shelf>(
    alloc: Global,
    shelf: &mut F,
    folder: &[u8],
    name: &[u8],
) -> Result<(Journal<F::Disk>, Listed<Bytes>), OpenFault>
    requires { (F.files shelf.old).is_out (place folder.now name.now) ≡ false }
    ensures opened { IfOk result (λ made. IsOpened F.Disk.moment F.Disk.left_at
        ((F.files shelf.old).file (place folder.now name.now)) made.0 made.1) }
    ensures out { OnOk result ((F.files shelf.new).is_out (place folder.now name.now) ≡ true) }
    ensures back { OnErr result ((F.files shelf.new).is_out (place folder.now name.now) ≡ false) }
    ensures still { OnErr result (IfSome ((F.files shelf.old).file (place folder.now name.now)).reads
        (λ _. StandsStill ((F.files shelf.old).file (place folder.now name.now)).left
        ((F.files shelf.new).file (place folder.now name.now)).left)) }
    ensures others { ChangesAt (place folder.now name.now) (F.files shelf.old) (F.files shelf.new) }
    ensures damaged { IfErr result (λ fault.
        IfSome ((F.files shelf.old).file (place folder.now name.now)).reads
        (λ bytes. TellsDamage (stands_for bytes) fault)) }
    ensures cause { IsCaused Fault (F.faults shelf.old) (F.faults shelf.new) result }
    ensures stays_sound { StaysSound (F.sound shelf.old) (F.sound shelf.new)
        (F.faults shelf.old) (F.faults shelf.new) (IsErrOf result Fault) }
    ensures sound { IfOk result (λ made. F.sound shelf.old → IsSoundOut F.Disk.sound F.Disk.faults
        ((F.files shelf.old).file (place folder.now name.now)) made.0) }
{
    let disk = shelf.disk(alloc, folder, name)?;
    match Journal::load(alloc, disk) {
        Ok(made) => Ok(made),
        Err((disk, fault)) => {
            shelf.back(folder, name, disk);
            Err(OpenFault::from(fault))
        }
    }
}

/// Gives a file back that is out as a journal. It takes no memory, and writes nothing; the room behind what is kept may be cut off.
pub fn give_back<F: Shelf>(shelf: &mut F, folder: &[u8], name: &[u8], journal: Journal<F::Disk>)
    requires { (F.files shelf.old).is_out (place folder.now name.now) ≡ true }
    ensures here { (F.files shelf.new).is_out (place folder.now name.now) ≡ false }
    ensures reads { ((F.files shelf.new).file (place folder.now name.now)).reads
        ≡ F.Disk.reads journal.disk }
    ensures others { ChangesAt (place folder.now name.now) (F.files shelf.old) (F.files shelf.new) }
    ensures tells { is_some journal.kept
        ≡ is_some ((F.files shelf.new).file (place folder.now name.now)).reads }
    ensures stands { IfSome journal.kept (λ payloads. StandFor payloads journal.doubt
        ((F.files shelf.new).file (place folder.now name.now)).left) }
    ensures faults { RisesBy (F.Disk.faults journal.disk) (F.faults shelf.old) (F.faults shelf.new) }
    ensures stays_sound { F.Disk.sound journal.disk → F.Disk.faults journal.disk ≡ 0
        → StaysSound (F.sound shelf.old) (F.sound shelf.new) (F.faults shelf.old) (F.faults shelf.new) ⊥ }
{
    shelf.back(folder, name, journal.into_disk());
}
