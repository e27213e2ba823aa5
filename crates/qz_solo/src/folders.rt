//! A school from the files of a folder, and back.

ghost use Rattle.std.specs.Prelude.{◌≡◌, ◌+◌, ◌≤◌, length, sum_by, IfOk, IfErr, OnErr, IsErrOf};
ghost use Rattle.qz_terms.specs.declared.limits.TheConstants.{MOST_SHARDS};
ghost use Rattle.qz_disks.specs.Shelves.{NoneOutIn, RisesBy};
ghost use Rattle.qz_disks.specs.Sound.{StaysSound};
ghost use Rattle.qz_folders.specs.Opening.{IsCaused, IsSoundOut};
ghost use Rattle.qz_loading.specs.declared.fault.LoadFault.TheVariants.{Fault};
ghost use Rattle.qz_loading.specs.Closing.{IsBack, PartsAreBack};
ghost use Rattle.qz_loading.specs.Opening.{AreSound, AreSoundOut, IsLoadedFrom};
ghost use Rattle.qz_loading.specs.Places.{IsOut, KeepsElsewhere, LeavesUnreached, ListsStay, catalog_place};
ghost use Rattle.qz_loading.specs.Reading.{IsLoadFault};
ghost use Rattle.qz_school.specs.Solos.{lists_in};
ghost use Rattle.qz_solo.specs.Restarting.{Restarts};
ghost use Rattle.qz_solo.specs.Standing.{StandAsSchool};

use crate::Solo;
use qz_disks::{Keeper, Shelf};
use qz_journal::Journal;
use qz_loading::{LoadFault, Loaded};
use std::alloc::Global;

/// Loads the school of a folder, of which no file is out. Its lists are those that the folder's files stand for: where these stand for the
/// lists of a school, what is loaded has these very lists, and nothing but a fault or want of memory keeps it from being loaded.
///
/// After an error every file is back. The catalogue's file comes first, and then each shard's, in order: what is damaged there, and then
/// its first record that disagrees. `Damaged`, `NotFounded`, `Behind` and `Altered` tell the first that is found so, and the files of
/// the shards behind it are as they were; `Fault`: the shelf failed, or the disk of a file; `Memory`: memory was wanting.
pub fn load<F: Shelf>(
    alloc: Global,
    shelf: &mut F,
    folder: &[u8],
) -> Result<Solo<Journal<F::Disk>>, LoadFault>
    requires { NoneOutIn folder.now (F.files shelf.old) }
    ensures loaded { IfOk result (λ made. IsLoadedFrom F.Disk.moment F.Disk.left_at folder.now
        (F.files shelf.old) made.catalog made.parts) }
    ensures restarts { Restarts folder.now (F.files shelf.old) result }
    ensures few { IfOk result (λ made. length made.parts ≤ MOST_SHARDS) }
    ensures out { IfOk result (λ made. IsOut folder.now (length made.parts) (F.files shelf.new)) }
    ensures others { IfOk result (λ made. KeepsElsewhere folder.now (length made.parts)
        (F.files shelf.old) (F.files shelf.new)) }
    ensures none_out { OnErr result (NoneOutIn folder.now (F.files shelf.new)) }
    ensures stay { OnErr result (ListsStay folder.now (F.files shelf.old) (F.files shelf.new)) }
    ensures unreached { IfErr result (LeavesUnreached folder.now
        (F.files shelf.old) (F.files shelf.new)) }
    ensures why { IfErr result (IsLoadFault folder.now (F.files shelf.old)) }
    ensures cause { IsCaused Fault (F.faults shelf.old) (F.faults shelf.new) result }
    ensures stays_sound { StaysSound (F.sound shelf.old) (F.sound shelf.new)
        (F.faults shelf.old) (F.faults shelf.new) (IsErrOf result Fault) }
    ensures sound_catalog { IfOk result (λ made. F.sound shelf.old
        → IsSoundOut F.Disk.sound F.Disk.faults
        ((F.files shelf.old).file (catalog_place folder.now)) made.catalog.keeper) }
    ensures sound_parts { IfOk result (λ made. F.sound shelf.old
        → AreSoundOut F.Disk.sound F.Disk.faults folder.now (F.files shelf.old) made.parts) }
{
    match qz_loading::load(alloc, shelf, folder) {
        Ok(Loaded { catalog, shards }) => Ok(Solo::of(catalog, shards)),
        Err(fault) => Err(fault),
    }
}

/// Gives every file of a school's lists back. It takes no memory, and writes nothing. Each file stands for its list then, or where a
/// record is in doubt for the list or for it with that record; and whichever of these do, they are a school's, of records that a file may
/// keep.
pub fn close<F: Shelf>(shelf: &mut F, folder: &[u8], school: Solo<Journal<F::Disk>>)
    requires few { length school.parts ≤ MOST_SHARDS }
    requires out { IsOut folder.now (length school.parts) (F.files shelf.old) }
    ensures none_out { NoneOutIn folder.now (F.files shelf.new) }
    ensures catalog { IsBack school.catalog.keeper school.catalog.held
        ((F.files shelf.new).file (catalog_place folder.now)) }
    ensures parts { PartsAreBack folder.now school.parts (F.files shelf.new) }
    ensures school { StandAsSchool (lists_in school) }
    ensures others { KeepsElsewhere folder.now (length school.parts)
        (F.files shelf.old) (F.files shelf.new) }
    ensures faults { RisesBy (F.Disk.faults school.catalog.keeper.disk
        + sum_by (λ s. F.Disk.faults s.keeper.disk) school.parts)
        (F.faults shelf.old) (F.faults shelf.new) }
    ensures stays_sound { F.Disk.sound school.catalog.keeper.disk
        → F.Disk.faults school.catalog.keeper.disk ≡ 0
        → AreSound F.Disk.sound F.Disk.faults school.parts
        → StaysSound (F.sound shelf.old) (F.sound shelf.new)
        (F.faults shelf.old) (F.faults shelf.new) ⊥ }
{
    school.attest();
    let (catalog, shards) = school.into_parts();
    qz_loading::close(shelf, folder, Loaded { catalog, shards });
}
