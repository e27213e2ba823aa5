//! The lists of a school, loaded from its folder.

ghost use Rattle.std.specs.Prelude.{◌≡◌, ◌≤◌, length, Some, IfOk, IfErr, OnErr, IsErrOf};
ghost use Rattle.qz_terms.specs.declared.limits.TheConstants.{MOST_SHARDS};
ghost use Rattle.qz_disks.specs.Shelves.{NoneOutIn};
ghost use Rattle.qz_disks.specs.Sound.{StaysSound};
ghost use Rattle.qz_folders.specs.Opening.{IsCaused, IsSoundOut};
ghost use Rattle.qz_loading.specs.declared.fault.LoadFault.TheVariants.{Fault};
ghost use Rattle.qz_loading.specs.Opening.{AreSoundOut, IsLoadedFrom};
ghost use Rattle.qz_loading.specs.Places.{IsOut, KeepsElsewhere, LeavesUnreached, ListsStay, catalog_place};
ghost use Rattle.qz_loading.specs.Reading.{IsLoadFault};
ghost use Rattle.qz_terms.specs.Catalog as terms;

use crate::closing::give_back_catalog;
use crate::fault::LoadFault;
use crate::opening::{Loaded, open_catalog};
use crate::parts::open_parts;
use qz_catalog::CatalogCore;
use qz_disks::Shelf;
use qz_terms::Event;
use std::alloc::Global;

/// The number of shards that a catalogue was founded with, from 1 to 64.
fn shard_count(catalog: &CatalogCore) -> u8
    ensures count { terms.shards catalog.now ≡ Some result }
    ensures some { 1 ≤ result }
    ensures few { result ≤ MOST_SHARDS }
{
    let Event::Founded { shards, .. } = &catalog.records()[0].event else {
        unreachable!()
    };
    *shards
}

/// Loads the lists of the school in a folder, of which no file is out. They are those of a school: the catalogue is legal and was
/// founded with as many shards as there are, each shard's list is legal, and every record of a shard agrees with the catalogue.
///
/// The catalogue's file comes first, and then each shard's, in order: it is opened and read, what is damaged there comes before its
/// first record that disagrees, and only where all agree is the next shard's file opened. `Damaged`, `NotFounded`, `Behind` and
/// `Altered` tell the first that is found so, and the files of the shards behind it are as they were: no such file is made, cut or
/// looked at. `Fault`: the shelf failed, or the disk of a file; `Memory`: memory was wanting. After an error every file is back.
pub fn load<F: Shelf>(
    alloc: Global,
    shelf: &mut F,
    folder: &[u8],
) -> Result<Loaded<F::Disk>, LoadFault>
    requires { NoneOutIn folder.now (F.files shelf.old) }
    ensures loaded { IfOk result (λ made. IsLoadedFrom F.Disk.moment F.Disk.left_at folder.now
        (F.files shelf.old) made.catalog made.shards.items) }
    ensures some { IfOk result (λ made. 1 ≤ length made.shards.items) }
    ensures few { IfOk result (λ made. length made.shards.items ≤ MOST_SHARDS) }
    ensures out { IfOk result
        (λ made. IsOut folder.now (length made.shards.items) (F.files shelf.new)) }
    ensures others { IfOk result (λ made. KeepsElsewhere folder.now (length made.shards.items)
        (F.files shelf.old) (F.files shelf.new)) }
    ensures none_out { OnErr result (NoneOutIn folder.now (F.files shelf.new)) }
    ensures stay { OnErr result (ListsStay folder.now (F.files shelf.old) (F.files shelf.new)) }
    ensures unreached { IfErr result (LeavesUnreached folder.now
        (F.files shelf.old) (F.files shelf.new)) }
    ensures why { IfErr result (IsLoadFault folder.now (F.files shelf.old)) }
    ensures cause { IsCaused Fault (F.faults shelf.old) (F.faults shelf.new) result }
    ensures stays_sound { StaysSound (F.sound shelf.old) (F.sound shelf.new)
        (F.faults shelf.old) (F.faults shelf.new) (IsErrOf result Fault) }
    ensures sound_catalog { IfOk result (λ made. F.sound shelf.old
        → IsSoundOut F.Disk.sound F.Disk.faults
        ((F.files shelf.old).file (catalog_place folder.now)) made.catalog.keeper) }
    ensures sound_parts { IfOk result (λ made. F.sound shelf.old
        → AreSoundOut F.Disk.sound F.Disk.faults folder.now (F.files shelf.old) made.shards.items) }
{
    let catalog = open_catalog(alloc, shelf, folder)?;
    let core = catalog.core();
    match open_parts(alloc, shelf, folder, core, shard_count(core)) {
        Ok(shards) => Ok(Loaded { catalog, shards }),
        Err(fault) => {
            give_back_catalog(shelf, folder, catalog);
            Err(fault)
        }
    }
}
