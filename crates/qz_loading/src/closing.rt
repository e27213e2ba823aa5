//! The lists of a school, given back to its folder.

ghost use Rattle.std.specs.Prelude.{◌≡◌, ◌+◌, ◌<◌, ◌≤◌, true, false, length, sum_by};
ghost use Rattle.qz_terms.specs.declared.limits.TheConstants.{MOST_SHARDS};
ghost use Rattle.qz_disks.specs.Shelves.{ChangesAt, NoneOutIn, RisesBy};
ghost use Rattle.qz_disks.specs.Sound.{StaysSound};
ghost use Rattle.qz_loading.specs.Closing.{IsBack, PartsAreBack};
ghost use Rattle.qz_loading.specs.Opening.{AreSound};
ghost use Rattle.qz_loading.specs.Places.{IsOut, KeepsElsewhere, KeepsOthers, PartsAre, catalog_place, part_place};

use crate::names::part_name;
use crate::opening::Loaded;
use qz_catalog::Catalog;
use qz_disks::Shelf;
use qz_folders::{catalog_name, give_back};
use qz_journal::Journal;
use qz_shard::Shard;

/// Gives the catalogue's file back.
pub(crate) fn give_back_catalog<F: Shelf>(
    shelf: &mut F,
    folder: &[u8],
    catalog: Catalog<Journal<F::Disk>>,
)
    requires { (F.files shelf.old).is_out (catalog_place folder.now) ≡ true }
    ensures here { (F.files shelf.new).is_out (catalog_place folder.now) ≡ false }
    ensures back { IsBack catalog.keeper catalog.held
        ((F.files shelf.new).file (catalog_place folder.now)) }
    ensures others { ChangesAt (catalog_place folder.now) (F.files shelf.old) (F.files shelf.new) }
    ensures faults { RisesBy (F.Disk.faults catalog.keeper.disk)
        (F.faults shelf.old) (F.faults shelf.new) }
    ensures stays_sound { F.Disk.sound catalog.keeper.disk → F.Disk.faults catalog.keeper.disk ≡ 0
        → StaysSound (F.sound shelf.old) (F.sound shelf.new)
        (F.faults shelf.old) (F.faults shelf.new) ⊥ }
{
    give_back(shelf, folder, catalog_name(), catalog.into_keeper());
}

/// Gives the file of the shard with this index back.
pub(crate) fn give_back_part<F: Shelf>(
    shelf: &mut F,
    folder: &[u8],
    index: u8,
    shard: Shard<Journal<F::Disk>>,
)
    requires few { index < MOST_SHARDS }
    requires out { (F.files shelf.old).is_out (part_place folder.now index) ≡ true }
    ensures here { (F.files shelf.new).is_out (part_place folder.now index) ≡ false }
    ensures back { IsBack shard.keeper shard.held
        ((F.files shelf.new).file (part_place folder.now index)) }
    ensures others { ChangesAt (part_place folder.now index)
        (F.files shelf.old) (F.files shelf.new) }
    ensures faults { RisesBy (F.Disk.faults shard.keeper.disk)
        (F.faults shelf.old) (F.faults shelf.new) }
    ensures stays_sound { F.Disk.sound shard.keeper.disk → F.Disk.faults shard.keeper.disk ≡ 0
        → StaysSound (F.sound shelf.old) (F.sound shelf.new)
        (F.faults shelf.old) (F.faults shelf.new) ⊥ }
{
    let name = part_name(index);
    give_back(shelf, folder, &name, shard.into_keeper());
}

/// Gives the files of the first shards back, which these are.
pub(crate) fn give_back_parts<F: Shelf>(
    shelf: &mut F,
    folder: &[u8],
    shards: Vec<Shard<Journal<F::Disk>>>,
)
    requires few { length shards.items ≤ MOST_SHARDS }
    requires out { PartsAre true folder.now (length shards.items) (F.files shelf.old) }
    ensures here { PartsAre false folder.now (length shards.items) (F.files shelf.new) }
    ensures back { PartsAreBack folder.now shards.items (F.files shelf.new) }
    ensures others { KeepsOthers folder.now (length shards.items)
        (F.files shelf.old) (F.files shelf.new) }
    ensures faults { RisesBy (sum_by (λ s. F.Disk.faults s.keeper.disk) shards.items)
        (F.faults shelf.old) (F.faults shelf.new) }
    ensures stays_sound { AreSound F.Disk.sound F.Disk.faults shards.items
        → StaysSound (F.sound shelf.old) (F.sound shelf.new)
        (F.faults shelf.old) (F.faults shelf.new) ⊥ }
{
    let mut rest = shards;
    while let Some(shard) = rest.pop() {
        let index = rest.len() as u8;
        give_back_part(shelf, folder, index, shard);
    }
    rest.destroy_empty();
}

/// Gives every file of a school's lists back. It takes no memory, and writes nothing; the room behind what is kept may be cut off.
pub fn close<F: Shelf>(shelf: &mut F, folder: &[u8], loaded: Loaded<F::Disk>)
    requires few { length loaded.shards.items ≤ MOST_SHARDS }
    requires out { IsOut folder.now (length loaded.shards.items) (F.files shelf.old) }
    ensures none_out { NoneOutIn folder.now (F.files shelf.new) }
    ensures catalog { IsBack loaded.catalog.keeper loaded.catalog.held
        ((F.files shelf.new).file (catalog_place folder.now)) }
    ensures parts { PartsAreBack folder.now loaded.shards.items (F.files shelf.new) }
    ensures others { KeepsElsewhere folder.now (length loaded.shards.items)
        (F.files shelf.old) (F.files shelf.new) }
    ensures faults { RisesBy (F.Disk.faults loaded.catalog.keeper.disk
        + sum_by (λ s. F.Disk.faults s.keeper.disk) loaded.shards.items)
        (F.faults shelf.old) (F.faults shelf.new) }
    ensures stays_sound { F.Disk.sound loaded.catalog.keeper.disk
        → F.Disk.faults loaded.catalog.keeper.disk ≡ 0
        → AreSound F.Disk.sound F.Disk.faults loaded.shards.items
        → StaysSound (F.sound shelf.old) (F.sound shelf.new)
        (F.faults shelf.old) (F.faults shelf.new) ⊥ }
{
    let Loaded { catalog, shards } = loaded;
    give_back_catalog(shelf, folder, catalog);
    give_back_parts(shelf, folder, shards);
}
