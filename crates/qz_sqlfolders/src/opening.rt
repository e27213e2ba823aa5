//! The keepers over a folder's databases, handed out and given back.

ghost use Rattle.std.specs.Prelude.{◌≡◌, ◌+◌, true, false, IfOk, OnOk, OnErr};
ghost use Rattle.qz_disks.specs.declared.shelf.ShelfErr.TheVariants.{Failed};
ghost use Rattle.qz_disks.specs.Shelves.{RisesBy};
ghost use Rattle.qz_folders.specs.Opening.{IsCaused};
ghost use Rattle.qz_sqlfolders.specs.Folders.{
  AreOpened,
  AreOut,
  AreTablesFound,
  HasTablesOf,
  IsOpenedAs,
  IsUnopened,
  KeepsElsewhere,
  catalog_place,
  part_place,
  sql_telling,
  standing_of,
};

use crate::names::{catalog_name, part_name};
use qz_disks::ShelfErr;
use qz_sqlbases::Bases;
use qz_sqlkeep::SqlKeeper;
use qz_text::{Bytes, Listed};
use std::alloc::Global;

/// The keepers of the two lists of a school of one shard.
#[derive(Drop)]
pub struct Keepers<K> {
    pub catalog: K,
    pub part: K,
}

/// The keepers of both lists, with the payloads that were found in their databases.
#[derive(Drop)]
pub struct Opened<K> {
    pub keepers: Keepers<K>,
    pub catalog: Listed<Bytes>,
    pub part: Listed<Bytes>,
}

/// Has both databases of a folder handed out, which are made where they are missing. After an error neither is out. `Failed`: the bases
/// failed. `Memory`: memory was wanting.
pub fn open<B: Bases>(
    alloc: Global,
    bases: &mut B,
    folder: &[u8],
) -> Result<Opened<SqlKeeper<B::Store>>, ShelfErr>
    requires { AreOut false folder.now (B.lists bases.old) }
    ensures opened { IfOk result (AreOpened (sql_telling B.Store.Base.tells B.Store.Store)
        (λ k. k.faults) folder.now (B.lists bases.old)) }
    ensures tables { IfOk result (AreTablesFound B.Store.Store) }
    ensures out { OnOk result (AreOut true folder.now (B.lists bases.new)) }
    ensures steady { OnOk result (B.faults bases.new ≡ B.faults bases.old) }
    ensures back { OnErr result (AreOut false folder.now (B.lists bases.new)) }
    ensures stay { OnErr result (IsUnopened folder.now (B.lists bases.old) (B.lists bases.new)) }
    ensures others { KeepsElsewhere folder.now (B.lists bases.old) (B.lists bases.new) }
    ensures cause { IsCaused Failed (B.faults bases.old) (B.faults bases.new) result }
{
    match bases.keeper(alloc, folder, catalog_name().as_bytes()) {
        Ok((keeper, payloads)) => open_behind(alloc, bases, folder, keeper, payloads),
        Err(fault) => Err(fault),
    }
}

/// Has the shard's database handed out behind the catalogue's. After an error neither is out.
fn open_behind<B: Bases>(
    alloc: Global,
    bases: &mut B,
    folder: &[u8],
    catalog: SqlKeeper<B::Store>,
    payloads: Listed<Bytes>,
) -> Result<Opened<SqlKeeper<B::Store>>, ShelfErr>
    requires out { (B.lists bases.old).is_out (catalog_place folder.now) ≡ true }
    requires free { (B.lists bases.old).is_out (part_place folder.now) ≡ false }
    ensures catalog { IfOk result (λ made. made.keepers.catalog ≡ catalog) }
    ensures payloads { IfOk result (λ made. made.catalog ≡ payloads) }
    ensures part { IfOk result (λ made. IsOpenedAs
        (sql_telling B.Store.Base.tells B.Store.Store) (λ k. k.faults)
        ((B.lists bases.old).list (part_place folder.now)) made.keepers.part made.part) }
    ensures part_tables { IfOk result
        (λ made. HasTablesOf B.Store.Store made.keepers.part made.part) }
    ensures out { OnOk result (AreOut true folder.now (B.lists bases.new)) }
    ensures steady { OnOk result (B.faults bases.new ≡ B.faults bases.old) }
    ensures back { OnErr result (AreOut false folder.now (B.lists bases.new)) }
    ensures catalog_stands { OnErr result ((B.lists bases.new).list (catalog_place folder.now)
        ≡ standing_of (sql_telling B.Store.Base.tells B.Store.Store) catalog) }
    ensures part_stays { OnErr result ((B.lists bases.new).list (part_place folder.now)
        ≡ (B.lists bases.old).list (part_place folder.now)) }
    ensures others { KeepsElsewhere folder.now (B.lists bases.old) (B.lists bases.new) }
    ensures cause { IsCaused Failed (B.faults bases.old) (B.faults bases.new) result }
{
    match bases.keeper(alloc, folder, part_name().as_bytes()) {
        Ok((part, found)) => Ok(Opened {
            keepers: Keepers { catalog, part },
            catalog: payloads,
            part: found,
        }),
        Err(fault) => {
            bases.back(folder, catalog_name().as_bytes(), catalog);
            Err(fault)
        }
    }
}

/// Gives both keepers back. It takes no memory.
pub fn give_back<B: Bases>(bases: &mut B, folder: &[u8], keepers: Keepers<SqlKeeper<B::Store>>)
    requires { AreOut true folder.now (B.lists bases.old) }
    ensures back { AreOut false folder.now (B.lists bases.new) }
    ensures catalog { (B.lists bases.new).list (catalog_place folder.now)
        ≡ standing_of (sql_telling B.Store.Base.tells B.Store.Store) keepers.catalog }
    ensures part { (B.lists bases.new).list (part_place folder.now)
        ≡ standing_of (sql_telling B.Store.Base.tells B.Store.Store) keepers.part }
    ensures others { KeepsElsewhere folder.now (B.lists bases.old) (B.lists bases.new) }
    ensures faults { RisesBy (keepers.catalog.faults + keepers.part.faults)
        (B.faults bases.old) (B.faults bases.new) }
{
    let Keepers { catalog, part } = keepers;
    bases.back(folder, catalog_name().as_bytes(), catalog);
    bases.back(folder, part_name().as_bytes(), part);
}
