//! A school whose two lists stand in the databases of a folder: loaded of them, and given back to them.

ghost use Rattle.std.specs.Prelude.{◌≡◌, ◌≤◌, true, false, length, IfOk, IfErr, OnOk, OnErr};
ghost use Rattle.qz_disks.specs.Shelves.{RisesBy};
ghost use Rattle.qz_folders.specs.Opening.{IsCaused};
ghost use Rattle.qz_loading.specs.declared.fault.LoadFault.TheVariants.{Fault};
ghost use Rattle.qz_school.specs.Solos.{faults_of};
ghost use Rattle.qz_sqlfolders.specs.Folders.{AreOut, AreTablesFound, KeepsElsewhere, sql_telling};
ghost use Rattle.qz_sqlite.specs.Loading.{AreStoredIn, IsLoadedFrom, IsLoadFault, ListsStay};
ghost use Rattle.qz_sqlite.specs.Telling.{shelf_fault_of};
ghost use Rattle.qz_terms.specs.declared.limits.TheConstants.{LONGEST_KEY};

use crate::keepers::into_keepers;
use crate::reading::read_school;
use qz_disks::ShelfErr;
use qz_loading::LoadFault;
use qz_solo::Solo;
use qz_sqlbases::Bases;
use qz_sqlfolders::{Opened, give_back, open};
use qz_sqlkeep::SqlKeeper;
use qz_text::Text;
use std::alloc::Global;

/// What is told where bases don't hand a database out.
fn shelf_fault(fault: ShelfErr) -> LoadFault
    ensures { result ≡ shelf_fault_of fault }
{
    match fault {
        ShelfErr::Failed => LoadFault::Fault,
        ShelfErr::Memory => LoadFault::Memory,
    }
}

/// Loads the school of a folder's databases, of which neither is out: of `catalog.db` and `part-00.db`, which are made where they are
/// missing. Where the catalogue's list is empty it is founded with one shard and the manager's token; else the token isn't looked at.
///
/// After an error both databases are given back. `Damaged` names the database, and the place from 1 of the first record that is illegal, in
/// the catalogue and then in the shard; a catalogue that was founded with another number of shards is damaged at place 1. `Behind` and
/// `Altered` tell the shard's first record that disagrees with the catalogue. `Fault`: the bases failed, or the keeper of the catalogue
/// did under the founding, which is in doubt then. `Memory`: memory was wanting. It is never `NotFounded`.
pub fn load<B: Bases>(
    alloc: Global,
    bases: &mut B,
    folder: &[u8],
    token: &Text,
) -> Result<Solo<SqlKeeper<B::Store>>, LoadFault>
    requires free { AreOut false folder.now (B.lists bases.old) }
    requires short { length token.now ≤ LONGEST_KEY }
    ensures loaded { IfOk result (IsLoadedFrom (sql_telling B.Store.Base.tells B.Store.Store)
        (λ k. k.faults) (AreTablesFound B.Store.Store)
        token.now folder.now (B.lists bases.old)) }
    ensures out { OnOk result (AreOut true folder.now (B.lists bases.new)) }
    ensures steady { OnOk result (B.faults bases.new ≡ B.faults bases.old) }
    ensures back { OnErr result (AreOut false folder.now (B.lists bases.new)) }
    ensures why { IfErr result (IsLoadFault token.now folder.now (B.lists bases.old)) }
    ensures stay { IfErr result (ListsStay token.now folder.now
        (B.lists bases.old) (B.lists bases.new)) }
    ensures others { KeepsElsewhere folder.now (B.lists bases.old) (B.lists bases.new) }
    ensures cause { IsCaused Fault (B.faults bases.old) (B.faults bases.new) result }
{
    let Opened {
        keepers,
        catalog,
        part,
    } = match open(alloc, bases, folder) {
        Ok(opened) => opened,
        Err(fault) => return Err(shelf_fault(fault)),
    };
    match read_school(alloc, keepers, catalog, part.as_slice(), token) {
        Ok(school) => Ok(school),
        Err((keepers, fault)) => {
            give_back(bases, folder, keepers);
            Err(fault)
        }
    }
}

/// Gives both databases of a folder back, whose lists are a school's. It takes no memory, and writes nothing: a record in doubt stays in
/// doubt.
pub fn close<B: Bases>(bases: &mut B, folder: &[u8], school: Solo<SqlKeeper<B::Store>>)
    requires one { length school.parts ≡ 1 }
    requires out { AreOut true folder.now (B.lists bases.old) }
    ensures back { AreOut false folder.now (B.lists bases.new) }
    ensures stored { AreStoredIn folder.now (B.lists bases.new) school }
    ensures others { KeepsElsewhere folder.now (B.lists bases.old) (B.lists bases.new) }
    ensures faults { RisesBy (faults_of (λ k. k.faults) school)
        (B.faults bases.old) (B.faults bases.new) }
{
    let keepers = into_keepers(school);
    give_back(bases, folder, keepers);
}
