//! Folders of the system, whose files are databases of SQLite.

ghost use Rattle.std.specs.Prelude.{◌≡◌, ◌+◌, ◌-◌, ◌^◌, min, true, false, [], None, is_some, IfOk, OnOk, IsErrOf};
ghost use Rattle.qz_outside.specs.Causes.{counted};
ghost use Rattle.qz_disks.specs.declared.shelf.ShelfErr.TheVariants.{Failed};
ghost use Rattle.qz_disks.specs.Shelves.{place, HasShelfCause, RisesBy};
ghost use Rattle.sqlite.specs.Files.{file_state};
ghost use Rattle.sqlite.specs.State.{HasCleanDisk};
ghost use Rattle.qz_sqlkeep.specs.Keeping.{kept_in, Stands};
ghost use Rattle.qz_sqlbases.specs.Databases.{standing_as, EndsHandingOut, SameLists, TakesBack};
ghost use Rattle.qz_disks.specs.Slots.{stands_at};
ghost use Rattle.qz_sqlbases.specs.Slots.{folder_lists};

use crate::{Bases, Returned};
use qz_disks::ShelfErr;
use qz_disks::slots::{Slot, add, has, look, replace};
use qz_sqlkeep::SqlKeeper;
use qz_text::{Bytes, Listed, NoMemory};
use sqlite::{Connection, Error, ErrorCode, File, FileStore};
use std::alloc::Global;
use std::io::ErrorKind;
use std::marker::Model;
use std::path::Path;
use std::{fs, io};

/// Folders of the system as bases, which tell nothing of their lists but which are out.
///
/// A file is locked while it is out, and one that another program has open isn't handed out. A folder that is missing is
/// made, if the one above it is there. The names of a file and of its folder are on the medium before it is handed out.
#[derive(Drop)]
pub struct FolderBases<'a> {
    rt: &'a HostRuntime,
    /// The databases that were asked for: nothing while it is out, and else the payload that was in doubt as it was
    /// given back.
    slots: Vec<Slot<Option<Option<Bytes>>>>,
    faults: u64,
}

impl<'a> Model for FolderBases<'a> {
    ghost use Rattle.qz_sqlbases.specs.Slots.{Register};

    ghost Value = { Register };

    ghost view = { λ b. record { slots = b.slots.items; faults = b.faults } };
}

type Opened = (SqlKeeper<FileStore<File>>, Listed<Bytes>);

impl<'a> FolderBases<'a> {
    /// Bases over the system's files, from which none was handed out.
    pub fn new(rt: &'a HostRuntime) -> FolderBases<'a>
        ensures { result ≡ record { slots = []; faults = 0 } }
    {
        FolderBases {
            rt,
            slots: Vec::new(rt.alloc()),
            faults: 0,
        }
    }

    /// Whether a database is out.
    pub fn is_out(&self, folder: &[u8], name: &[u8]) -> bool
        ensures { result ≡ (folder_lists self.now.slots).is_out (place folder.now name.now) }
    {
        matches!(look(&self.slots, folder, name), Some(None))
    }

    /// How often they have failed, and the keepers given back.
    pub fn faults(&self) -> u64
        ensures { result ≡ self.now.faults }
    {
        self.faults
    }

    // Makes the slot of a place, unless there is one.
    fn make_slot(&mut self, alloc: Global, folder: &[u8], name: &[u8]) -> Result<(), NoMemory>
        requires { (folder_lists self.old.slots).is_out (place folder.now name.now) ≡ false }
        ensures made { OnOk result
            (is_some (stands_at (place folder.now name.now) self.new.slots) ≡ true) }
        ensures lists { SameLists (folder_lists self.old.slots) (folder_lists self.new.slots) }
        ensures steady { self.new.faults ≡ self.old.faults }
    {
        if !has(&self.slots, folder, name) {
            let slot = Slot::of(alloc, folder, name, Some(None))?;
            self.slots.reserve(1)?;
            add(&mut self.slots, slot);
        }
        Ok(())
    }
}

impl<'a> Bases for FolderBases<'a> {
    type Store = FileStore<File>;

    ghost lists = { λ b. folder_lists b.slots };

    ghost faults = { λ b. b.faults };

    fn keeper(&mut self, alloc: Global, folder: &[u8], name: &[u8]) -> Result<Opened, ShelfErr>
        requires { (folder_lists self.old.slots).is_out (place folder.now name.now) ≡ false }
        ensures lists { EndsHandingOut (place folder.now name.now)
            (folder_lists self.old.slots) (folder_lists self.new.slots) false
            (λ r. kept_in false (file_state r.0.conn).now) (λ r. r.0.doubt) (λ r. r.1) result }
        ensures fresh { IfOk result (λ r. r.0.faults ≡ 0) }
        ensures cause { HasShelfCause self.old.faults self.new.faults result }
        ensures steady { OnOk result (self.new.faults ≡ self.old.faults) }
        ensures tables { IfOk result (λ r. HasCleanDisk (file_state r.0.conn)
            → Stands r.1 (file_state r.0.conn).now) }

        // The count rises in a call that fails, and in no other.
        ensures counts { IsErrOf result Failed → self.new.faults ≡ counted self.old.faults }
    {
        self.make_slot(alloc, folder, name)?;
        match database_at(self.rt, alloc, folder, name) {
            Ok(opened) => {
                let _ = replace(&mut self.slots, folder, name, None);
                Ok(opened)
            }
            Err(ShelfErr::Failed) => {
                self.faults = self.faults.saturating_add(1);
                Err(ShelfErr::Failed)
            }
            Err(ShelfErr::Memory) => Err(ShelfErr::Memory),
        }
    }

    // Closes the file, which gives its lock up: its log is copied into it, so that the log doesn't grow from run to run.
    // What was appended is on the medium before.
    fn take_back<K: Returned<FileStore<File>>>(&mut self, folder: &[u8], name: &[u8], returned: K)
        requires { (folder_lists self.old.slots).is_out (place folder.now name.now) ≡ true }
        ensures lists { TakesBack (place folder.now name.now)
            (folder_lists self.old.slots) (folder_lists self.new.slots)
            (standing_as (kept_in false (file_state (K.held returned).conn).now)
            (K.held returned).doubt) }
        ensures faults { RisesBy (K.held returned).faults self.old.faults self.new.faults }
        ensures sum { self.new.faults
            ≡ min (self.old.faults + (K.held returned).faults) (2 ^ 64 - 1) }
    {
        let keeper = returned.into_keeper();
        self.faults = self.faults.saturating_add(keeper.faults());
        let doubt = keeper.close();
        let _ = replace(&mut self.slots, folder, name, Some(doubt));
    }
}

// The database in a file of this name. The system takes texts alone as names.
fn database_at(
    rt: &HostRuntime,
    alloc: Global,
    folder: &[u8],
    name: &[u8],
) -> Result<Opened, ShelfErr>
    ensures fresh { IfOk result (λ r. (r.0.doubt ≡ None) × (r.0.faults ≡ 0)) }
    ensures tables { IfOk result (λ r. HasCleanDisk (file_state r.0.conn)
        → Stands r.1 (file_state r.0.conn).now) }
{
    let (Ok(folder), Ok(name)) = (str::from_utf8(folder), str::from_utf8(name)) else {
        return Err(ShelfErr::Failed);
    };
    let folder = Path::new(folder);
    let file = folder.join(alloc, name)?;
    let Some(path) = file.as_path().to_str() else {
        return Err(ShelfErr::Failed);
    };
    if make_folder(rt, folder).is_err() {
        return Err(ShelfErr::Failed);
    }
    let opened = opened(rt, alloc, path)?;
    sync_names(rt, alloc, folder)?;
    Ok(opened)
}

// The keeper of the database at a path, which is made where it isn't there.
fn opened(rt: &HostRuntime, alloc: Global, path: &str) -> Result<Opened, ShelfErr>
    ensures fresh { IfOk result (λ r. (r.0.doubt ≡ None) × (r.0.faults ≡ 0)) }
    ensures tables { IfOk result (λ r. HasCleanDisk (file_state r.0.conn)
        → Stands r.1 (file_state r.0.conn).now) }
{
    let conn = match Connection::open(rt, path) {
        Ok(conn) => conn,
        Err(error) => return Err(told(error)),
    };
    match SqlKeeper::open(alloc, conn) {
        Ok(opened) => Ok(opened),
        Err(error) => Err(told(error)),
    }
}

fn told(error: Error) -> ShelfErr {
    match error {
        Error::SqliteFailure(ErrorCode::OutOfMemory) => ShelfErr::Memory,
        _ => ShelfErr::Failed,
    }
}

fn make_folder(rt: &HostRuntime, folder: Path<'_>) -> io::Result<()> {
    match fs::create_dir(rt, folder) {
        Err(error) if error.kind() == ErrorKind::AlreadyExists => Ok(()),
        done => done,
    }
}

// Puts the names of the files of a folder and its own on the medium, whoever made them: a program that was stopped may
// have left them unsynced.
fn sync_names(rt: &HostRuntime, alloc: Global, folder: Path<'_>) -> Result<(), ShelfErr> {
    let above = folder.join(alloc, "..")?;
    if sync_folder(rt, folder).is_err() || sync_folder(rt, above.as_path()).is_err() {
        return Err(ShelfErr::Failed);
    }
    Ok(())
}

fn sync_folder(rt: &HostRuntime, folder: Path<'_>) -> io::Result<()> {
    fs::File::open(rt, folder)?.sync_all()
}
