//! Folders of std as a shelf.

ghost use Rattle.std.specs.Prelude.{refl, ◌≡◌, ◌+◌, ◌-◌, ◌^◌, ◌<◌, ◌≤◌, min, true, false, [], Ok, Err, is_some, IfOk, OnOk, OnErr, IsErrOf};
ghost use Rattle.qz_outside.specs.Causes.{counted};
ghost use Rattle.qz_disks.specs.Shelves.{place, SameFiles, EndsHandingOut, TakesBack, RisesBy, HasShelfCause};
ghost use Rattle.qz_disks.specs.Slots.{stands_at, untold, folder_files};
ghost use Rattle.qz_disks.specs.declared.shelf.ShelfErr.TheVariants.{Failed, Memory};

use crate::slots::{Slot, add, has, look, replace};
use crate::{FileDisk, Shelf, ShelfErr};
use qz_text::NoMemory;
use std::alloc::Global;
use std::fs::{File, Files};
use std::io::ErrorKind;
use std::marker::Model;
use std::path::Path;
use std::{fs, io};

/// Folders of the system as a shelf, which tells nothing of its files but which are out.
///
/// A file is locked while it is out, and one that another program has locked isn't handed out. A folder that is missing
/// is made, if the one above it is there. The names of a file and of its folder are on the medium before the file is
/// handed out.
#[derive(Drop)]
pub struct FolderShelf<R> {
    files: R,
    /// The files that were asked for, and whether each is out.
    slots: Vec<Slot<bool>>,
    faults: u64,
}

impl<R> Model for FolderShelf<R> {
    ghost use Rattle.qz_disks.specs.Slots.{Register};

    ghost Value = { Register };

    ghost view = { λ s. record { slots = s.slots.items; faults = s.faults } };
}

impl<R> FolderShelf<R> {
    /// A shelf over these files, from which none was handed out.
    pub fn new(alloc: Global, files: R) -> FolderShelf<R>
        ensures { result ≡ record { slots = []; faults = 0 } }
    {
        FolderShelf {
            files,
            slots: Vec::new(alloc),
            faults: 0,
        }
    }

    /// Whether a file is out.
    pub fn is_out(&self, folder: &[u8], name: &[u8]) -> bool
        ensures { result ≡ (folder_files self.now.slots).is_out (place folder.now name.now) }
    {
        matches!(look(&self.slots, folder, name), Some(true))
    }

    /// How often it has failed, and the disks given back.
    pub fn faults(&self) -> u64
        ensures { result ≡ self.now.faults }
    {
        self.faults
    }

    // Makes the slot of a place, unless there is one.
    fn make_slot(&mut self, alloc: Global, folder: &[u8], name: &[u8]) -> Result<(), NoMemory>
        requires { (folder_files self.old.slots).is_out (place folder.now name.now) ≡ false }
        ensures made { OnOk result
            (is_some (stands_at (place folder.now name.now) self.new.slots) ≡ true) }
        ensures files { SameFiles (folder_files self.old.slots) (folder_files self.new.slots) }
        ensures steady { self.new.faults ≡ self.old.faults }
    {
        if !has(&self.slots, folder, name) {
            let slot = Slot::of(alloc, folder, name, false)?;
            self.slots.reserve(1)?;
            add(&mut self.slots, slot);
        }
        Ok(())
    }
}

impl<R: Files<File = File>> Shelf for FolderShelf<R> {
    type Disk = FileDisk;

    ghost files = { λ s. folder_files s.slots };

    ghost faults = { λ s. s.faults };

    ghost sound = { λ _. ⊥ };

    ghost tells_alike = { λ _ _ _ _ _. refl };

    ghost reads_now = { λ _ _ _. tt };

    fn disk(&mut self, alloc: Global, folder: &[u8], name: &[u8]) -> Result<FileDisk, ShelfErr>
        requires { (folder_files self.old.slots).is_out (place folder.now name.now) ≡ false }
        ensures files { EndsHandingOut (place folder.now name.now) (folder_files self.old.slots)
            (folder_files self.new.slots) (λ _. untold) result }
        ensures fresh { IfOk result (λ disk. disk.faults ≡ 0) }
        ensures cause { HasShelfCause self.old.faults self.new.faults result }

        // The count rises in a call that fails, and in no other.
        ensures steady { OnOk result (self.new.faults ≡ self.old.faults) }
        ensures counts { IsErrOf result Failed → self.new.faults ≡ counted self.old.faults }
    {
        self.make_slot(alloc, folder, name)?;
        match file_at(&self.files, alloc, folder, name) {
            Ok(file) => {
                let _ = replace(&mut self.slots, folder, name, true);
                Ok(FileDisk::new(file))
            }
            Err(ShelfErr::Failed) => {
                self.faults = self.faults.saturating_add(1);
                Err(ShelfErr::Failed)
            }
            Err(ShelfErr::Memory) => Err(ShelfErr::Memory),
        }
    }

    // Cuts off what is spared, and closes the file, which gives its lock up.
    fn back(&mut self, folder: &[u8], name: &[u8], disk: FileDisk)
        requires { (folder_files self.old.slots).is_out (place folder.now name.now) ≡ true }
        ensures files { TakesBack (place folder.now name.now) (folder_files self.old.slots)
            (folder_files self.new.slots) untold }
        ensures faults { RisesBy disk.faults self.old.faults self.new.faults }
        ensures sum { self.new.faults ≡ min (self.old.faults + disk.faults) (2 ^ 64 - 1) }
    {
        let mut disk = disk;
        disk.trim();
        self.faults = self.faults.saturating_add(disk.faults());
        let _ = replace(&mut self.slots, folder, name, false);
    }
}

// The file of this name. The system takes texts alone as names.
fn file_at<R: Files<File = File>>(
    files: &R,
    alloc: Global,
    folder: &[u8],
    name: &[u8],
) -> Result<File, ShelfErr> {
    let (Ok(folder), Ok(name)) = (str::from_utf8(folder), str::from_utf8(name)) else {
        return Err(ShelfErr::Failed);
    };
    let folder = Path::new(folder);
    let file = folder.join(alloc, name)?;
    let above = folder.join(alloc, "..")?;
    match opened(files, folder, file.as_path(), above.as_path()) {
        Ok(file) => Ok(file),
        Err(_) => Err(ShelfErr::Failed),
    }
}

// Opens a file for reading and writing, and locks it. Both folders are synced, whoever made the names: a program that
// was stopped may have left them unsynced.
fn opened<R: Files<File = File>>(
    files: &R,
    folder: Path<'_>,
    file: Path<'_>,
    above: Path<'_>,
) -> io::Result<File> {
    make_folder(files, folder)?;
    let file = File::options()
        .read(true)
        .write(true)
        .create(true)
        .open(files, file)?;
    file.try_lock()?;
    sync_folder(files, folder)?;
    sync_folder(files, above)?;
    Ok(file)
}

fn make_folder<R: Files>(files: &R, folder: Path<'_>) -> io::Result<()> {
    match fs::create_dir(files, folder) {
        Err(error) if error.kind() == ErrorKind::AlreadyExists => Ok(()),
        done => done,
    }
}

fn sync_folder<R: Files<File = File>>(files: &R, folder: Path<'_>) -> io::Result<()> {
    File::open(files, folder)?.sync_all()
}
