//! A file of std as a disk.

ghost use Rattle.std.specs.Prelude.{◌≡◌, ◌^◌, ◌<◌, ◌+◌, length, None, IfOk, OnOk, OnErr};
ghost use Rattle.qz_outside.specs.Causes.{HasCause, counted};

use crate::Disk;
use qz_outside::Failed;
use qz_text::NoMemory;
use std::fs::File;
use std::io;
use std::os::unix::fs::FileExt;

/// A file as a disk, which tells nothing of its bytes. Std makes an interrupted call again, and any other error is a
/// failure. What a sync answered `Ok` for is on the medium: nothing is kept back in a buffer of its own.
#[derive(Drop)]
pub struct FileDisk {
    file: File,
    /// Since the last sync the file was cut, or what became of it isn't known, so that its size has to be synced as well.
    was_cut: bool,
    /// Where what is spared begins.
    spared: Option<u64>,
    faults: u64,
    blamed: u64,
}

impl FileDisk {
    /// A disk over a file that was opened for reading and writing. What became of the file before isn't known, so the
    /// first sync is of all.
    pub fn new(file: File) -> FileDisk
        ensures { result.faults ≡ 0 }
    {
        FileDisk {
            file,
            was_cut: true,
            spared: None,
            faults: 0,
            blamed: 0,
        }
    }

    /// How many calls have failed.
    pub fn faults(&self) -> u64
        ensures { result ≡ self.now.faults }
    {
        self.faults
    }

    /// Cuts off what is spared. Where the system refuses that it stays, which is no fault.
    pub(crate) fn trim(&mut self)
        ensures faults { self.new.faults ≡ self.old.faults }
        ensures blamed { self.new.blamed ≡ self.old.blamed }
    {
        if let Some(size) = self.spared.take() {
            let _ = self.file.set_len(size);
        }
    }

    // Counts a fault where a call of std answered an error.
    fn counted<T>(&mut self, done: io::Result<T>) -> Result<T, Failed>
        ensures cause { HasCause self.old.faults self.new.faults result }
        ensures steady { OnOk result (self.new.faults ≡ self.old.faults) }
        ensures blamed { self.new.blamed ≡ self.old.blamed }
    {
        match done {
            Ok(value) => Ok(value),
            Err(_) => {
                self.faults = self.faults.saturating_add(1);
                Err(Failed)
            }
        }
    }
}

impl Disk for FileDisk {
    ghost reads = { λ _. None };

    ghost moment = { λ _. 0 };

    ghost left_at = { λ _ _ _. ⊥ };

    ghost room = { λ _. record { calls = 8; bytes = 2 ^ 64 } };

    ghost faults = { λ disk. disk.faults };

    ghost blamed = { λ disk. disk.blamed };

    ghost sound = { λ _. ⊥ };

    ghost reads_now = { λ _. tt };

    fn size(&mut self) -> Result<u64, Failed> {
        let found = self.file.metadata();
        Ok(self.counted(found)?.len())
    }

    fn read_at(&mut self, at: u64, target: &mut [u8]) -> Result<(), Failed> {
        let done = self.file.read_exact_at(target, at);
        self.counted(done)
    }

    fn write_at(&mut self, at: u64, piece: &[u8]) -> Result<(), Failed> {
        if at.checked_add(piece.len() as u64).is_none() {
            self.faults = self.faults.saturating_add(1);
            return Err(Failed);
        }
        self.spared = None;
        let done = self.file.write_all_at(piece, at);
        self.counted(done)
    }

    fn cut(&mut self, size: u64) -> Result<(), Failed> {
        self.was_cut = true;
        self.spared = None;
        let done = self.file.set_len(size);
        self.counted(done)
    }

    fn sync(&mut self) -> Result<(), Failed> {
        let done = if self.was_cut {
            self.file.sync_all()
        } else {
            self.file.sync_data()
        };
        self.counted(done)?;
        self.was_cut = false;
        Ok(())
    }

    fn reserve(&mut self, _bytes: u64) -> Result<(), NoMemory> {
        Ok(())
    }

    fn spare(&mut self, size: u64) {
        self.spared = Some(size);
    }

    fn blame(&mut self) {
        self.faults = self.faults.saturating_add(1);
        self.blamed = self.blamed.saturating_add(1);
    }
}
