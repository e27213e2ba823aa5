//! A shelf of files.

ghost use Rattle.std.specs.Prelude.{◌≡◌, ℕ, true, false, is_some, IfSome, IfOk, IsErrOf};
ghost use Rattle.qz_disks.specs.declared.shelf.ShelfErr.TheVariants.{Failed, Memory};

use crate::Disk;
use std::alloc::{AllocError, Global};

/// Why a shelf didn't hand out a file.
#[derive(Clone, Copy, Debug, PartialEq, Eq)]
pub enum ShelfErr {
    /// The shelf failed: its count of faults rose in the call.
    Failed,
    /// Memory was wanting. Nothing changed.
    Memory,
}

impl From<qz_outside::Failed> for ShelfErr {
    ghost from_gives = { λ _ e. e ≡ Failed };

    fn from(_: qz_outside::Failed) -> Self {
        ShelfErr::Failed
    }
}

impl From<qz_text::NoMemory> for ShelfErr {
    ghost from_gives = { λ _ e. e ≡ Memory };

    fn from(_: qz_text::NoMemory) -> Self {
        ShelfErr::Memory
    }
}

impl From<AllocError> for ShelfErr {
    ghost from_gives = { λ _ e. e ≡ Memory };

    fn from(_: AllocError) -> Self {
        ShelfErr::Memory
    }
}

/// Files by folder and name, each of which is handed out to one owner at a time and is given back. A missing file is
/// an empty disk.
///
/// What becomes of a file while it is out is told by its disk. So the files that a crash may leave are at each moment
/// what the shelf tells of those that stand there, and the disks of those that are out.
pub trait Shelf {
    ghost use Rattle.qz_disks.specs.Shelves.{Place, Files, place, disk_file, EndsHandingOut, TakesBack, RisesBy, HasShelfCause};
    ghost use Rattle.qz_disks.specs.Sound.{StaysSound};

    /// What is handed out.
    type Disk: Disk + Send;

    /// The files. Which are out is always told; what a read gives and what a crash now may leave is told of those that
    /// aren't, where the shelf tells it.
    ghost files: { Self → Files };

    /// How often it has failed, and the disks given back: a count that never falls.
    ghost faults: { Self → ℕ };

    /// It fails no call, and no disk that it hands out fails one.
    ghost sound: { Self → Type 0 };

    /// Hands a file out, with a count of faults of 0. After an error each file is as it was.
    fn disk(&mut self, alloc: Global, folder: &[u8], name: &[u8]) -> Result<Self::Disk, ShelfErr>
        requires { (files self.old).is_out (place folder.now name.now) ≡ false }
        ensures files { EndsHandingOut (place folder.now name.now) (files self.old) (files self.new)
            (λ disk. disk_file (Self.Disk.reads disk) (Self.Disk.moment disk) (Self.Disk.left_at disk))
            result }
        ensures fresh { IfOk result (λ disk. Self.Disk.faults disk ≡ 0) }
        ensures cause { HasShelfCause (faults self.old) (faults self.new) result }
        ensures sound { IfOk result (λ disk. sound self.old → Self.Disk.sound disk) }
        ensures stays_sound { StaysSound (sound self.old) (sound self.new)
            (faults self.old) (faults self.new) (IsErrOf result Failed) };

    /// Takes a disk back, which is the file from then on. The shelf's count of faults rises by the disk's.
    fn back(&mut self, folder: &[u8], name: &[u8], disk: Self::Disk)
        requires { (files self.old).is_out (place folder.now name.now) ≡ true }
        ensures files { TakesBack (place folder.now name.now) (files self.old) (files self.new)
            (disk_file (Self.Disk.reads disk) (Self.Disk.moment disk) (Self.Disk.left_at disk)) }
        ensures faults { RisesBy (Self.Disk.faults disk) (faults self.old) (faults self.new) }
        ensures stays_sound { Self.Disk.sound disk → Self.Disk.faults disk ≡ 0
            → StaysSound (sound self.old) (sound self.new) (faults self.old) (faults self.new) ⊥ };

    /// Shelves of a kind tell of the same files what is read of them, while these aren't out.
    ghost tells_alike: { (one other : Self) (at : Place) → (files one).is_out at ≡ false
        → (files other).is_out at ≡ false
        → is_some ((files one).file at).reads ≡ is_some ((files other).file at).reads };

    /// A file that isn't out may be left as it reads.
    ghost reads_now: { (shelf : Self) (at : Place) → (files shelf).is_out at ≡ false
        → IfSome ((files shelf).file at).reads ((files shelf).file at).left };
}
