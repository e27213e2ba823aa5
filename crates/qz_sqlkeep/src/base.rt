//! A store that the tables stand in.

ghost use Rattle.std.specs.Prelude.{Bool, true, false, IsTrue};
ghost use Rattle.qz_sqlkeep.specs.Told.{IsTold, told_in_memory, never_told};

use sqlite::{Alter, FileStore, MemStore};
use sqlite_disk::Disk;

/// A store that the tables of a keeper stand in.
pub trait Base: Alter {
    /// Whether it tells what it holds at each moment: nobody else writes it, and nothing shuts it.
    ghost tells: { Bool };

    ghost honest: { (s : Self) → IsTrue tells → IsTold (Self.Store.view s) };
}

impl Base for MemStore {
    ghost tells = { true };

    ghost honest = { λ s _. told_in_memory s };
}

/// What a file holds is told under a premise alone: that nobody else writes it, and that the disk returns what was written.
impl<D: Disk> Base for FileStore<D> {
    ghost tells = { false };

    ghost honest = { λ _ none. never_told none };
}
