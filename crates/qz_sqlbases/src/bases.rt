//! Databases by folder and name.

ghost use Rattle.std.specs.Prelude.{◌≡◌, ℕ, true, false, IfOk, OnOk};

use qz_disks::ShelfErr;
use qz_sqlkeep::{Base, SqlKeeper};
use qz_text::{Bytes, Listed};
use std::alloc::Global;

/// Databases by folder and name, each of which is handed out to one keeper at a time and is given back. A missing
/// database is made, and holds an empty list.
pub trait Bases {
    ghost use Rattle.sqlite.specs.Held.{state};
    ghost use Rattle.sqlite.specs.State.{HasCleanDisk};
    ghost use Rattle.qz_disks.specs.Shelves.{place, HasShelfCause, RisesBy};
    ghost use Rattle.qz_sqlkeep.specs.Keeping.{kept_in, Stands};
    ghost use Rattle.qz_sqlbases.specs.Databases.{Lists, standing_as, EndsHandingOut, TakesBack};

    /// What the databases stand in.
    type Store: Base;

    /// The lists of the databases. Which are out is always told; the payloads of each that isn't, where the store
    /// tells what it holds.
    ghost lists: { Self → Lists };

    /// How often they have failed, and the keepers given back: a count that never falls.
    ghost faults: { Self → ℕ };

    /// Hands a database out as a keeper without a payload in doubt, with a count of faults of 0, and tells its
    /// payloads. After an error each database is as it was.
    fn keeper(
        &mut self,
        alloc: Global,
        folder: &[u8],
        name: &[u8],
    ) -> Result<(SqlKeeper<Self::Store>, Listed<Bytes>), ShelfErr>
        requires { (lists self.old).is_out (place folder.now name.now) ≡ false }
        ensures lists { EndsHandingOut (place folder.now name.now) (lists self.old) (lists self.new)
            Self.Store.Base.tells
            (λ r. kept_in Self.Store.Base.tells (state Self.Store.Store r.0.conn).now)
            (λ r. r.0.doubt) (λ r. r.1) result }
        ensures fresh { IfOk result (λ r. r.0.faults ≡ 0) }
        ensures cause { HasShelfCause (faults self.old) (faults self.new) result }
        ensures steady { OnOk result (faults self.new ≡ faults self.old) }

        // The tables are those of the payloads, whatever stood in them. A store that tells what it
        // holds is clean; a file is, while the disk returns what was written and nobody else writes.
        ensures tables { IfOk result (λ r. HasCleanDisk (state Self.Store.Store r.0.conn)
            → Stands r.1 (state Self.Store.Store r.0.conn).now) };

    /// Takes a keeper back, whose database stands under this name from then on. The count of faults rises by the
    /// keeper's.
    fn take_back<K: Returned<Self::Store>>(&mut self, folder: &[u8], name: &[u8], returned: K)
        requires { (lists self.old).is_out (place folder.now name.now) ≡ true }
        ensures lists { TakesBack (place folder.now name.now) (lists self.old) (lists self.new)
            (standing_as (kept_in Self.Store.Base.tells
            (state Self.Store.Store (K.held returned).conn).now) (K.held returned).doubt) }
        ensures faults { RisesBy (K.held returned).faults (faults self.old) (faults self.new) };

    /// The same for the keeper itself.
    final fn back(&mut self, folder: &[u8], name: &[u8], keeper: SqlKeeper<Self::Store>)
        requires { (lists self.old).is_out (place folder.now name.now) ≡ true }
        ensures lists { TakesBack (place folder.now name.now) (lists self.old) (lists self.new)
            (standing_as (kept_in Self.Store.Base.tells (state Self.Store.Store keeper.conn).now)
            keeper.doubt) }
        ensures faults { RisesBy keeper.faults (faults self.old) (faults self.new) }
    {
        self.take_back(folder, name, keeper)
    }
}

/// What a keeper over a store is given back as. `Bases::take_back` takes it, since the proof of an `impl` of `Bases`
/// has no form for a method that takes a `SqlKeeper` of the associated store.
pub trait Returned<S: Base> {
    ghost use Rattle.qz_sqlkeep.specs.Keeping.{Keeping};

    /// The keeper.
    ghost held: { Self → Keeping S };

    /// Gives the keeper.
    fn into_keeper(self) -> SqlKeeper<S>
        ensures { result ≡ held self };
}

impl<S: Base> Returned<S> for SqlKeeper<S> {
    ghost held = { λ keeper. keeper };

    fn into_keeper(self) -> SqlKeeper<S>
        ensures { result ≡ self }
    {
        self
    }
}
