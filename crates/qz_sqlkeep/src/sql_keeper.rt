//! The keeper.

ghost use Rattle.std.specs.Prelude.{◌≡◌, ◌≤◌, false, [], length, None, IsTrue, IfOk, IsErrOf};
ghost use Rattle.qz_disks.specs.declared.keeper.KeepErr.TheVariants.{Fault};
ghost use Rattle.qz_disks.specs.declared.keeper.TheConstants.{MOST_PAYLOAD};
ghost use Rattle.qz_disks.specs.Keepers.{EndsAppending, EndsReopening, HasKeepCause};
ghost use Rattle.qz_disks.specs.Sound.{StaysSound};
ghost use Rattle.sqlite.specs.Held.{state};
ghost use Rattle.sqlite.specs.State.{HasCleanDisk};
ghost use Rattle.sqlite.specs.Steps.{over_memory};
ghost use Rattle.qz_sqltables.specs.Rows.{places_of, waiting};
ghost use Rattle.qz_sqltables.specs.Schema.{payloads_in};
ghost use Rattle.qz_sqltables.specs.Statements.{EndsFinding};
ghost use Rattle.qz_sqlkeep.specs.Keeping.{kept_in, told_by, EndsReading, EndsStoring, Fills, Stands};

use crate::Base;
use crate::entries::append_payload;
use crate::fill::fill;
use crate::refusals::told;
use qz_disks::{KeepErr, Keeper};
use qz_grading::AttemptId;
use qz_sqltables::{make_tables, read_payloads, read_places, read_waiting};
use qz_text::{Bytes, Listed};
use sqlite::{Connection, Error, FileStore, MemStore};
use sqlite_disk::Disk;
use std::alloc::Global;
use std::marker::Model;

/// A list of payloads in the tables of a database.
///
/// Each refusal of SQLite but want of memory raises the count of faults. A database that a fault of its disk has shut
/// refuses every call from then on.
#[derive(Drop)]
pub struct SqlKeeper<S: Base> {
    conn: Connection<S>,
    doubt: Option<Bytes>,
    faults: u64,
}

impl<S: Base> Model for SqlKeeper<S> {
    ghost use Rattle.sqlite.specs.Held.{state};
    ghost use Rattle.qz_sqlkeep.specs.Keeping.{Keeping, keeping_code, IsAtRest};

    ghost Value = { Keeping S };

    ghost coded = { keeping_code S.code };

    ghost view = { λ k. record { conn = k.conn; doubt = k.doubt; faults = k.faults } };

    ghost invariant = { λ k. IsAtRest S.Base.tells (state S.Store k.conn) };
}

impl<S: Base> SqlKeeper<S> {
    /// The keeper of the list whose tables a database has.
    pub fn new(conn: Connection<S>) -> SqlKeeper<S>
        requires idle { conn.in_transaction ≡ false }
        requires tables { IsTrue S.Base.tells
            → Stands (payloads_in (state S.Store conn).now) (state S.Store conn).now }
        ensures { result ≡ record { conn = conn; doubt = None; faults = 0 } }
    {
        SqlKeeper {
            conn,
            doubt: None,
            faults: 0,
        }
    }

    /// How often SQLite has refused for another cause than want of memory.
    pub fn faults(&self) -> u64
        ensures { result ≡ self.now.faults }
    {
        self.faults
    }

    /// The keeper before its first fault.
    pub fn without_faults(self) -> SqlKeeper<S>
        ensures same { result ≡ record self { faults = 0 } }

        // Where the store tells what it holds, the tables are those of the list.
        ensures stands { IsTrue S.Base.tells → Stands
            (payloads_in (state S.Store result.conn).now) (state S.Store result.conn).now }
    {
        SqlKeeper {
            conn: self.conn,
            doubt: self.doubt,
            faults: 0,
        }
    }

    /// The attempts at a quiz that wait, in order of owner and number.
    ///
    /// After an error the list and the payload in doubt are as they were.
    pub fn waiting(&mut self, alloc: Global, quiz: u32) -> Result<Listed<AttemptId>, KeepErr>
        ensures list { EndsReading (waiting quiz)
            (kept_in S.Base.tells (state S.Store self.old.conn).now)
            (kept_in S.Base.tells (state S.Store self.new.conn).now)
            self.old.doubt self.new.doubt result }
        ensures cause { HasKeepCause self.old.faults self.new.faults result }

        // What it finds in a database in a file too.
        ensures tables { HasCleanDisk (state S.Store self.new.conn) → EndsFinding (waiting quiz)
            (state S.Store self.old.conn) (state S.Store self.new.conn) result }
        ensures clean { HasCleanDisk (state S.Store self.new.conn)
            → HasCleanDisk (state S.Store self.old.conn) }
    {
        match read_waiting(alloc, &mut self.conn, quiz) {
            Ok(found) => Ok(found),
            Err(error) => Err(told(&mut self.faults, error)),
        }
    }

    /// The places of an attempt's steps, in order.
    ///
    /// After an error the list and the payload in doubt are as they were.
    pub fn steps_of(&mut self, alloc: Global, attempt: AttemptId) -> Result<Listed<u64>, KeepErr>
        ensures list { EndsReading (places_of attempt)
            (kept_in S.Base.tells (state S.Store self.old.conn).now)
            (kept_in S.Base.tells (state S.Store self.new.conn).now)
            self.old.doubt self.new.doubt result }
        ensures cause { HasKeepCause self.old.faults self.new.faults result }

        // What it finds in a database in a file too.
        ensures tables { HasCleanDisk (state S.Store self.new.conn) → EndsFinding
            (places_of attempt)
            (state S.Store self.old.conn) (state S.Store self.new.conn) result }
        ensures clean { HasCleanDisk (state S.Store self.new.conn)
            → HasCleanDisk (state S.Store self.old.conn) }
    {
        match read_places(alloc, &mut self.conn, attempt) {
            Ok(found) => Ok(found),
            Err(error) => Err(told(&mut self.faults, error)),
        }
    }
}

impl<S: Base + Drop> SqlKeeper<S> {
    /// The keeper of the list in a database, with its payloads. The tables are made where there are none, and else are
    /// made anew from the payloads of `record`, in one transaction.
    ///
    /// A database with other tables, or with more than these, is refused. After an error the database is dropped.
    pub fn open(
        alloc: Global,
        mut conn: Connection<S>,
    ) -> Result<(SqlKeeper<S>, Listed<Bytes>), Error>
        requires { conn.in_transaction ≡ false }
        ensures fresh { IfOk result (λ r. (r.0.doubt ≡ None) × (r.0.faults ≡ 0)) }
        ensures list { IfOk result (λ r. kept_in S.Base.tells (state S.Store r.0.conn).now
            ≡ told_by S.Base.tells r.1) }
        ensures filled { IfOk result (λ r. HasCleanDisk (state S.Store r.0.conn)
            → Fills r.1 (state S.Store conn) (state S.Store r.0.conn)) }
    {
        let payloads = fill(alloc, &mut conn)?;
        Ok((SqlKeeper::new(conn), payloads))
    }
}

impl<D: Disk + Drop> SqlKeeper<FileStore<D>> {
    /// Closes the database, with its log copied into it, and gives the payload in doubt.
    ///
    /// A log that can't be copied stays beside the file, and is read at the next opening.
    pub fn close(self) -> Option<Bytes>
        ensures { result ≡ self.doubt }
    {
        let SqlKeeper { conn, doubt, .. } = self;
        let _ = conn.close();
        doubt
    }
}

impl SqlKeeper<MemStore> {
    /// A keeper of an empty list, in memory.
    pub fn in_memory(alloc: Global) -> Result<SqlKeeper<MemStore>, Error>
        ensures tables { IfOk result (λ k. Stands [] (state over_memory k.conn).now) }
        ensures fresh { IfOk result (λ k. (k.doubt ≡ None) × (k.faults ≡ 0)) }
    {
        let mut conn = Connection::open_in_memory(alloc)?;
        make_tables(&mut conn)?;
        Ok(SqlKeeper::new(conn))
    }
}

impl<S: Base> Keeper for SqlKeeper<S> {
    ghost kept = { λ k. kept_in S.Base.tells (state S.Store k.conn).now };

    ghost doubt = { λ k. k.doubt };

    ghost faults = { λ k. k.faults };

    // A statement may be refused.
    ghost sound = { λ _. ⊥ };

    fn append(&mut self, alloc: Global, payload: &[u8]) -> Result<(), KeepErr>
        requires settled { self.old.doubt ≡ None }
        requires size { length payload.now ≤ MOST_PAYLOAD }
        ensures list { EndsAppending (kept_in S.Base.tells (state S.Store self.old.conn).now)
            (kept_in S.Base.tells (state S.Store self.new.conn).now) self.new.doubt
            payload.now result }
        ensures cause { HasKeepCause self.old.faults self.new.faults result }
        ensures stays_sound { StaysSound ⊥ ⊥
            self.old.faults self.new.faults (IsErrOf result Fault) }

        // What it does to the tables, of a database in a file too.
        ensures tables { HasCleanDisk (state S.Store self.new.conn) → EndsStoring payload.now
            (state S.Store self.old.conn) (state S.Store self.new.conn) result }
    {
        let copy = Bytes::of(alloc, payload)?;
        match append_payload(alloc, &mut self.conn, payload) {
            Ok(()) => Ok(()),
            Err(error) => match told(&mut self.faults, error) {
                KeepErr::Memory => Err(KeepErr::Memory),
                KeepErr::Fault => {
                    self.doubt = Some(copy);
                    Err(KeepErr::Fault)
                }
            },
        }
    }

    fn reopen(&mut self, alloc: Global) -> Result<Listed<Bytes>, KeepErr>
        ensures list { EndsReopening (kept_in S.Base.tells (state S.Store self.old.conn).now)
            (kept_in S.Base.tells (state S.Store self.new.conn).now)
            self.old.doubt self.new.doubt result }
        ensures cause { HasKeepCause self.old.faults self.new.faults result }
        ensures stays_sound { StaysSound ⊥ ⊥
            self.old.faults self.new.faults (IsErrOf result Fault) }

        // What it finds in a database in a file too.
        ensures tables { HasCleanDisk (state S.Store self.new.conn) → EndsFinding
            (λ t. t.payloads) (state S.Store self.old.conn) (state S.Store self.new.conn) result }
    {
        match read_payloads(alloc, &mut self.conn) {
            Ok(found) => {
                self.doubt = None;
                Ok(found)
            }
            Err(error) => Err(told(&mut self.faults, error)),
        }
    }
}
