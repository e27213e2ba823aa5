//! The tables.

ghost use Rattle.std.specs.Prelude.{◌≡◌, [], false, IsTrue, OnOk};
ghost use Rattle.sqlite.specs.Held.{state};
ghost use Rattle.sqlite.specs.State.{HasCleanDisk, KeepsCommit, Survives};
ghost use Rattle.sqlite_trees.specs.Tree.{Trees};
ghost use Rattle.qz_sqltables.specs.Rows.{no_tables};
ghost use Rattle.qz_sqltables.specs.Schema.{
  HasTables,
  keeper_schema,
  no_schema,
  with_attempts,
  with_records,
  with_steps,
};
ghost use Rattle.qz_sqltables.specs.Statements.{HasRows, Makes};

use sqlite::{Alter, Connection, Error, Transaction};

fn make_records<S: Alter>(tx: &mut Transaction<'_, S>) -> Result<usize, Error>
    ensures same_reference { tx.new.conn.ghost_name ≡ tx.old.conn.ghost_name }
    ensures made { HasCleanDisk (state S.Store tx.new.conn.now)
        → IsTrue (state S.Store tx.old.conn.now).in_transaction
        → OnOk result (Makes no_schema with_records 0
        (state S.Store tx.old.conn.now).now (state S.Store tx.new.conn.now).now) }
    ensures inside { HasCleanDisk (state S.Store tx.new.conn.now)
        → IsTrue (state S.Store tx.old.conn.now).in_transaction
        → OnOk result (IsTrue (state S.Store tx.new.conn.now).in_transaction) }
    ensures kept { HasCleanDisk (state S.Store tx.new.conn.now)
        → KeepsCommit (state S.Store tx.old.conn.now) (state S.Store tx.new.conn.now) }
    ensures survives { Survives (state S.Store tx.old.conn.now)
        (state S.Store tx.new.conn.now) (λ _. ⊥) }
{
    tx.execute(
        "CREATE TABLE record (place INTEGER PRIMARY KEY, payload BLOB NOT NULL)",
        &[],
    )
}

fn make_attempts<S: Alter>(tx: &mut Transaction<'_, S>) -> Result<usize, Error>
    ensures same_reference { tx.new.conn.ghost_name ≡ tx.old.conn.ghost_name }
    ensures made { HasCleanDisk (state S.Store tx.new.conn.now)
        → IsTrue (state S.Store tx.old.conn.now).in_transaction
        → OnOk result (Makes with_records with_attempts 1
        (state S.Store tx.old.conn.now).now (state S.Store tx.new.conn.now).now) }
    ensures inside { HasCleanDisk (state S.Store tx.new.conn.now)
        → IsTrue (state S.Store tx.old.conn.now).in_transaction
        → OnOk result (IsTrue (state S.Store tx.new.conn.now).in_transaction) }
    ensures kept { HasCleanDisk (state S.Store tx.new.conn.now)
        → KeepsCommit (state S.Store tx.old.conn.now) (state S.Store tx.new.conn.now) }
    ensures survives { Survives (state S.Store tx.old.conn.now)
        (state S.Store tx.new.conn.now) (λ _. ⊥) }
{
    tx.execute(
        "CREATE TABLE attempt (owner INTEGER NOT NULL, nth INTEGER NOT NULL, \
         quiz INTEGER NOT NULL, status INTEGER NOT NULL, PRIMARY KEY (owner, nth))",
        &[],
    )
}

fn make_steps<S: Alter>(tx: &mut Transaction<'_, S>) -> Result<usize, Error>
    ensures same_reference { tx.new.conn.ghost_name ≡ tx.old.conn.ghost_name }
    ensures made { HasCleanDisk (state S.Store tx.new.conn.now)
        → IsTrue (state S.Store tx.old.conn.now).in_transaction
        → OnOk result (Makes with_attempts with_steps 3
        (state S.Store tx.old.conn.now).now (state S.Store tx.new.conn.now).now) }
    ensures inside { HasCleanDisk (state S.Store tx.new.conn.now)
        → IsTrue (state S.Store tx.old.conn.now).in_transaction
        → OnOk result (IsTrue (state S.Store tx.new.conn.now).in_transaction) }
    ensures kept { HasCleanDisk (state S.Store tx.new.conn.now)
        → KeepsCommit (state S.Store tx.old.conn.now) (state S.Store tx.new.conn.now) }
    ensures survives { Survives (state S.Store tx.old.conn.now)
        (state S.Store tx.new.conn.now) (λ _. ⊥) }
{
    tx.execute(
        "CREATE TABLE step (place INTEGER PRIMARY KEY, owner INTEGER NOT NULL, \
         nth INTEGER NOT NULL, slot INTEGER NOT NULL, \
         FOREIGN KEY (owner, nth) REFERENCES attempt (owner, nth))",
        &[],
    )
}

fn make_replies<S: Alter>(tx: &mut Transaction<'_, S>) -> Result<usize, Error>
    ensures same_reference { tx.new.conn.ghost_name ≡ tx.old.conn.ghost_name }
    ensures made { HasCleanDisk (state S.Store tx.new.conn.now)
        → IsTrue (state S.Store tx.old.conn.now).in_transaction
        → OnOk result (Makes with_steps keeper_schema 4
        (state S.Store tx.old.conn.now).now (state S.Store tx.new.conn.now).now) }
    ensures inside { HasCleanDisk (state S.Store tx.new.conn.now)
        → IsTrue (state S.Store tx.old.conn.now).in_transaction
        → OnOk result (IsTrue (state S.Store tx.new.conn.now).in_transaction) }
    ensures kept { HasCleanDisk (state S.Store tx.new.conn.now)
        → KeepsCommit (state S.Store tx.old.conn.now) (state S.Store tx.new.conn.now) }
    ensures survives { Survives (state S.Store tx.old.conn.now)
        (state S.Store tx.new.conn.now) (λ _. ⊥) }
{
    tx.execute(
        "CREATE TABLE reply (caller INTEGER NOT NULL, word TEXT NOT NULL, \
         place INTEGER NOT NULL, PRIMARY KEY (caller, word))",
        &[],
    )
}

// Makes the tables beside `record`.
fn make_others<S: Alter>(tx: &mut Transaction<'_, S>) -> Result<usize, Error>
    ensures same_reference { tx.new.conn.ghost_name ≡ tx.old.conn.ghost_name }
    ensures made { HasCleanDisk (state S.Store tx.new.conn.now)
        → IsTrue (state S.Store tx.old.conn.now).in_transaction
        → OnOk result ((rows : Trees) → rows 1 ≡ [] → rows 3 ≡ [] → rows 4 ≡ []
        → HasRows with_records rows (state S.Store tx.old.conn.now).now
        → HasRows keeper_schema rows (state S.Store tx.new.conn.now).now) }
    ensures inside { HasCleanDisk (state S.Store tx.new.conn.now)
        → IsTrue (state S.Store tx.old.conn.now).in_transaction
        → OnOk result (IsTrue (state S.Store tx.new.conn.now).in_transaction) }
    ensures kept { HasCleanDisk (state S.Store tx.new.conn.now)
        → KeepsCommit (state S.Store tx.old.conn.now) (state S.Store tx.new.conn.now) }
    ensures survives { Survives (state S.Store tx.old.conn.now)
        (state S.Store tx.new.conn.now) (λ _. ⊥) }
{
    make_attempts(tx)?;
    make_steps(tx)?;
    make_replies(tx)
}

// Makes all tables.
pub(crate) fn make_all<S: Alter>(tx: &mut Transaction<'_, S>) -> Result<usize, Error>
    ensures same_reference { tx.new.conn.ghost_name ≡ tx.old.conn.ghost_name }
    ensures made { HasCleanDisk (state S.Store tx.new.conn.now)
        → IsTrue (state S.Store tx.old.conn.now).in_transaction
        → OnOk result ((state S.Store tx.old.conn.now).now.schema ≡ no_schema
        → HasTables no_tables (state S.Store tx.new.conn.now).now) }
    ensures inside { HasCleanDisk (state S.Store tx.new.conn.now)
        → IsTrue (state S.Store tx.old.conn.now).in_transaction
        → OnOk result (IsTrue (state S.Store tx.new.conn.now).in_transaction) }
    ensures kept { HasCleanDisk (state S.Store tx.new.conn.now)
        → KeepsCommit (state S.Store tx.old.conn.now) (state S.Store tx.new.conn.now) }
    ensures survives { Survives (state S.Store tx.old.conn.now)
        (state S.Store tx.new.conn.now) (λ _. ⊥) }
{
    make_records(tx)?;
    make_others(tx)
}

/// Makes the tables of an empty list in a database that has none, in one transaction.
pub fn make_tables<S: Alter>(conn: &mut Connection<S>) -> Result<(), Error>
    requires { conn.old.in_transaction ≡ false }
    ensures idle { conn.new.in_transaction ≡ false }
    ensures made { HasCleanDisk (state S.Store conn.new)
        → (state S.Store conn.old).now.schema ≡ no_schema
        → OnOk result (HasTables no_tables (state S.Store conn.new).now) }
{
    let mut tx = conn.transaction();
    make_all(&mut tx)?;
    tx.commit()
}
