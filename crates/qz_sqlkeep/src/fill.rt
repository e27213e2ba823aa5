//! Tables that are made anew from the payloads of `record`.

ghost use Rattle.std.specs.Prelude.{◌≡◌, ◌≤◌, [], false, IsTrue, IfOk, OnOk, MatchResult};
ghost use Rattle.sqlite.specs.Held.{state};
ghost use Rattle.sqlite.specs.State.{HasCleanDisk, KeepsCommit, Survives};
ghost use Rattle.sqlite_trees.specs.View.{doubt};
ghost use Rattle.qz_sqltables.specs.Statements.{StaysAsItWas};
ghost use Rattle.qz_sqlkeep.specs.Keeping.{Fills, Grows, Remakes, Stands};

use crate::entries::{put_entry, record_in};
use qz_sqltables::{is_blank, is_keepers, make_tables, read_payloads, remake_tables};
use qz_text::{Bytes, Listed};
use sqlite::{Alter, Connection, Error, ErrorCode, Transaction};
use std::alloc::Global;

// A database with other tables than a keeper's.
const FOREIGN: Error = Error::SqliteFailure(ErrorCode::NotADatabase);

// Puts a payload behind the others, with what it spells.
fn put_next<S: Alter>(
    alloc: Global,
    tx: &mut Transaction<'_, S>,
    payload: &[u8],
) -> Result<(), Error>
    ensures same_reference { tx.new.conn.ghost_name ≡ tx.old.conn.ghost_name }
    ensures grows { HasCleanDisk (state S.Store tx.new.conn.now)
        → IsTrue (state S.Store tx.old.conn.now).in_transaction
        → OnOk result (Grows payload.now
        (state S.Store tx.old.conn.now).now (state S.Store tx.new.conn.now).now) }
    ensures inside { HasCleanDisk (state S.Store tx.new.conn.now)
        → IsTrue (state S.Store tx.old.conn.now).in_transaction
        → OnOk result (IsTrue (state S.Store tx.new.conn.now).in_transaction) }
    ensures kept { HasCleanDisk (state S.Store tx.new.conn.now)
        → KeepsCommit (state S.Store tx.old.conn.now) (state S.Store tx.new.conn.now) }
    ensures survives { Survives (state S.Store tx.old.conn.now)
        (state S.Store tx.new.conn.now) (λ _. ⊥) }
{
    let spelled = record_in(alloc, payload)?;
    put_entry(tx, payload, &spelled)?;
    Ok(())
}

// Puts payloads into tables that have none.
fn put_all<S: Alter>(
    alloc: Global,
    tx: &mut Transaction<'_, S>,
    payloads: &[Bytes],
) -> Result<(), Error>
    ensures same_reference { tx.new.conn.ghost_name ≡ tx.old.conn.ghost_name }
    ensures put { HasCleanDisk (state S.Store tx.new.conn.now)
        → IsTrue (state S.Store tx.old.conn.now).in_transaction
        → OnOk result (Stands [] (state S.Store tx.old.conn.now).now
        → Stands payloads.now (state S.Store tx.new.conn.now).now) }
    ensures inside { HasCleanDisk (state S.Store tx.new.conn.now)
        → IsTrue (state S.Store tx.old.conn.now).in_transaction
        → OnOk result (IsTrue (state S.Store tx.new.conn.now).in_transaction) }
    ensures kept { HasCleanDisk (state S.Store tx.new.conn.now)
        → KeepsCommit (state S.Store tx.old.conn.now) (state S.Store tx.new.conn.now) }
    ensures survives { Survives (state S.Store tx.old.conn.now)
        (state S.Store tx.new.conn.now) (λ _. ⊥) }
{
    for payload in payloads {
        put_next(alloc, tx, payload.as_slice())?;
    }
    Ok(())
}

// Makes the tables anew from these payloads, in one transaction.
fn remake<S: Alter>(
    alloc: Global,
    conn: &mut Connection<S>,
    payloads: &[Bytes],
) -> Result<(), Error>
    requires { conn.old.in_transaction ≡ false }
    ensures idle { conn.new.in_transaction ≡ false }
    ensures remade { HasCleanDisk (state S.Store conn.new) → MatchResult result
        (λ _. Remakes payloads.now (state S.Store conn.old) (state S.Store conn.new))
        (λ _. StaysAsItWas (state S.Store conn.old) (state S.Store conn.new)) }
    ensures clean { OnOk result (doubt (state S.Store conn.old).is_clean
        ≤ doubt (state S.Store conn.new).is_clean) }
{
    // It is idle, so what it shows is committed.
    let _idle = conn.is_autocommit();
    let mut tx = conn.transaction();
    remake_tables(&mut tx)?;
    put_all(alloc, &mut tx, payloads)?;
    tx.commit()
}

/// Makes the tables where there are none, and else makes them anew from the payloads of `record`, which it gives.
///
/// A database with other tables, or with more than these, is refused.
pub(crate) fn fill<S: Alter>(
    alloc: Global,
    conn: &mut Connection<S>,
) -> Result<Listed<Bytes>, Error>
    requires { conn.old.in_transaction ≡ false }
    ensures idle { conn.new.in_transaction ≡ false }
    ensures filled { HasCleanDisk (state S.Store conn.new) → IfOk result
        (λ found. Fills found (state S.Store conn.old) (state S.Store conn.new)) }
{
    if is_blank(conn.schema()) {
        make_tables(conn)?;
        return Ok(Listed::empty(alloc));
    }
    let payloads = read_payloads(alloc, conn)?;
    if is_keepers(conn.schema()) {
        remake(alloc, conn, payloads.as_slice())?;
        Ok(payloads)
    } else {
        Err(FOREIGN)
    }
}
