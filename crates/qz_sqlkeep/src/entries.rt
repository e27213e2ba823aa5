//! What a payload brings into the tables.

ghost use Rattle.std.specs.Prelude.{◌≡◌, ℕ, pos, false, Some, IsTrue, IfOk, OnOk};
ghost use Rattle.sqlite.specs.Held.{state};
ghost use Rattle.sqlite.specs.State.{HasCleanDisk, KeepsCommit, Survives};
ghost use Rattle.qz_sqltables.specs.Statements.{Turns};
ghost use Rattle.qz_sqlkeep.specs.Keeping.{EndsEntering, EndsStoring};
ghost use Rattle.qz_sqlkeep.specs.Tables.{
  Spells,
  status_of,
  with_entry,
  with_event,
  with_key,
  with_record,
};

use qz_record::{RecordFault, parse};
use qz_sqltables::{put_attempt, put_payload, put_reply, put_step, set_status};
use qz_terms::{Event, How, Record};
use sqlite::{Alter, Connection, Error, ErrorCode, Transaction};
use std::alloc::Global;

/// The record that a payload spells, if it spells one.
pub(crate) fn record_in(alloc: Global, payload: &[u8]) -> Result<Option<Record>, Error>
    ensures { IfOk result (Spells payload.now) }
{
    match parse(alloc, payload) {
        Ok(record) => Ok(Some(record)),
        Err(RecordFault::NotOne) => Ok(None),
        Err(RecordFault::Memory) => Err(Error::SqliteFailure(ErrorCode::OutOfMemory)),
    }
}

// The status of an attempt that ended so.
fn status_after(how: How) -> u32
    ensures { result ≡ status_of (Some how) }
{
    match how {
        How::Finished => 1,
        How::Abandoned => 2,
    }
}

// Puts what an event brings, at the place of its record.
fn put_event<S: Alter>(
    tx: &mut Transaction<'_, S>,
    place: i64,
    record: &Record,
) -> Result<usize, Error>
    ensures same_reference { tx.new.conn.ghost_name ≡ tx.old.conn.ghost_name }
    ensures turns { HasCleanDisk (state S.Store tx.new.conn.now)
        → IsTrue (state S.Store tx.old.conn.now).in_transaction
        → (n : ℕ) → place ≡ pos n → OnOk result (Turns
        (with_event «record».now n «record».now.event)
        (state S.Store tx.old.conn.now).now (state S.Store tx.new.conn.now).now) }
    ensures inside { HasCleanDisk (state S.Store tx.new.conn.now)
        → IsTrue (state S.Store tx.old.conn.now).in_transaction
        → OnOk result (IsTrue (state S.Store tx.new.conn.now).in_transaction) }
    ensures kept { HasCleanDisk (state S.Store tx.new.conn.now)
        → KeepsCommit (state S.Store tx.old.conn.now) (state S.Store tx.new.conn.now) }
    ensures survives { Survives (state S.Store tx.old.conn.now)
        (state S.Store tx.new.conn.now) (λ _. ⊥) }
{
    match &record.event {
        Event::Started { quiz, nth, .. } => put_attempt(tx, record.owner, *nth, *quiz),
        Event::Acted { attempt, slot, .. } => {
            put_step(tx, place, attempt.user, attempt.nth, u32::from(*slot))
        }
        Event::Ended { attempt, how } => {
            set_status(tx, attempt.user, attempt.nth, status_after(*how))
        }
        Event::Founded { .. }
        | Event::Asked { .. }
        | Event::Noted { .. }
        | Event::Rebound { .. }
        | Event::Skipped { .. }
        | Event::JobDone { .. } => Ok(0),
    }
}

// Puts the key of a request, if it had one, with the place of its record.
fn put_key<S: Alter>(
    tx: &mut Transaction<'_, S>,
    place: i64,
    record: &Record,
) -> Result<usize, Error>
    ensures same_reference { tx.new.conn.ghost_name ≡ tx.old.conn.ghost_name }
    ensures turns { HasCleanDisk (state S.Store tx.new.conn.now)
        → IsTrue (state S.Store tx.old.conn.now).in_transaction
        → (n : ℕ) → place ≡ pos n → OnOk result (Turns
        (with_key «record».now.caller n «record».now.key)
        (state S.Store tx.old.conn.now).now (state S.Store tx.new.conn.now).now) }
    ensures inside { HasCleanDisk (state S.Store tx.new.conn.now)
        → IsTrue (state S.Store tx.old.conn.now).in_transaction
        → OnOk result (IsTrue (state S.Store tx.new.conn.now).in_transaction) }
    ensures kept { HasCleanDisk (state S.Store tx.new.conn.now)
        → KeepsCommit (state S.Store tx.old.conn.now) (state S.Store tx.new.conn.now) }
    ensures survives { Survives (state S.Store tx.old.conn.now)
        (state S.Store tx.new.conn.now) (λ _. ⊥) }
{
    match &record.key {
        Some(word) => put_reply(tx, record.caller, word.as_str(), place),
        None => Ok(0),
    }
}

// Puts what a record brings, at its place.
fn put_record<S: Alter>(
    tx: &mut Transaction<'_, S>,
    place: i64,
    spelled: &Option<Record>,
) -> Result<usize, Error>
    ensures same_reference { tx.new.conn.ghost_name ≡ tx.old.conn.ghost_name }
    ensures turns { HasCleanDisk (state S.Store tx.new.conn.now)
        → IsTrue (state S.Store tx.old.conn.now).in_transaction
        → (n : ℕ) → place ≡ pos n → OnOk result (Turns
        (with_record n spelled.now)
        (state S.Store tx.old.conn.now).now (state S.Store tx.new.conn.now).now) }
    ensures inside { HasCleanDisk (state S.Store tx.new.conn.now)
        → IsTrue (state S.Store tx.old.conn.now).in_transaction
        → OnOk result (IsTrue (state S.Store tx.new.conn.now).in_transaction) }
    ensures kept { HasCleanDisk (state S.Store tx.new.conn.now)
        → KeepsCommit (state S.Store tx.old.conn.now) (state S.Store tx.new.conn.now) }
    ensures survives { Survives (state S.Store tx.old.conn.now)
        (state S.Store tx.new.conn.now) (λ _. ⊥) }
{
    match spelled {
        Some(record) => {
            put_event(tx, place, record)?;
            put_key(tx, place, record)
        }
        None => Ok(0),
    }
}

/// Puts a payload and what it spells: at most three statements.
pub(crate) fn put_entry<S: Alter>(
    tx: &mut Transaction<'_, S>,
    payload: &[u8],
    spelled: &Option<Record>,
) -> Result<usize, Error>
    ensures same_reference { tx.new.conn.ghost_name ≡ tx.old.conn.ghost_name }
    ensures turns { HasCleanDisk (state S.Store tx.new.conn.now)
        → IsTrue (state S.Store tx.old.conn.now).in_transaction
        → OnOk result (Turns (with_entry payload.now spelled.now)
        (state S.Store tx.old.conn.now).now (state S.Store tx.new.conn.now).now) }
    ensures inside { HasCleanDisk (state S.Store tx.new.conn.now)
        → IsTrue (state S.Store tx.old.conn.now).in_transaction
        → OnOk result (IsTrue (state S.Store tx.new.conn.now).in_transaction) }
    ensures kept { HasCleanDisk (state S.Store tx.new.conn.now)
        → KeepsCommit (state S.Store tx.old.conn.now) (state S.Store tx.new.conn.now) }
    ensures survives { Survives (state S.Store tx.old.conn.now)
        (state S.Store tx.new.conn.now) (λ _. ⊥) }
{
    let place = put_payload(tx, payload)?;
    put_record(tx, place, spelled)
}

// Keeps one more payload with what it spells, in a transaction of its own.
fn append_entry<S: Alter>(
    conn: &mut Connection<S>,
    payload: &[u8],
    spelled: &Option<Record>,
) -> Result<(), Error>
    requires { conn.old.in_transaction ≡ false }
    ensures idle { conn.new.in_transaction ≡ false }
    ensures entered { HasCleanDisk (state S.Store conn.new) → EndsEntering payload.now spelled.now
        (state S.Store conn.old) (state S.Store conn.new) result }
{
    // It is idle, so what it shows is committed.
    let _idle = conn.is_autocommit();
    let mut tx = conn.transaction();
    put_entry(&mut tx, payload, spelled)?;
    tx.commit()
}

/// Keeps one more payload, with what the record that it spells brings.
pub(crate) fn append_payload<S: Alter>(
    alloc: Global,
    conn: &mut Connection<S>,
    payload: &[u8],
) -> Result<(), Error>
    requires { conn.old.in_transaction ≡ false }
    ensures idle { conn.new.in_transaction ≡ false }
    ensures stored { HasCleanDisk (state S.Store conn.new) → EndsStoring payload.now
        (state S.Store conn.old) (state S.Store conn.new) result }
{
    // It is parsed before the transaction begins.
    let spelled = record_in(alloc, payload)?;
    append_entry(conn, payload, &spelled)
}
