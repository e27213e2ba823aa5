//! What is written to the tables: a statement a function, in a transaction that the caller ends.

ghost use Rattle.std.specs.Prelude.{◌≡◌, ℕ, pos, IsTrue, IfOk, OnOk};
ghost use Rattle.sqlite.specs.Held.{state};
ghost use Rattle.sqlite.specs.State.{HasCleanDisk, KeepsCommit, Survives};
ghost use Rattle.qz_sqltables.specs.Rows.{with_attempt, with_reply, with_status, with_step};
ghost use Rattle.qz_sqltables.specs.Statements.{PutsPayload, Turns};

use sqlite::{Alter, Error, Transaction, params};

/// Puts a payload behind those of `record`, and gives its place.
pub fn put_payload<S: Alter>(tx: &mut Transaction<'_, S>, payload: &[u8]) -> Result<i64, Error>
    ensures same_reference { tx.new.conn.ghost_name ≡ tx.old.conn.ghost_name }
    ensures put { HasCleanDisk (state S.Store tx.new.conn.now)
        → IsTrue (state S.Store tx.old.conn.now).in_transaction
        → IfOk result (λ place. PutsPayload payload.now place
        (state S.Store tx.old.conn.now) (state S.Store tx.new.conn.now)) }
    ensures inside { HasCleanDisk (state S.Store tx.new.conn.now)
        → IsTrue (state S.Store tx.old.conn.now).in_transaction
        → OnOk result (IsTrue (state S.Store tx.new.conn.now).in_transaction) }
    ensures kept { HasCleanDisk (state S.Store tx.new.conn.now)
        → KeepsCommit (state S.Store tx.old.conn.now) (state S.Store tx.new.conn.now) }
    ensures survives { Survives (state S.Store tx.old.conn.now)
        (state S.Store tx.new.conn.now) (λ _. ⊥) }
{
    tx.execute("INSERT INTO record (payload) VALUES (?1)", params![payload])?;
    Ok(tx.last_insert_rowid())
}

/// Puts an attempt that waits behind those of `attempt`.
pub fn put_attempt<S: Alter>(
    tx: &mut Transaction<'_, S>,
    owner: u32,
    nth: u32,
    quiz: u32,
) -> Result<usize, Error>
    ensures same_reference { tx.new.conn.ghost_name ≡ tx.old.conn.ghost_name }
    ensures turns { HasCleanDisk (state S.Store tx.new.conn.now)
        → IsTrue (state S.Store tx.old.conn.now).in_transaction
        → OnOk result (Turns (with_attempt
        (record { owner = owner; nth = nth; quiz = quiz; status = 0 }))
        (state S.Store tx.old.conn.now).now (state S.Store tx.new.conn.now).now) }
    ensures inside { HasCleanDisk (state S.Store tx.new.conn.now)
        → IsTrue (state S.Store tx.old.conn.now).in_transaction
        → OnOk result (IsTrue (state S.Store tx.new.conn.now).in_transaction) }
    ensures kept { HasCleanDisk (state S.Store tx.new.conn.now)
        → KeepsCommit (state S.Store tx.old.conn.now) (state S.Store tx.new.conn.now) }
    ensures survives { Survives (state S.Store tx.old.conn.now)
        (state S.Store tx.new.conn.now) (λ _. ⊥) }
{
    tx.execute(
        "INSERT INTO attempt (owner, nth, quiz, status) VALUES (?1, ?2, ?3, 0)",
        params![owner, nth, quiz],
    )
}

/// Sets the status of an attempt, if it has a row.
pub fn set_status<S: Alter>(
    tx: &mut Transaction<'_, S>,
    owner: u32,
    nth: u32,
    status: u32,
) -> Result<usize, Error>
    ensures same_reference { tx.new.conn.ghost_name ≡ tx.old.conn.ghost_name }
    ensures turns { HasCleanDisk (state S.Store tx.new.conn.now)
        → IsTrue (state S.Store tx.old.conn.now).in_transaction
        → OnOk result (Turns (with_status owner nth status)
        (state S.Store tx.old.conn.now).now (state S.Store tx.new.conn.now).now) }
    ensures inside { HasCleanDisk (state S.Store tx.new.conn.now)
        → IsTrue (state S.Store tx.old.conn.now).in_transaction
        → OnOk result (IsTrue (state S.Store tx.new.conn.now).in_transaction) }
    ensures kept { HasCleanDisk (state S.Store tx.new.conn.now)
        → KeepsCommit (state S.Store tx.old.conn.now) (state S.Store tx.new.conn.now) }
    ensures survives { Survives (state S.Store tx.old.conn.now)
        (state S.Store tx.new.conn.now) (λ _. ⊥) }
{
    tx.execute(
        "UPDATE attempt SET status = ?1 WHERE owner = ?2 AND nth = ?3",
        params![status, owner, nth],
    )
}

/// Puts a step into `step`, at the place of its record.
pub fn put_step<S: Alter>(
    tx: &mut Transaction<'_, S>,
    place: i64,
    owner: u32,
    nth: u32,
    slot: u32,
) -> Result<usize, Error>
    ensures same_reference { tx.new.conn.ghost_name ≡ tx.old.conn.ghost_name }
    ensures turns { HasCleanDisk (state S.Store tx.new.conn.now)
        → IsTrue (state S.Store tx.old.conn.now).in_transaction
        → (n : ℕ) → place ≡ pos n → OnOk result (Turns (with_step
        (record { place = n; owner = owner; nth = nth; slot = slot }))
        (state S.Store tx.old.conn.now).now (state S.Store tx.new.conn.now).now) }
    ensures inside { HasCleanDisk (state S.Store tx.new.conn.now)
        → IsTrue (state S.Store tx.old.conn.now).in_transaction
        → OnOk result (IsTrue (state S.Store tx.new.conn.now).in_transaction) }
    ensures kept { HasCleanDisk (state S.Store tx.new.conn.now)
        → KeepsCommit (state S.Store tx.old.conn.now) (state S.Store tx.new.conn.now) }
    ensures survives { Survives (state S.Store tx.old.conn.now)
        (state S.Store tx.new.conn.now) (λ _. ⊥) }
{
    tx.execute(
        "INSERT INTO step (place, owner, nth, slot) VALUES (?1, ?2, ?3, ?4)",
        params![place, owner, nth, slot],
    )
}

/// Puts the key of a caller's request behind those of `reply`, with the place of its record.
pub fn put_reply<S: Alter>(
    tx: &mut Transaction<'_, S>,
    caller: u32,
    word: &str,
    place: i64,
) -> Result<usize, Error>
    ensures same_reference { tx.new.conn.ghost_name ≡ tx.old.conn.ghost_name }
    ensures turns { HasCleanDisk (state S.Store tx.new.conn.now)
        → IsTrue (state S.Store tx.old.conn.now).in_transaction
        → (n : ℕ) → place ≡ pos n → OnOk result (Turns (with_reply
        (record { caller = caller; word = word.now; place = n }))
        (state S.Store tx.old.conn.now).now (state S.Store tx.new.conn.now).now) }
    ensures inside { HasCleanDisk (state S.Store tx.new.conn.now)
        → IsTrue (state S.Store tx.old.conn.now).in_transaction
        → OnOk result (IsTrue (state S.Store tx.new.conn.now).in_transaction) }
    ensures kept { HasCleanDisk (state S.Store tx.new.conn.now)
        → KeepsCommit (state S.Store tx.old.conn.now) (state S.Store tx.new.conn.now) }
    ensures survives { Survives (state S.Store tx.old.conn.now)
        (state S.Store tx.new.conn.now) (λ _. ⊥) }
{
    tx.execute(
        "INSERT INTO reply (caller, word, place) VALUES (?1, ?2, ?3)",
        params![caller, word, place],
    )
}
