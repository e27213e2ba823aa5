//! What is read from the tables.

ghost use Rattle.std.specs.Prelude.{◌≡◌, false, map, IfOk, MatchResult};
ghost use Rattle.sqlite.specs.Held.{state};
ghost use Rattle.sqlite.specs.State.{HasCleanDisk};
ghost use Rattle.sqlite_value.specs.Order.{bytes, column};
ghost use Rattle.qz_sqltables.specs.Rows.{places_of, waiting};
ghost use Rattle.qz_sqltables.specs.Schema.{
  attempt_from,
  attempt_shown,
  number_in,
  payload_shown,
  place_shown,
};
ghost use Rattle.qz_sqltables.specs.Statements.{EndsFinding, Finds, FindsRecords, StaysAsItWas};

use qz_grading::AttemptId;
use qz_text::{Bytes, Listed};
use sqlite::{Alter, Connection, Error, Row, params};
use std::alloc::Global;

// The rows of the payloads, in order of their places.
fn payload_rows<S: Alter>(conn: &mut Connection<S>) -> Result<Vec<Row>, Error>
    requires { conn.old.in_transaction ≡ false }
    ensures idle { conn.new.in_transaction ≡ false }
    ensures found { HasCleanDisk (state S.Store conn.new) → MatchResult result
        (λ rows. Finds (λ t. map payload_shown t.payloads) rows.items
        (state S.Store conn.old) (state S.Store conn.new))
        (λ _. StaysAsItWas (state S.Store conn.old) (state S.Store conn.new)) }
    ensures records { HasCleanDisk (state S.Store conn.new) → IfOk result
        (λ rows. FindsRecords (map payload_shown) rows.items (state S.Store conn.old)) }
{
    // It is idle, so what it shows is committed.
    let _idle = conn.is_autocommit();
    conn.query_all("SELECT payload FROM record ORDER BY place", &[])
}

// The payload that a row shows.
fn payload_of(row: &Row) -> Result<Bytes, Error>
    ensures { IfOk result (λ payload. payload ≡ bytes (column row.now 0)) }
{
    let items: Vec<u8> = row.get(0)?;
    Ok(Bytes { items })
}

// The payloads that rows show.
fn payloads_of(alloc: Global, rows: &[Row]) -> Result<Listed<Bytes>, Error>
    ensures { IfOk result (λ found. found ≡ map (λ row. bytes (column row 0)) rows.now) }
{
    let mut items = Vec::with_capacity(alloc, rows.len())?;
    for row in rows {
        items.push(payload_of(row)?)?;
    }
    Ok(Listed { items })
}

/// All payloads, in order of their places.
pub fn read_payloads<S: Alter>(
    alloc: Global,
    conn: &mut Connection<S>,
) -> Result<Listed<Bytes>, Error>
    requires { conn.old.in_transaction ≡ false }
    ensures idle { conn.new.in_transaction ≡ false }
    ensures found { HasCleanDisk (state S.Store conn.new) → EndsFinding
        (λ t. t.payloads) (state S.Store conn.old) (state S.Store conn.new) result }

    // They are those of `record`, whatever the other tables have.
    ensures records { HasCleanDisk (state S.Store conn.new) → IfOk result
        (λ found. FindsRecords (λ payloads. payloads) found (state S.Store conn.old)) }
{
    let rows = payload_rows(conn)?;
    payloads_of(alloc, &rows)
}

// The rows of the attempts at a quiz that wait, in order of owner and number.
fn waiting_rows<S: Alter>(conn: &mut Connection<S>, quiz: u32) -> Result<Vec<Row>, Error>
    requires { conn.old.in_transaction ≡ false }
    ensures idle { conn.new.in_transaction ≡ false }
    ensures found { HasCleanDisk (state S.Store conn.new) → MatchResult result
        (λ rows. Finds (λ t. map attempt_shown (waiting quiz t)) rows.items
        (state S.Store conn.old) (state S.Store conn.new))
        (λ _. StaysAsItWas (state S.Store conn.old) (state S.Store conn.new)) }
    ensures clean { HasCleanDisk (state S.Store conn.new) → HasCleanDisk (state S.Store conn.old) }
{
    // It is idle, so what it shows is committed.
    let _idle = conn.is_autocommit();
    conn.query_all(
        "SELECT owner, nth FROM attempt WHERE quiz = ?1 AND status = 0 ORDER BY owner, nth, rowid",
        params![quiz],
    )
}

// The attempt that a row shows.
fn attempt_of(row: &Row) -> Result<AttemptId, Error>
    ensures { IfOk result (λ attempt. attempt ≡ attempt_from row.now) }
{
    let user: u32 = row.get(0)?;
    let nth: u32 = row.get(1)?;
    Ok(AttemptId { user, nth })
}

// The attempts that rows show.
fn attempts_of(alloc: Global, rows: &[Row]) -> Result<Listed<AttemptId>, Error>
    ensures { IfOk result (λ found. found ≡ map attempt_from rows.now) }
{
    let mut items = Vec::with_capacity(alloc, rows.len())?;
    for row in rows {
        items.push(attempt_of(row)?)?;
    }
    Ok(Listed { items })
}

/// The attempts at a quiz that wait, in order of owner and number.
pub fn read_waiting<S: Alter>(
    alloc: Global,
    conn: &mut Connection<S>,
    quiz: u32,
) -> Result<Listed<AttemptId>, Error>
    requires { conn.old.in_transaction ≡ false }
    ensures idle { conn.new.in_transaction ≡ false }
    ensures found { HasCleanDisk (state S.Store conn.new) → EndsFinding
        (waiting quiz) (state S.Store conn.old) (state S.Store conn.new) result }
    ensures clean { HasCleanDisk (state S.Store conn.new) → HasCleanDisk (state S.Store conn.old) }
{
    let rows = waiting_rows(conn, quiz)?;
    attempts_of(alloc, &rows)
}

// The rows of an attempt's steps, in order of their places.
fn place_rows<S: Alter>(conn: &mut Connection<S>, attempt: AttemptId) -> Result<Vec<Row>, Error>
    requires { conn.old.in_transaction ≡ false }
    ensures idle { conn.new.in_transaction ≡ false }
    ensures found { HasCleanDisk (state S.Store conn.new) → MatchResult result
        (λ rows. Finds (λ t. map place_shown (places_of attempt t)) rows.items
        (state S.Store conn.old) (state S.Store conn.new))
        (λ _. StaysAsItWas (state S.Store conn.old) (state S.Store conn.new)) }
    ensures clean { HasCleanDisk (state S.Store conn.new) → HasCleanDisk (state S.Store conn.old) }
{
    // It is idle, so what it shows is committed.
    let _idle = conn.is_autocommit();
    conn.query_all(
        "SELECT place FROM step WHERE owner = ?1 AND nth = ?2 ORDER BY place",
        params![attempt.user, attempt.nth],
    )
}

// The place that a row shows.
fn place_of(row: &Row) -> Result<u64, Error>
    ensures { IfOk result (λ place. place ≡ number_in (column row.now 0)) }
{
    let place: u64 = row.get(0)?;
    Ok(place)
}

// The places that rows show.
fn places_in(alloc: Global, rows: &[Row]) -> Result<Listed<u64>, Error>
    ensures { IfOk result (λ found. found ≡ map (λ row. number_in (column row 0)) rows.now) }
{
    let mut items = Vec::with_capacity(alloc, rows.len())?;
    for row in rows {
        items.push(place_of(row)?)?;
    }
    Ok(Listed { items })
}

/// The places of an attempt's steps, in order.
pub fn read_places<S: Alter>(
    alloc: Global,
    conn: &mut Connection<S>,
    attempt: AttemptId,
) -> Result<Listed<u64>, Error>
    requires { conn.old.in_transaction ≡ false }
    ensures idle { conn.new.in_transaction ≡ false }
    ensures found { HasCleanDisk (state S.Store conn.new) → EndsFinding
        (places_of attempt) (state S.Store conn.old) (state S.Store conn.new) result }
    ensures clean { HasCleanDisk (state S.Store conn.new) → HasCleanDisk (state S.Store conn.old) }
{
    let rows = place_rows(conn, attempt)?;
    places_in(alloc, &rows)
}
