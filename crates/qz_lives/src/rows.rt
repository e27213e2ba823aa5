//! The rows of finished attempts, by quiz and user.

ghost use Rattle.std.specs.BTreeMap.{get};
ghost use Rattle.std.specs.Prelude.{◌≡◌, ◌<◌, ℕ, IfSome, OnOk, true, is_some};
ghost use Rattle.qz_terms.specs.Rows.{IsTotal};
ghost use Rattle.qz_lives.specs.Attempts.{by_number, finished_in};
ghost use Rattle.qz_lives.specs.Changes.{HasRow, HasRowRoom, row_with};

use qz_decimal::Mark;
use qz_gradebook::Rows;
use qz_grading::AttemptId;
use qz_text::NoMemory;
use std::alloc::Global;
use std::collections::BTreeMap;

/// Makes an entry for the rows of a quiz and a user, if there is none.
fn make_entry(
    rows: &mut BTreeMap<(u32, u32), Rows>,
    alloc: Global,
    key: (u32, u32),
) -> Result<(), NoMemory>
    ensures entry { OnOk result (is_some (get by_number rows.new key) ≡ true) }
    ensures kept { (q u : ℕ) → finished_in rows.new q u ≡ finished_in rows.old q u }
{
    if !rows.contains_key(&key) {
        rows.insert(key, Rows::new(alloc))?;
    }
    Ok(())
}

/// Makes room for one more total in the rows of a quiz and a user.
pub(crate) fn reserve(
    rows: &mut BTreeMap<(u32, u32), Rows>,
    alloc: Global,
    key: (u32, u32),
) -> Result<(), NoMemory>
    ensures room { OnOk result (HasRowRoom rows.new key.0 key.1) }
    ensures kept { (q u : ℕ) → finished_in rows.new q u ≡ finished_in rows.old q u }
{
    make_entry(rows, alloc, key)?;
    match rows.get_mut(&key) {
        Some(row) => row.reserve(),
        None => unreachable!(),
    }
}

/// Puts the total of an attempt into its row. It takes no memory.
pub(crate) fn put_total(
    rows: &mut BTreeMap<(u32, u32), Rows>,
    quiz: u32,
    attempt: AttemptId,
    total: Option<Mark>,
)
    requires row { HasRow rows.old quiz attempt }
    requires number { 0 < attempt.nth }
    requires range { IfSome total IsTotal }
    ensures { (q u : ℕ) → finished_in rows.new q u
        ≡ row_with quiz attempt total q u (finished_in rows.old q u) }
{
    match rows.get_mut(&(quiz, attempt.user)) {
        Some(row) => row.put_total(quiz, attempt, total),
        None => unreachable!(),
    }
}
