//! The rows of a report over several shards.

ghost use Rattle.std.specs.Prelude.{◌≡◌, None, IfOk, map};
ghost use Rattle.qz_school.specs.Reports.{named_row, rows_in_order};

use qz_decimal::Grade;
use qz_terms::Row;
use qz_text::{Listed, NoMemory, Text, TryCopy};
use std::alloc::Global;
use std::collections::BTreeMap;

/// Rows in order of user, of which the first of each user counts. They are put from behind.
pub fn in_order(
    alloc: Global,
    rows: &[(u32, Option<Grade>)],
) -> Result<BTreeMap<u32, Option<Grade>>, NoMemory>
    ensures { IfOk result (λ found. found.entries ≡ rows_in_order rows.now) }
{
    let mut found = BTreeMap::new(alloc);
    let mut rest = rows;
    while let [before @ .., row] = rest {
        found.insert(row.0, row.1)?;
        rest = before;
    }
    Ok(found)
}

/// The name of the user with this number, or the empty one.
fn name_at(alloc: Global, names: &[Text], user: u32) -> Result<Text, NoMemory>
    ensures { IfOk result (λ name. name ≡ (named_row names.now (user, None)).name) }
{
    if user == 0 {
        return Text::of(alloc, "");
    }
    match names.get(user as usize - 1) {
        Some(name) => name.try_copy(alloc),
        None => Text::of(alloc, ""),
    }
}

/// The rows of a report, with their users' names: of names in order of number. A user whom they don't have has the empty name.
pub fn named(
    alloc: Global,
    grades: &BTreeMap<u32, Option<Grade>>,
    names: &[Text],
) -> Result<Listed<Row>, NoMemory>
    ensures { IfOk result (λ named. named ≡ map (named_row names.now) grades.now.entries) }
{
    let mut items = Vec::new(alloc);
    for (user, grade) in grades {
        let name = name_at(alloc, names, *user)?;
        items.push(Row {
            user: *user,
            name,
            grade: *grade,
        })?;
    }
    Ok(Listed { items })
}
