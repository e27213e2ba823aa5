//! The grades of a quiz as a table of comma-separated values.

ghost use Rattle.std.specs.Prelude.{◌≡◌, ◌++◌, ◌∷◌, [], IfOk, IsTrue, OnOk, flat_map};
ghost use Rattle.std.specs.Str.{IsUtf8};
ghost use Rattle.qz_pages.specs.Reports.{csv_row, grades_csv, header, is_report, row_fields, rows_of};
ghost use Rattle.qz_pages.specs.Tables.{IsBetweenRecords, written};

use crate::reports::grade_or;
use csv::{Writer, WriterBuilder};
use qz_terms::{Done, Row};
use qz_text::{NoMemory, Text};
use std::alloc::Global;

/// A record of three fields. A writer over memory fails only where memory is wanting.
fn record_into(
    table: &mut Writer<Vec<u8>>,
    user: &str,
    name: &str,
    grade: &str,
) -> Result<(), NoMemory>
    requires { IsBetweenRecords table.old }
    ensures between { OnOk result (IsBetweenRecords table.new) }
    ensures added { OnOk result (written table.new
        ≡ written table.old ++ csv_row (user.now ∷ name.now ∷ grade.now ∷ [])) }
{
    match table.write_fields(&[user.as_bytes(), name.as_bytes(), grade.as_bytes()]) {
        Ok(()) => Ok(()),
        Err(_) => Err(NoMemory),
    }
}

fn row_into(alloc: Global, table: &mut Writer<Vec<u8>>, row: &Row) -> Result<(), NoMemory>
    requires { IsBetweenRecords table.old }
    ensures between { OnOk result (IsBetweenRecords table.new) }
    ensures added { OnOk result (written table.new ≡ written table.old ++ csv_row (row_fields row.now)) }
{
    let user = row.user;
    let user = format!(in alloc; "{user}")?;
    let grade = grade_or(alloc, "", row.grade)?;
    record_into(table, user.as_str(), row.name.as_str(), grade.as_str())
}

fn rows_into(alloc: Global, table: &mut Writer<Vec<u8>>, rows: &[Row]) -> Result<(), NoMemory>
    requires { IsBetweenRecords table.old }
    ensures between { OnOk result (IsBetweenRecords table.new) }
    ensures added { OnOk result (written table.new
        ≡ written table.old ++ flat_map (λ r. csv_row (row_fields r)) rows.now) }
{
    for row in rows {
        row_into(alloc, table, row)?;
    }
    Ok(())
}

/// The header and the rows.
fn table_of(alloc: Global, rows: &[Row]) -> Result<Vec<u8>, NoMemory>
    ensures bytes { IfOk result (λ bytes. bytes.items ≡ grades_csv rows.now) }
    ensures text { IfOk result (λ bytes. IsUtf8 bytes.items) }
{
    let mut table = WriterBuilder::new().from_writer(Vec::new(alloc));
    record_into(&mut table, "user", "name", "grade")?;
    rows_into(alloc, &mut table, rows)?;
    match table.into_inner() {
        Ok(bytes) => Ok(bytes),
        Err(_) => Err(NoMemory),
    }
}

/// The rows of a report under a header as comma-separated values in UTF-8, as RFC 4180 describes them, with a line feed at
/// the end of each record: the user's number, the name, and the grade, which is empty where there is none. Only want of
/// memory is an error.
pub fn report_csv(alloc: Global, done: &Done) -> Result<Text, NoMemory>
    requires { IsTrue (is_report done.now) }
    ensures { IfOk result (λ text. text ≡ grades_csv (rows_of done.now)) }
{
    let Done::Report { rows } = done else {
        unreachable!()
    };
    match String::from_utf8(table_of(alloc, rows.as_slice())?) {
        Ok(items) => Ok(Text { items }),
        Err(_) => unreachable!(),
    }
}
