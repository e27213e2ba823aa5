//! The grades of a quiz as a text with columns.

ghost use Rattle.std.specs.Prelude.{◌≡◌, ◌++◌, ◌-◌, IfOk, IsTrue, OnOk, codes, length, replicate, string_bytes};
ghost use Rattle.qz_pages.specs.Reports.{grades_text, is_report, right_in, row_line, rows_of};
ghost use Rattle.qz_pages.specs.Shown.{grade_or};

use qz_decimal::Grade;
use qz_grading::Spelled;
use qz_terms::{Done, Row};
use qz_text::{NoMemory, Text};
use std::alloc::Global;

/// The places of the columns with a user's number and a grade.
const USER_PLACES: usize = 8;

const GRADE_PLACES: usize = 12;

/// A grade, or another text where there is none.
pub(crate) fn grade_or(alloc: Global, nothing: &str, grade: Option<Grade>) -> Result<Text, NoMemory>
    ensures { IfOk result (λ text. text ≡ grade_or nothing.now grade) }
{
    match grade {
        None => Text::of(alloc, nothing),
        Some(grade) => grade.text(alloc),
    }
}

fn spaces_onto(out: &mut String, count: usize) -> Result<(), NoMemory>
    ensures { OnOk result (string_bytes out.new ≡ string_bytes out.old ++ replicate count 32) }
{
    for _ in 0..count {
        out.push(' ')?;
    }
    Ok(())
}

/// A text at the right end of so many places, which is never cut. Each byte takes a place.
fn right_onto(out: &mut String, places: usize, text: &str) -> Result<(), NoMemory>
    ensures { OnOk result (string_bytes out.new ≡ string_bytes out.old ++ right_in places text.now) }
{
    spaces_onto(out, places.saturating_sub(text.len()))?;
    Ok(out.push_str(text)?)
}

fn row_onto(out: &mut String, row: &Row) -> Result<(), NoMemory>
    ensures { OnOk result (string_bytes out.new ≡ string_bytes out.old ++ row_line row.now) }
{
    let alloc = *out.allocator();
    let user = row.user;
    let user = format!(in alloc; "{user}")?;
    right_onto(out, USER_PLACES, user.as_str())?;
    out.push_str(" ")?;
    let grade = grade_or(alloc, "-", row.grade)?;
    right_onto(out, GRADE_PLACES, grade.as_str())?;
    let name = row.name.as_str();
    write!(out, " {name}\n")?;
    Ok(())
}

fn rows_onto(out: &mut String, rows: &[Row]) -> Result<(), NoMemory>
    ensures { OnOk result (string_bytes out.new ≡ string_bytes out.old ++ grades_text rows.now) }
{
    for row in rows {
        row_onto(out, row)?;
    }
    Ok(())
}

/// The rows of a report as lines in UTF-8: the user's number, the grade or a dash, and the name, which is never cut. Only
/// want of memory is an error.
pub fn report_text(alloc: Global, done: &Done) -> Result<Text, NoMemory>
    requires { IsTrue (is_report done.now) }
    ensures { IfOk result (λ text. text ≡ grades_text (rows_of done.now)) }
{
    let Done::Report { rows } = done else {
        unreachable!()
    };
    let mut items = String::new(alloc);
    rows_onto(&mut items, rows.as_slice())?;
    Ok(Text { items })
}
