ghost use Rattle.std.specs.Prelude.{◌<◌, IfSome};
ghost use Rattle.qz_gradebook.specs.Totals.{IsTotal};

use qz_decimal::{Grade, Mark, ONE};
use qz_gradebook::Rows;
use qz_grading::AttemptId;
use qz_terms::{Method, Policy};
use qz_text::NoMemory;
use std::test::Fail;

const QUIZ: u32 = 1;

const USER: u32 = 2;

/// Puts the total of an attempt of the user.
fn put(rows: &mut Rows, nth: u32, total: Option<Mark>) -> Result<(), NoMemory>
    requires number { 0 < nth }
    requires range { IfSome total IsTotal }
{
    rows.reserve()?;
    rows.put_total(QUIZ, AttemptId { user: USER, nth }, total);
    Ok(())
}

/// Whether the row has this grade, for a grade of 10 and max marks of 3 in all.
fn has_grade(rows: &Rows, method: Method, want: Option<Grade>) -> bool {
    let policy = Policy {
        method,
        grade: Grade(1_000_000),
        sum: Mark(3 * ONE),
    };
    rows.row(QUIZ, &policy, USER) == want
}

#[test]
fn grades_by_each_method(rt: HostRuntime) -> Result<(), Fail> {
    let mut rows = Rows::new(rt.alloc());
    assert!(rt; has_grade(&rows, Method::Average, None));
    put(&mut rows, 3, Some(Mark(2 * ONE)))?;
    put(&mut rows, 1, Some(Mark(ONE)))?;
    put(&mut rows, 2, Some(Mark(2 * ONE)))?;
    assert!(rt; has_grade(&rows, Method::Average, Some(Grade(555_556))));
    assert!(rt; has_grade(&rows, Method::First, Some(Grade(333_333))));
    assert!(rt; has_grade(&rows, Method::Highest, Some(Grade(666_667))));
    assert!(rt; has_grade(&rows, Method::Last, Some(Grade(666_667))));
    Ok(())
}
