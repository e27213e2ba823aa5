//! The four methods. Moodle's manual page "Quiz settings", under "Grading method", names them.

ghost use Rattle.std.specs.Prelude.{◌≡◌, ◌≤◌, ◌<◌, ◌*◌, ◌^◌, All, List, ℤ, length, filter_map, map, option_to_list, pos, unwrap_or, unsigned_abs, IfSome};
ghost use Rattle.qz_decimal.specs.Numbers.{one, IsMaxSum, IsQuizGrade};
ghost use Rattle.qz_grading.specs.Steps.{last_of};
ghost use Rattle.qz_terms.specs.Lists.{first_of};
ghost use Rattle.qz_terms.specs.Rows.{IsTotal, graded_by, greatest_total, row_of, sum_of};
ghost use Rattle.qz_gradebook.specs.Grades.{greater};
ghost use Rattle.qz_gradebook.specs.Totals.{total};

use crate::finished::Finished;
use qz_decimal::{Grade, Mark, grade_of};
use qz_terms::{Method, Policy};

/// The greater of two totals, of those that are there.
fn greater(best: Option<Mark>, total: Option<Mark>) -> Option<Mark>
    requires best { IfSome best IsTotal }
    requires total { IfSome total IsTotal }
    ensures value { result ≡ greater best total }
    ensures range { IfSome result IsTotal }
{
    match (best, total) {
        (Some(best), Some(total)) if total.0 < best.0 => Some(best),
        (Some(_), Some(total)) => Some(total),
        (Some(best), None) => Some(best),
        (None, total) => total,
    }
}

/// The greatest total, of those that are there.
fn greatest(attempts: &[Finished]) -> Option<Mark>
    requires { All (λ f. IfSome f.total IsTotal) attempts.now }
    ensures value { result ≡ greatest_total (filter_map total attempts.now) }
    ensures range { IfSome result IsTotal }
{
    let mut best = None;
    for attempt in attempts {
        best = greater(best, attempt.total);
    }
    best
}

/// The total of the first attempt, if it has one.
fn first(attempts: &[Finished]) -> Option<Mark>
    requires { All (λ f. IfSome f.total IsTotal) attempts.now }
    ensures value { result ≡ unwrap_or (first_of (map total attempts.now)) None }
    ensures range { IfSome result IsTotal }
{
    attempts.first()?.total
}

/// The total of the last attempt, if it has one.
fn last(attempts: &[Finished]) -> Option<Mark>
    requires { All (λ f. IfSome f.total IsTotal) attempts.now }
    ensures value { result ≡ unwrap_or (last_of (map total attempts.now)) None }
    ensures range { IfSome result IsTotal }
{
    attempts.last()?.total
}

/// The grade of so many totals, by their sum (in 10^-7), and none where there is no total.
fn graded(policy: &Policy, sum: i128, count: u32) -> Option<Grade>
    requires grade { IsQuizGrade policy.now.grade }
    requires max { IsMaxSum policy.now.sum }
    requires range { unsigned_abs sum ≤ count * (12000000 * one) }
    ensures { (ts : List ℤ) → sum ≡ sum_of ts → count ≡ length ts → result ≡ graded_by policy.now ts }
{
    if count == 0 {
        return None;
    }
    Some(grade_of(sum, count, policy.grade, policy.sum))
}

/// The grade of one total, if it is there.
fn graded_alone(policy: &Policy, total: Option<Mark>) -> Option<Grade>
    requires grade { IsQuizGrade policy.now.grade }
    requires sum { IsMaxSum policy.now.sum }
    requires range { IfSome total IsTotal }
    ensures { result ≡ graded_by policy.now (option_to_list total) }
{
    graded(policy, i128::from(total?.0), 1)
}

/// What a total adds to a sum, if it is there.
fn units(total: Option<Mark>) -> i128
    ensures { result ≡ unwrap_or total (pos 0) }
{
    match total {
        Some(total) => i128::from(total.0),
        None => 0,
    }
}

/// The grade of all totals that are there. They are rounded once, all together.
fn graded_average(policy: &Policy, attempts: &[Finished]) -> Option<Grade>
    requires grade { IsQuizGrade policy.now.grade }
    requires sum { IsMaxSum policy.now.sum }
    requires totals { All (λ f. IfSome f.total IsTotal) attempts.now }
    requires few { length attempts.now < 2 ^ 32 }
    ensures { result ≡ graded_by policy.now (filter_map total attempts.now) }
{
    let mut sum = 0;
    let mut count = 0;
    for attempt in attempts {
        sum += units(attempt.total);
        count += u32::from(attempt.total.is_some());
    }
    graded(policy, sum, count)
}

/// The grade (in 10^-5) over the totals (in 10^-7) of a user's finished attempts, in order of number. The highest total and the
/// average skip attempts without a total; the first and the last attempt give no grade where they have none.
pub(crate) fn row_of(policy: &Policy, attempts: &[Finished]) -> Option<Grade>
    requires grade { IsQuizGrade policy.now.grade }
    requires sum { IsMaxSum policy.now.sum }
    requires totals { All (λ f. IfSome f.total IsTotal) attempts.now }
    requires few { length attempts.now < 2 ^ 32 }
    ensures { result ≡ row_of policy.now (map total attempts.now) }
{
    match policy.method {
        Method::Highest => graded_alone(policy, greatest(attempts)),
        Method::Average => graded_average(policy, attempts),
        Method::First => graded_alone(policy, first(attempts)),
        Method::Last => graded_alone(policy, last(attempts)),
    }
}
