//! Marks, fractions and grades that come of one another, each rounded once and halves away from zero.
ghost use Rattle.std.specs.Prelude.{◌≡◌, ◌≢◌, ◌*◌, ◌<◌, ◌≤◌, pos, ◌*ℤ◌, unsigned_abs};
ghost use Rattle.qz_decimal.specs.Numbers.{one, mark_of, share, fraction_of, rescale, grade_of, IsNearest, IsWithin, IsEarnedFraction, IsMaxMark, IsSlotMark, IsMaxSum, IsQuizGrade};

use crate::quotient::{nearest_product, nearest_quotient};
use crate::units::{Fraction, Grade, Mark, ONE};

/// The mark that a fraction earns of a max mark, to a unit of 10^-7.
///
/// The fraction is from -6 to 6, and the max mark from 0 to 10,000.
pub fn mark_of(fraction: Fraction, max: Mark) -> Mark
    requires fraction { IsEarnedFraction fraction }
    requires max { IsMaxMark max }
    ensures value { result ≡ mark_of fraction max }
    ensures nearest { IsNearest (fraction *ℤ max) one result }
{
    Mark(nearest_product(fraction.0, max.0, ONE))
}

/// The fraction for so many right ones of all, to a unit of 10^-7.
pub fn share(right: u8, all: u8) -> Fraction
    requires { 0 < all }
    ensures value { result ≡ share right all }
    ensures nearest { IsNearest (pos (right * one)) all result }
{
    Fraction(nearest_product(i64::from(right), ONE, i64::from(all)))
}

/// The fraction that a mark is of a max mark, to a unit of 10^-7, and 0 where the max mark is 0.
///
/// The mark is from -60,000 to 60,000, and the max mark from 0 to 10,000.
pub fn fraction_of(mark: Mark, max: Mark) -> Fraction
    requires mark { IsSlotMark mark }
    requires max { IsMaxMark max }
    ensures value { result ≡ fraction_of mark max }
    ensures nearest { max ≢ pos 0 → IsNearest (mark *ℤ pos one) (unsigned_abs max) result }
{
    if max.0 == 0 {
        return Fraction(0);
    }
    Fraction(nearest_product(mark.0, ONE, max.0))
}

/// A mark given out of one max mark, as a mark out of another, to a unit of 10^-7. It is 0 where the
/// first max mark is 0.
///
/// The max marks are from 0 to 10,000, and the mark from 0 to the first of them.
pub fn rescale(mark: Mark, given: Mark, max: Mark) -> Mark
    requires mark { IsWithin (pos 0) given mark }
    requires given { IsMaxMark given }
    requires max { IsMaxMark max }
    ensures value { result ≡ rescale mark given max }
    ensures nearest { given ≢ pos 0 → IsNearest (mark *ℤ max) (unsigned_abs given) result }
{
    if given.0 == 0 {
        return Mark(0);
    }
    Mark(nearest_product(mark.0, max.0, given.0))
}

/// The grade for a sum of totals and their number, to a unit of 10^-5: the quiz's grade times the
/// mean total over the sum of the max marks. It is 0 where that last sum is 0.
///
/// The total is in units of 10^-7. The mean total is from -12,000,000 to 12,000,000, the quiz's
/// grade from 0 to 10,000, and the sum of the max marks from 0 to 2,000,000.
pub fn grade_of(total: i128, count: u32, grade: Grade, sum: Mark) -> Grade
    requires count { 0 < count }
    requires total { unsigned_abs total ≤ count * (12000000 * one) }
    requires grade { IsQuizGrade grade }
    requires sum { IsMaxSum sum }
    ensures value { result ≡ grade_of total count grade sum }
    ensures nearest { sum ≢ pos 0 → IsNearest (total *ℤ grade) (count * unsigned_abs sum) result }
{
    if sum.0 == 0 {
        return Grade(0);
    }
    Grade(nearest_quotient(total * grade.0, u128::from(count) * sum.0 as u128))
}
