//! Sums of marks, and their ratio.

ghost use Rattle.std.specs.Prelude.{◌≡◌, ◌+◌, ◌*◌, ◌^◌, ◌<◌, ◌≤◌, ◌++◌, ◌∷◌, [], List, length, pos, neg_ℤ, ◌+ℤ◌, ◌≤ℤ◌, unsigned_abs, All};
ghost use Rattle.qz_decimal.specs.Numbers.{fraction_of, nearest, nearest_natural, one, signed, IsMaxMark, IsSlotMark};
ghost use Rattle.qz_terms.specs.History.{Slot};
ghost use Rattle.qz_stats.specs.Shards.{IsPlayed, slot_in, slots_in};
ghost use Rattle.qz_stats.specs.Sums.{AreSums, HaveRoom};

use qz_book::Played;
use qz_decimal::{Fraction, Mark, ONE};

/// How many slots have a mark, and the sums of these marks and of their max marks (in 10^-7).
#[derive(Clone, Copy)]
pub(crate) struct Marks {
    pub tried: u32,
    pub marks: i128,
    pub maxes: i128,
}

/// A sum with one mark more.
fn plus(sum: i128, mark: Mark) -> i128
    requires least { neg_ℤ (pos (2 ^ 80)) ≤ℤ sum }
    requires most { sum ≤ℤ pos (2 ^ 80) }
    ensures { result ≡ sum +ℤ mark }
{
    sum + i128::from(mark.0)
}

/// The sums with one mark more and its max mark.
fn with_mark(sums: Marks, mark: Mark, max: Mark) -> Marks
    requires { HaveRoom sums }
    ensures tried { result.tried ≡ sums.tried + 1 }
    ensures marks { result.marks ≡ sums.marks +ℤ mark }
    ensures maxes { result.maxes ≡ sums.maxes +ℤ max }
{
    Marks {
        tried: sums.tried + 1,
        marks: plus(sums.marks, mark),
        maxes: plus(sums.maxes, max),
    }
}

/// The sums with one slot more, which has a mark or none.
fn with_slot(sums: Marks, slot: &Played) -> Marks
    requires room { HaveRoom sums }
    requires slot { IsPlayed slot.now }
    ensures { (xs : List Slot) → AreSums sums xs → AreSums result (xs ++ slot_in slot.now ∷ []) }
{
    match slot.run.mark() {
        Some(mark) => with_mark(sums, mark, slot.run.bound().max),
        None => sums,
    }
}

/// The sums of some slots.
pub(crate) fn marks_of(slots: &[Played]) -> Marks
    requires all { All IsPlayed slots.now }
    requires few { length slots.now < 2 ^ 32 }
    ensures { AreSums result (slots_in slots.now) }
{
    let mut sums = Marks {
        tried: 0,
        marks: 0,
        maxes: 0,
    };
    for slot in slots {
        sums = with_slot(sums, slot);
    }
    sums
}

/// The size of the whole number nearest to `n / d`, where a half goes away from zero.
fn nearest_size(n: i128, d: u128) -> u128
    requires divisor { 0 < d }
    requires divisor_room { d ≤ 2 ^ 80 }
    requires within { unsigned_abs n ≤ 6 * one * d }
    ensures value { result ≡ nearest_natural (unsigned_abs n) d }
    ensures few { result ≤ 6 * one }
{
    (2 * n.unsigned_abs() + d) / (2 * d)
}

/// The number of this size, negative or not.
fn with_sign(negative: bool, size: u128) -> i64
    requires { size < 2 ^ 63 }
    ensures { result ≡ signed negative size }
{
    if negative {
        -(size as i64)
    } else {
        size as i64
    }
}

/// The whole number nearest to `n / d`, where a half goes away from zero.
fn nearest(n: i128, d: u128) -> i64
    requires divisor { 0 < d }
    requires divisor_room { d ≤ 2 ^ 80 }
    requires within { unsigned_abs n ≤ 6 * one * d }
    ensures { result ≡ nearest n d }
{
    with_sign(n < 0, nearest_size(n, d))
}

/// The ratio of the sums, rounded once, and 0 where the sum of max marks is 0. It is from -6 to 6.
pub(crate) fn facility(sums: Marks) -> Fraction
    requires least { pos 0 ≤ℤ sums.maxes }
    requires most { unsigned_abs sums.maxes ≤ 2 ^ 80 }
    requires within { unsigned_abs sums.marks ≤ 6 * unsigned_abs sums.maxes }
    ensures { result ≡ fraction_of sums.marks sums.maxes }
{
    if sums.maxes == 0 {
        return Fraction(0);
    }
    let whole = sums.marks * i128::from(ONE);
    Fraction(nearest(whole, sums.maxes.unsigned_abs()))
}
