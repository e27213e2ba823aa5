//! The one place where numbers are rounded.
ghost use Rattle.std.specs.Prelude.{◌≡◌, ◌-◌, ◌*◌, ◌^◌, ◌<◌, ◌≤◌, ℤ, pos, ◌*ℤ◌, ◌<ℤ◌, unsigned_abs};
ghost use Rattle.qz_decimal.specs.Numbers.{nearest_natural, nearest, signed, IsNearest};

/// The whole number nearest to `a * b / d`, where a half goes away from zero.
pub(crate) fn nearest_product(a: i64, b: i64, d: i64) -> i64
    requires divisor { pos 0 <ℤ d }
    requires room { unsigned_abs (a *ℤ b) ≤ (2 ^ 63 - 1) * unsigned_abs d }
    ensures value { result ≡ nearest (a *ℤ b) (unsigned_abs d) }
    ensures law { IsNearest (a *ℤ b) (unsigned_abs d) result }
{
    nearest_quotient(i128::from(a) * i128::from(b), d as u128) as i64
}

/// The whole number nearest to `n / d`, where a half goes away from zero.
pub(crate) fn nearest_quotient(n: i128, d: u128) -> i128
    requires divisor { 0 < d }
    requires divisor_room { d ≤ 2 ^ 126 }
    requires room { unsigned_abs n ≤ 2 ^ 126 }
    ensures value { result ≡ nearest n d }
    ensures law { IsNearest n d result }
    ensures only { (q : ℤ) → IsNearest n d q → q ≡ result }
{
    with_sign(n < 0, nearest_natural(n.unsigned_abs(), d))
}

/// The whole number nearest to `n / d`, where a half goes up.
fn nearest_natural(n: u128, d: u128) -> u128
    requires divisor { 0 < d }
    requires divisor_room { d ≤ 2 ^ 126 }
    requires room { n ≤ 2 ^ 126 }
    ensures value { result ≡ nearest_natural n d }
    ensures room { result < 2 ^ 127 }
{
    let quotient = n / d;
    let rest = n % d;
    if 2 * rest < d { quotient } else { quotient + 1 }
}

/// The number of this size, negative or not.
pub(crate) fn with_sign(negative: bool, size: u128) -> i128
    requires { size < 2 ^ 127 }
    ensures { result ≡ signed negative size }
{
    if negative {
        -(size as i128)
    } else {
        size as i128
    }
}
