//! Digits at the front of a text, and the numbers that they write.
ghost use Rattle.std.specs.Prelude.{◌≡◌, ◌+◌, ◌*◌, ◌≤◌, ◌<◌, ◌^◌, length, IsTrue};
ghost use Rattle.std.specs.Str.{all_ascii_digits};
ghost use Rattle.std.specs.Str.Parse.{digits_value};
ghost use Rattle.qz_decimal.specs.Reading.{first_digits, after_digits};

/// The digits that a text begins with, at most so many, and what follows them.
pub(crate) fn split_digits(text: &[u8], most: u32) -> (&[u8], &[u8])
    ensures digits { result.0.now ≡ first_digits most text.now }
    ensures rest { result.1.now ≡ after_digits most text.now }
    ensures each { IsTrue (all_ascii_digits result.0.now) }
    ensures few { length result.0.now ≤ most }
{
    let count = text.iter().take_while(|byte| byte.is_ascii_digit()).count();
    text.split_at(count.min(most as usize))
}

/// The number that digits write with so many zeros behind them.
pub(crate) fn with_zeros(digits: &[u8], zeros: u32) -> u128
    requires digits { IsTrue (all_ascii_digits digits.now) }
    requires few { length digits.now + zeros ≤ 36 }
    ensures value { result ≡ digits_value 10 digits.now * 10 ^ zeros }
    ensures room { result < 10 ^ 36 }
{
    number_of(digits) * 10u128.pow(zeros)
}

/// The number that digits write.
pub(crate) fn number_of(digits: &[u8]) -> u128
    requires digits { IsTrue (all_ascii_digits digits.now) }
    requires few { length digits.now ≤ 36 }
    ensures value { result ≡ digits_value 10 digits.now }
    ensures room { result < 10 ^ length digits.now }
{
    let mut number = 0;
    for digit in digits {
        number = 10 * number + u128::from(digit - b'0');
    }
    number
}
