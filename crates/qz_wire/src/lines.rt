//! The lines of a text, and numbers in words.

ghost use Rattle.std.specs.Prelude.{◌≡◌, ◌+◌, ◌<◌, ◌≤◌, ◌==◌, [], ◌∷◌, length, Option, MatchOption, IfSome, option_copied};
ghost use Rattle.std.specs.List.{position_from};
ghost use Rattle.qz_wire.specs.Lines.{lines_of, after, digits_up_to, number_within};

use memchr::memchr;

/// The place of the first of these bytes.
pub fn place_of(text: &[u8], byte: u8) -> Option<usize>
    ensures { result ≡ position_from (λ c. c == byte) 0 text.now }
{
    memchr(byte, text)
}

/// The first line of a text, without its line feed, and what stands after it. None exactly for the empty text.
pub fn split_line(text: &[u8]) -> Option<(&[u8], &[u8])>
    ensures line { MatchOption result (lines_of text.now ≡ []) (λ r. lines_of text.now ≡ r.0.now ∷ lines_of r.1.now) }
    ensures shorter { IfSome result (λ r. length r.1.now < length text.now) }
{
    if text.is_empty() {
        return None;
    }
    match place_of(text, b'\n') {
        None => Some((text, &[])),
        Some(end) => Some((text.split_at(end).0, text.split_at(end + 1).1)),
    }
}

/// What stands on a line after this front.
pub fn after<'a>(line: &'a [u8], front: &[u8]) -> Option<&'a [u8]>
    ensures { option_copied result ≡ after front.now line.now }
{
    line.strip_prefix(front)
}

/// The number from `low` to `high` that a word spells in decimal digits without a leading zero.
pub fn number(word: &[u8], low: u32, high: u32) -> Option<u32>
    ensures value { result ≡ number_within low high word.now }
    ensures most { IfSome result (λ n. n ≤ high) }
{
    if let [] | [b'0', _, ..] = word {
        return None;
    }
    let value = digits_within(word, high)?;
    if value < low { None } else { Some(value) }
}

/// The number up to `most` that digits write.
fn digits_within(word: &[u8], most: u32) -> Option<u32>
    ensures value { result ≡ digits_up_to most word.now }
    ensures most { IfSome result (λ n. n ≤ most) }
{
    let mut value = 0u64;
    for digit in word {
        if !digit.is_ascii_digit() {
            return None;
        }
        value = 10 * value + u64::from(*digit - b'0');
        if value > u64::from(most) {
            return None;
        }
    }
    Some(value as u32)
}
