//! Whether a text fits the parts of a pattern.
//!
//! The bytes of text and parts are searched, and not their characters, so that `memmem`, whose searches take linear
//! time, does the work. No byte within a character begins one, so bytes of a part that stand in a text stand where
//! characters of it begin: the bytes fit exactly where the characters do.

ghost use Rattle.std.specs.Prelude.{◌↔◌, IsTrue, MatchOption};
ghost use Rattle.qz_text.specs.Gaps.{EndingFits, FollowsFirst, StandsNowhere, parts_between_gaps};
ghost use Rattle.qz_text.specs.Patterns.{FitsParts};

use crate::gaps::split_at_gap;
use memchr::memmem;

/// Whether `text` is the parts in order, with any bytes, or none, between each two.
pub(crate) fn fits_parts(parts: &[u8], text: &[u8]) -> bool
    ensures { IsTrue result ↔ FitsParts (parts_between_gaps parts.now) text.now }
{
    let Some((first, later)) = split_at_gap(parts) else {
        return text == parts;
    };
    match text.strip_prefix(first) {
        None => false,
        Some(rest) => ending_fits(later, rest),
    }
}

/// Whether some ending of `text` is the parts in order. Each part before the last is taken at its first place, which
/// leaves most of the text for the parts after it, and the last is tried at the text's end. So each byte of the text is
/// passed over once.
fn ending_fits(parts: &[u8], text: &[u8]) -> bool
    ensures { IsTrue result ↔ EndingFits (parts_between_gaps parts.now) text.now }
{
    let mut rest = text;
    let mut later = parts;
    while let Some((part, after)) = split_at_gap(later) {
        let Some(left) = after_first(rest, part) else {
            return false;
        };
        rest = left;
        later = after;
    }
    rest.ends_with(later)
}

/// What follows the first place of `part` in `text`.
fn after_first<'t>(text: &'t [u8], part: &[u8]) -> Option<&'t [u8]>
    ensures { MatchOption result (StandsNowhere part.now text.now)
        (λ rest. FollowsFirst part.now text.now rest.now) }
{
    let place = memmem::find(text, part)?;
    let from_part = text.split_at(place).1;
    Some(from_part.split_at(part.len()).1)
}
