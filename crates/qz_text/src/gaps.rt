//! The form in which a pattern is kept: its parts, with a gap between each two.

ghost use Rattle.std.specs.Prelude.{◌≡◌, ◌<◌, [], ◌∷◌, length, IfOk, IfSome, MatchOption};
ghost use Rattle.qz_text.specs.Gaps.{joined, parts_between_gaps};
ghost use Rattle.qz_text.specs.Patterns.{plain_parts};

use crate::NoMemory;
use memchr::memchr;
use std::alloc::Global;

/// Stands for a star of a pattern, since no text has this byte.
const GAP: u8 = 0xff;

/// The plain parts of a pattern, with a gap for each of its stars.
pub(crate) fn with_gaps(alloc: Global, pattern: &str) -> Result<Vec<u8>, NoMemory>
    ensures { IfOk result (λ kept. parts_between_gaps kept.items ≡ plain_parts pattern.now) }
{
    let mut kept = Vec::with_capacity(alloc, pattern.len())?;
    let mut rest = pattern.as_bytes();
    while let Some((sign, later)) = first_sign(rest) {
        kept.push(sign)?;
        rest = later;
    }
    Ok(kept)
}

/// The byte to keep for what a pattern begins with, and what follows it.
fn first_sign(pattern: &[u8]) -> Option<(u8, &[u8])>
    ensures kept { MatchOption result (pattern.now ≡ [])
        (λ sign. joined (plain_parts pattern.now) ≡ sign.0 ∷ joined (plain_parts sign.1.now)) }
    ensures shorter { IfSome result (λ sign. length sign.1.now < length pattern.now) }
{
    if let Some(later) = pattern.strip_prefix(b"\\*".as_slice()) {
        return Some((b'*', later));
    }
    match pattern.split_first()? {
        (b'*', later) => Some((GAP, later)),
        (byte, later) => Some((*byte, later)),
    }
}

/// The first part, and what follows its gap. `None` says that there is but one part.
pub(crate) fn split_at_gap(parts: &[u8]) -> Option<(&[u8], &[u8])>
    ensures cut { MatchOption result (parts_between_gaps parts.now ≡ parts.now ∷ [])
        (λ split. parts_between_gaps parts.now ≡ split.0.now ∷ parts_between_gaps split.1.now) }
    ensures shorter { IfSome result (λ split. length split.1.now < length parts.now) }
{
    let place = memchr(GAP, parts)?;
    Some((&parts[..place], &parts[place + 1..]))
}
