//! What a record learns, tested: the versions that it binds and that are new to the list, each once, in order of slot.

ghost use Rattle.std.specs.Prelude.{◌≡◌, ◌&&◌};
ghost use Rattle.qz_legal.specs.Allowed.{learns_new};
ghost use Rattle.qz_legal.specs.Readings.{binds_new, binds_version, is_version_at};

use qz_book::Book;
use qz_terms::{Bound, Learned};

/// Whether the version that is bound stands among those of earlier bounds.
fn binds_version(bound: &Bound, earlier: &[Bound]) -> bool
    ensures { result ≡ binds_version bound.now earlier.now }
{
    earlier.iter().any(|other| other.entry == bound.entry && other.version == bound.version)
}

/// Whether the version that is bound is new to the list, behind earlier bounds.
fn is_new(book: &Book, earlier: &[Bound], bound: &Bound) -> bool
    ensures { result ≡ binds_new book.now earlier.now bound.now }
{
    !binds_version(bound, earlier) && book.version(bound.entry, bound.version).is_none()
}

/// Whether the version that is bound is learned at this place.
fn is_version_at(learned: &[Learned], place: usize, bound: &Bound) -> bool
    ensures { result ≡ is_version_at learned.now place bound.now }
{
    match learned.get(place) {
        Some(other) => other.entry == bound.entry && other.version == bound.version,
        None => false,
    }
}

/// Whether all was learned so far, and the version that is bound is learned at this place.
fn learns_on(so_far: bool, learned: &[Learned], place: usize, bound: &Bound) -> bool
    ensures { result ≡ so_far && is_version_at learned.now place bound.now }
{
    so_far && is_version_at(learned, place, bound)
}

/// Whether a record that binds these versions learns those of them that are new to the list, each once, in order.
pub(crate) fn learns_new(book: &Book, bounds: &[Bound], learned: &[Learned]) -> bool
    ensures { result ≡ learns_new book.now bounds.now learned.now }
{
    let mut count = 0;
    let mut matches = true;
    for (place, bound) in bounds.iter().enumerate() {
        if is_new(book, &bounds[..place], bound) {
            matches = learns_on(matches, learned, count, bound);
            count += 1;
        }
    }
    matches && count == learned.len()
}
