//! The attempts of a user at a quiz.

ghost use Rattle.std.specs.Prelude.{◌≡◌, filter};
ghost use Rattle.qz_terms.specs.Cause.{goes_on};
ghost use Rattle.qz_terms.specs.History.{same_attempt};
ghost use Rattle.qz_terms.specs.Lists.{first_of};
ghost use Rattle.qz_legal.specs.Allowed.{is_overdue};
ghost use Rattle.qz_book.specs.Held.{IsSound};

use qz_access::expired;
use qz_book::Book;
use qz_grading::AttemptId;
use qz_terms::Settings;

/// Whether an attempt goes on: it hasn't ended and isn't expired.
fn goes_on(book: &Book, settings: &Settings, moment: u64, attempt: AttemptId) -> bool
    requires sound { IsSound book.now }
    ensures { result ≡ goes_on book.now settings.now moment attempt }
{
    if book.is_ended(attempt) {
        return false;
    }
    match book.begun(attempt) {
        Some(begun) => !expired(settings, begun.moment, moment),
        None => true,
    }
}

/// Whether an attempt that goes on is expired.
pub fn is_overdue(book: &Book, moment: u64, settings: &Settings, attempt: AttemptId) -> bool
    requires sound { IsSound book.now }
    ensures { result ≡ is_overdue book.now settings.now moment attempt }
{
    match book.begun(attempt) {
        Some(begun) => !book.is_ended(attempt) && expired(settings, begun.moment, moment),
        None => false,
    }
}

/// The first of these attempts that goes on.
pub(crate) fn unfinished(
    book: &Book,
    settings: &Settings,
    moment: u64,
    attempts: &[AttemptId],
) -> Option<AttemptId>
    requires sound { IsSound book.now }
    ensures { result ≡ first_of (filter (goes_on book.now settings.now moment) attempts.now) }
{
    let mut found = None;
    for attempt in attempts {
        let here = goes_on(book, settings, moment, *attempt).then_some(*attempt);
        found = found.or(here);
    }
    found
}

/// Whether two attempts are one.
pub fn is_same(one: AttemptId, other: AttemptId) -> bool
    ensures { result ≡ same_attempt one other }
{
    one.user == other.user && one.nth == other.nth
}
