//! What a request names that isn't there.

ghost use Rattle.std.specs.Prelude.{◌≡◌};
ghost use Rattle.qz_terms.specs.Cause.{missing_attempt, missing_slot, missing_here};

use qz_book::{Book, has_slot};
use qz_grading::{AttemptId, Refusal, Thing};
use qz_terms::{Request, User, is_anothers};

/// The refusal of a request that names an attempt that isn't there, or to a student another's.
fn missing_attempt(book: &Book, user: &User, attempt: AttemptId) -> Option<Refusal>
    ensures { result ≡ missing_attempt book.now user.now attempt }
{
    if is_anothers(user, attempt.user) || book.begun(attempt).is_none() {
        return Some(Refusal::Unknown {
            what: Thing::Attempt,
        });
    }
    None
}

/// The refusal of a request that names a slot that isn't there.
fn missing_slot(book: &Book, user: &User, attempt: AttemptId, slot: u16) -> Option<Refusal>
    ensures { result ≡ missing_slot book.now user.now attempt slot }
{
    if let Some(refusal) = missing_attempt(book, user, attempt) {
        return Some(refusal);
    }
    if !has_slot(book, attempt, slot) {
        return Some(Refusal::Unknown { what: Thing::Slot });
    }
    None
}

/// The refusal of a request that names what this shard doesn't have (`Unknown`).
pub fn missing_here(book: &Book, user: &User, request: &Request) -> Option<Refusal>
    ensures { result ≡ missing_here book.now user.now request.now }
{
    match request {
        Request::Save { attempt, slot, .. }
        | Request::Submit { attempt, slot, .. }
        | Request::Again { attempt, slot }
        | Request::Mark { attempt, slot, .. }
        | Request::View { attempt, slot } => missing_slot(book, user, *attempt, *slot),
        Request::Finish { attempt }
        | Request::Settle { attempt }
        | Request::Total { attempt }
        | Request::Page { attempt } => missing_attempt(book, user, *attempt),
        Request::Grade { user: owner, .. } if is_anothers(user, *owner) => Some(Refusal::Unknown {
            what: Thing::User,
        }),
        _ => None,
    }
}
