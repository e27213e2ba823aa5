//! What is done with a request: it is refused, it is answered again, or nothing stands against it.

ghost use Rattle.std.specs.Prelude.{◌≡◌, true};
ghost use Rattle.qz_terms.specs.CatalogAnswer.{asks_catalog};
ghost use Rattle.qz_catalog.specs.Applying.{IsDecision};
ghost use Rattle.qz_catalog.specs.Holdings.{IsIndexed};

use crate::absent::missing_in;
use crate::book::Book;
use crate::causes::early_cause;
use crate::keys::{Found, by_key};
use qz_grading::Refusal;
use qz_terms::{Ask, User, forbidden};

/// What is done with a request.
pub(crate) enum Decision {
    Refused(Refusal),
    /// It is answered as the record at this place, from 0, was.
    Repeated(usize),
    /// Nothing stands against it but what may lie in an entry's new version.
    Free,
}

/// What is done with a request. The causes for which it may be refused are tested in their order: the rule of callers, what isn't
/// there, the key, and what the records tell.
pub(crate) fn decide(book: &Book, user: &User, ask: &Ask) -> Decision
    requires indexed { IsIndexed book.now }
    requires here { asks_catalog ask.now.request ≡ true }
    ensures { IsDecision book.now.records.items user.now ask.now result }
{
    if let Some(refusal) = forbidden(user, &ask.request) {
        return Decision::Refused(refusal);
    }
    if let Some(refusal) = missing_in(book, &ask.request) {
        return Decision::Refused(refusal);
    }
    match by_key(book, user.number, &ask.key, &ask.request) {
        Some(Found::Same(at)) => return Decision::Repeated(at),
        Some(Found::Other(place)) => return Decision::Refused(Refusal::KeyReused { place }),
        None => {}
    }
    match early_cause(book, &ask.key, &ask.request) {
        Some(refusal) => Decision::Refused(refusal),
        None => Decision::Free,
    }
}
