//! Requests that are asked again: a key stands in the list with the request that it was first given to.

ghost use Rattle.std.specs.Prelude.{◌≡◌, position};
ghost use Rattle.qz_terms.specs.Cause.{by_key, has_key, keeps_request};
ghost use Rattle.qz_catalog.specs.Holdings.{IsIndexed};
ghost use Rattle.qz_catalog.specs.Applying.{IsFound};

use crate::book::Book;
use qz_terms::{Event, Record, Request, place_of, same_request};
use qz_text::Text;

/// What stands under a request's key.
#[derive(Clone, Copy)]
pub(crate) enum Found {
    /// The same request, at this place in the list, from 0.
    Same(usize),
    /// Another one, whose record has this place, from 1.
    Other(u64),
}

/// Whether a record was made by this request.
fn keeps_request(request: &Request, record: &Record) -> bool
    ensures { result ≡ keeps_request request.now «record».now }
{
    match &record.event {
        Event::Asked { request: kept } => same_request(kept, request),
        _ => false,
    }
}

/// The place, from 0, of the first record with this caller and key. The founding, which no request made, may have any.
fn place_under(book: &Book, caller: u32, key: &Text) -> Option<usize>
    requires { IsIndexed book.now }
    ensures { result ≡ position (has_key caller key.now) book.now.records.items }
{
    place_of(&book.records[..1], caller, key).or(book.roster.people.place_of(caller, key))
}

/// What stands under the key of a request, if it has one and it stands there.
pub(crate) fn by_key(
    book: &Book,
    caller: u32,
    key: &Option<Text>,
    request: &Request,
) -> Option<Found>
    requires { IsIndexed book.now }
    ensures { IsFound book.now.records.items result (by_key (keeps_request request.now) caller key.now book.now.records.items) }
{
    let Some(key) = key else {
        return None;
    };
    let Some(at) = place_under(book, caller, key) else {
        return None;
    };
    if keeps_request(request, &book.records[at]) {
        return Some(Found::Same(at));
    }
    Some(Found::Other(at as u64 + 1))
}
