//! Requests that are asked again: a key stands in the list with the request that it was first given to.

ghost use Rattle.std.specs.Prelude.{◌≡◌, IfOk};
ghost use Rattle.qz_index.specs.Keys.{AreKeys};
ghost use Rattle.qz_terms.specs.Cause.{by_key, same_slot, same_step, spells};
ghost use Rattle.qz_shard.specs.Decisions.{IsFound};

use qz_book::Book;
use qz_grading::{AttemptId, Step, same_answer};
use qz_index::Keys;
use qz_legal::is_same;
use qz_terms::{Ask, Event, Record, Reply, Request};
use qz_text::{NoMemory, TryCopy};
use std::alloc::Global;

/// What stands under a request's key.
pub(crate) enum Found {
    /// The same request, which got this reply.
    Same(Reply),
    /// Another one, whose reply had this place.
    Other(u64),
}

/// Whether a request is about this slot.
fn same_slot(attempt: AttemptId, slot: u16, request: &Request) -> bool
    ensures { result ≡ same_slot attempt slot request.now }
{
    match request {
        Request::Save {
            attempt: other,
            slot: place,
            ..
        }
        | Request::Submit {
            attempt: other,
            slot: place,
            ..
        }
        | Request::Again {
            attempt: other,
            slot: place,
        }
        | Request::Mark {
            attempt: other,
            slot: place,
            ..
        } => is_same(attempt, *other) && slot == *place,
        _ => false,
    }
}

/// Whether a step is the one that a request asks for.
fn same_step(step: &Step, request: &Request) -> bool
    ensures { result ≡ same_step step.now request.now }
{
    match (step, request) {
        (
            Step::Save(kept),
            Request::Save {
                certainty,
                response,
                ..
            },
        )
        | (
            Step::Submit(kept),
            Request::Submit {
                certainty,
                response,
                ..
            },
        ) => same_answer(&kept.answer, response) && kept.certainty == *certainty,
        (Step::Again, Request::Again { .. }) => true,
        (Step::Mark { mark, .. }, Request::Mark { mark: asked, .. }) => mark.0 == asked.0,
        _ => false,
    }
}

/// Whether a record was made by this request.
fn spells(request: &Request, record: &Record) -> bool
    ensures { result ≡ spells request.now «record».now }
{
    match (&record.event, request) {
        (Event::Started { quiz, .. }, Request::Start { quiz: asked }) => asked == quiz,
        (
            Event::Acted {
                attempt,
                slot,
                step,
            }
            | Event::Noted {
                attempt,
                slot,
                step,
            },
            _,
        ) => same_slot(*attempt, *slot, request) && same_step(step, request),
        (Event::Ended { attempt, .. }, Request::Finish { attempt: asked }) => {
            is_same(*attempt, *asked)
        }
        _ => false,
    }
}

/// What stands under the key of a request, if it has one and it stands there.
pub(crate) fn by_key(
    alloc: Global,
    book: &Book,
    keys: &Keys,
    caller: u32,
    ask: &Ask,
) -> Result<Option<Found>, NoMemory>
    requires { AreKeys keys.now book.now }
    ensures { IfOk result (λ found. IsFound found (by_key (spells ask.now.request) caller ask.now.key book.now)) }
{
    let Some(key) = &ask.key else {
        return Ok(None);
    };
    let Some(replied) = keys.look(caller, key) else {
        return Ok(None);
    };
    let record = &book.as_slice()[replied.at];
    if spells(&ask.request, record) {
        return Ok(Some(Found::Same(replied.reply.try_copy(alloc)?)));
    }
    match &replied.reply {
        Reply::Ok { place, .. } => Ok(Some(Found::Other(*place))),
        Reply::Refused(_) => unreachable!(),
    }
}
