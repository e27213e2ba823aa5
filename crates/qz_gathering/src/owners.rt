//! Whose a record is. A comparison takes no memory.

ghost use Rattle.std.specs.Prelude.{◌≡◌, ◌&&◌};
ghost use Rattle.qz_gathering.specs.Owners.{is_end_of, is_work_of, makes, owns, same_key};
ghost use Rattle.qz_terms.specs.Cause.{is_start_of, same_slot, same_step};

use qz_grading::{AttemptId, Step, same_answer};
use qz_legal::is_same;
use qz_terms::{Ask, Event, How, Record, Request, same_request};
use qz_text::Text;

/// Whether a request starts an attempt of this quiz.
fn is_start_of(quiz: u32, request: &Request) -> bool
    ensures { result ≡ is_start_of quiz request.now }
{
    match request {
        Request::Start { quiz: asked } => *asked == quiz,
        _ => false,
    }
}

/// Whether a request asks for this step of this slot.
fn is_step_of(attempt: AttemptId, slot: u16, step: &Step, request: &Request) -> bool
    ensures { result ≡ (same_slot attempt slot request.now && same_step step.now request.now) }
{
    match (request, step) {
        (
            Request::Save {
                attempt: asked,
                slot: place,
                certainty,
                response,
            },
            Step::Save(kept),
        )
        | (
            Request::Submit {
                attempt: asked,
                slot: place,
                certainty,
                response,
            },
            Step::Submit(kept),
        ) => {
            is_same(attempt, *asked)
                && slot == *place
                && same_answer(&kept.answer, response)
                && kept.certainty == *certainty
        }
        (
            Request::Again {
                attempt: asked,
                slot: place,
            },
            Step::Again,
        ) => is_same(attempt, *asked) && slot == *place,
        (
            Request::Mark {
                attempt: asked,
                slot: place,
                mark: given,
            },
            Step::Mark { mark, .. },
        ) => is_same(attempt, *asked) && slot == *place && mark.0 == given.0,
        _ => false,
    }
}

/// Whether a request ends this attempt in this way.
fn is_end_of(attempt: AttemptId, how: How, request: &Request) -> bool
    ensures { result ≡ is_end_of attempt how request.now }
{
    match (how, request) {
        (How::Finished, Request::Finish { attempt: asked })
        | (How::Finished | How::Abandoned, Request::Settle { attempt: asked }) => {
            is_same(attempt, *asked)
        }
        _ => false,
    }
}

/// Whether a request asks for work at this job.
fn is_work_of(number: u32, request: &Request) -> bool
    ensures { result ≡ is_work_of number request.now }
{
    match request {
        Request::Work { job, .. } => number == *job,
        _ => false,
    }
}

/// Whether the definitions make such an event of a request.
fn makes(request: &Request, event: &Event) -> bool
    ensures { result ≡ makes request.now event.now }
{
    match event {
        Event::Founded { .. } => false,
        Event::Asked { request: kept } => same_request(kept, request),
        Event::Started { quiz, .. } => is_start_of(*quiz, request),
        Event::Acted {
            attempt,
            slot,
            step,
        }
        | Event::Noted {
            attempt,
            slot,
            step,
        } => is_step_of(*attempt, *slot, step, request),
        Event::Ended { attempt, how } => is_end_of(*attempt, *how, request),
        Event::Rebound { job, .. } | Event::Skipped { job, .. } | Event::JobDone { job, .. } => {
            is_work_of(*job, request)
        }
    }
}

/// Whether two keys are the same, or none is there.
fn same_key(one: &Option<Text>, other: &Option<Text>) -> bool
    ensures { result ≡ same_key one.now other.now }
{
    match (one, other) {
        (None, None) => true,
        (Some(one), Some(other)) => one.as_bytes() == other.as_bytes(),
        _ => false,
    }
}

/// Whether a record has the key of what was asked, and an event of the request.
pub(crate) fn owns(ask: &Ask, record: &Record) -> bool
    ensures { result ≡ owns ask.now «record».now }
{
    same_key(&record.key, &ask.key) && makes(&ask.request, &record.event)
}
