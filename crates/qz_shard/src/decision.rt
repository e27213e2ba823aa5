//! What is done with a request: it is refused, it is answered again, or it makes an event.

ghost use Rattle.std.specs.Prelude.{◌≡◌, true, Some, None, IfOk};
ghost use Rattle.qz_index.specs.Keys.{AreKeys};
ghost use Rattle.qz_terms.specs.Cause.{missing_here};
ghost use Rattle.qz_terms.specs.declared.request.Request.TheVariants as request;
ghost use Rattle.qz_book.specs.Held.{IsSound};
ghost use Rattle.qz_shard.specs.Decisions.{IsFate, IsDecision, IsWhole};
ghost use Rattle.qz_shard.specs.Holdings.{is_change};

use crate::fates::{Fate, fate_of_finish, fate_of_settle, fate_of_start};
use crate::keys::{Found, by_key};
use crate::stepping::{fate_of_mark, fate_of_step};
use qz_book::Book;
use qz_grading::{Answer, Refusal, Response, Step};
use qz_index::Keys;
use qz_looks::missing_here;
use qz_terms::{Ask, Event, Plan, Reply, Request, User, forbidden};
use qz_text::{NoMemory, TryCopy};
use std::alloc::Global;

/// What is done with a request.
pub(crate) enum Decision {
    Refused(Refusal),
    /// It stands already, and gets the reply that it got.
    Repeated(Reply),
    /// There is nothing to do.
    Idle,
    /// It makes an event.
    Made(Event),
}

/// A response of its own.
fn response_of(alloc: Global, answer: &Answer, certainty: u8) -> Result<Response, NoMemory>
    ensures { IfOk result (λ r. r ≡ record { answer = answer.now; certainty = certainty }) }
{
    Ok(Response {
        answer: answer.try_copy(alloc)?,
        certainty,
    })
}

/// What a request that may change the list comes to, behind the tests of its key.
fn fate(
    alloc: Global,
    book: &Book,
    moment: u64,
    user: &User,
    plan: &Plan,
    request: &Request,
) -> Result<Fate, NoMemory>
    requires sound { IsSound book.now }
    requires whole { IsWhole plan.now request.now }
    requires change { is_change request.now ≡ true }
    requires there { missing_here book.now user.now request.now ≡ None }
    ensures { IfOk result (IsFate book.now moment user.now plan.now request.now) }
{
    match request {
        Request::Start { quiz } => fate_of_start(alloc, book, moment, user, plan, *quiz),
        Request::Save {
            attempt,
            slot,
            certainty,
            response,
        } => {
            let step = Step::Save(response_of(alloc, response, *certainty)?);
            Ok(fate_of_step(book, moment, user, plan, *attempt, *slot, step))
        }
        Request::Submit {
            attempt,
            slot,
            certainty,
            response,
        } => {
            let step = Step::Submit(response_of(alloc, response, *certainty)?);
            Ok(fate_of_step(book, moment, user, plan, *attempt, *slot, step))
        }
        Request::Again { attempt, slot } => {
            let step = Step::Again;
            Ok(fate_of_step(book, moment, user, plan, *attempt, *slot, step))
        }
        Request::Finish { attempt } => { Ok(fate_of_finish(book, moment, user, plan, *attempt)) }
        Request::Mark {
            attempt,
            slot,
            mark,
        } => { Ok(fate_of_mark(book, moment, user, plan, *attempt, *slot, *mark)) }
        Request::Settle { attempt } => { Ok(fate_of_settle(book, moment, user, plan, *attempt)) }
        Request::User { .. }
        | Request::Group { .. }
        | Request::Member { .. }
        | Request::Import { .. }
        | Request::Edit { .. }
        | Request::Tune { .. }
        | Request::Quiz { .. }
        | Request::Slot { .. }
        | Request::Ready { .. }
        | Request::Remax { .. }
        | Request::Policy { .. }
        | Request::Times { .. }
        | Request::Override { .. }
        | Request::Regrade { .. }
        | Request::Work { .. }
        | Request::Live { .. }
        | Request::Jobs
        | Request::View { .. }
        | Request::Total { .. }
        | Request::Page { .. }
        | Request::Grade { .. }
        | Request::Report { .. }
        | Request::Bank { .. } => unreachable!(),
    }
}

/// What is done with a request. The causes for which it may be refused are tested in their order: the rule of callers, what isn't
/// there, the key, and what lies with the attempt.
pub(crate) fn decide(
    alloc: Global,
    book: &Book,
    keys: &Keys,
    moment: u64,
    user: &User,
    plan: &Plan,
    ask: &Ask,
) -> Result<Decision, NoMemory>
    requires sound { IsSound book.now }
    requires keys { AreKeys keys.now book.now }
    requires whole { IsWhole plan.now ask.now.request }
    requires change { is_change ask.now.request ≡ true }
    ensures { IfOk result (IsDecision book.now moment user.now plan.now ask.now) }
{
    if let Some(refusal) = forbidden(user, &ask.request) {
        return Ok(Decision::Refused(refusal));
    }
    if let Some(refusal) = missing_here(book, user, &ask.request) {
        return Ok(Decision::Refused(refusal));
    }
    match by_key(alloc, book, keys, user.number, ask)? {
        Some(Found::Same(reply)) => return Ok(Decision::Repeated(reply)),
        Some(Found::Other(place)) => return Ok(Decision::Refused(Refusal::KeyReused { place })),
        None => {}
    }
    match fate(alloc, book, moment, user, plan, &ask.request)? {
        Ok(Some(event)) => Ok(Decision::Made(event)),
        Ok(None) => Ok(Decision::Idle),
        Err(refusal) => Ok(Decision::Refused(refusal)),
    }
}
