//! How a shard answers under a catalogue.

ghost use Rattle.std.specs.Prelude.{◌≡◌, ◌<◌, ◌≤◌, true, Some, None, [], length, unwrap_or};
ghost use Rattle.qz_terms.specs.declared.limits.TheConstants.{LONGEST_KEY};
ghost use Rattle.qz_keeper.specs.Lists.{EachMayStand};
ghost use Rattle.qz_serial.specs.Calls.{ShardAnswers};
ghost use Rattle.qz_shard.specs.Answering.{IsAnswered};
ghost use Rattle.qz_shard.specs.Holdings.{is_look};
ghost use Rattle.qz_terms.specs.Answer.{attempt_named};
ghost use Rattle.qz_terms.specs.Catalog.{user_of};
ghost use Rattle.qz_terms.specs.Cause.{forbidden};
ghost use Rattle.qz_terms.specs.Legal.{AllAgree};
ghost use Rattle.qz_school.specs.Answering.{IsPosed, MayBeAsked, PartAnswers, PartTells};
ghost use Rattle.qz_school.specs.Planning.{ArePlanned, asks_shard};

use qz_catalog::CatalogCore;
use qz_disks::Keeper;
use qz_grading::{AttemptId, Refusal, Steps};
use qz_shard::{Older, Shard};
use qz_terms::{Ask, Plan, Reply, Request, User};
use std::alloc::Global;
use std::marker::Brand;
use std::sync::ledger::{Blank, Ledger};

/// Whether a request only looks at a shard.
fn looks(request: &Request) -> bool
    ensures { result ≡ is_look request.now }
{
    matches!(
        request,
        Request::View { .. } | Request::Total { .. } | Request::Page { .. } | Request::Grade { .. }
    )
}

/// The shard's reply to a request under a plan that isn't older than a job that is done there.
fn answered<K: Keeper, L: Ledger>(
    blank: Blank,
    shard: &mut Shard<K>,
    alloc: Global,
    user: &User,
    plan: &Plan,
    ask: &Ask,
    moment: u64,
) -> Reply
    requires name { blank.name ≡ L.name }
    requires parts { blank.parts ≡ L.parts }
    requires some_part { 0 < blank.parts }
    requires served { asks_shard ask.now.request ≡ true }
    requires posed { EachMayStand (IsPosed shard.old.index shard.old.count
        user.now plan.now ask.now moment) shard.old.held }
    requires brief { length (unwrap_or ask.now.key []) ≤ LONGEST_KEY }
    ensures { PartAnswers K.sound K.faults
        (λ h told g. IsAnswered h moment user.now plan.now ask.now told g)
        shard.old shard.new result }
{
    let mut steps = Steps::<L>::open(blank);
    if looks(&ask.request) {
        return shard.look(alloc, user, plan, ask, moment, &mut steps);
    }
    match shard.apply(alloc, user, plan, ask, moment, &mut steps) {
        Ok(reply) => reply,
        Err(Older { .. }) => unreachable!(),
    }
}

/// The shard's reply to a request under the plan that its catalogue gives for it.
pub(crate) fn told_under<K: Keeper>(
    catalog: &CatalogCore,
    shard: &mut Shard<K>,
    alloc: Global,
    user: &User,
    plan: &Plan,
    ask: &Ask,
    moment: u64,
) -> Reply
    requires asked { MayBeAsked ask.now moment }
    requires served { asks_shard ask.now.request ≡ true }
    requires known { user_of catalog.now ask.now.caller ≡ Some user.now }
    requires planned { ArePlanned catalog.now shard.old user.now ask.now.request plan.now }
    requires agree { EachMayStand (AllAgree catalog.now) shard.old.held }
    ensures answers { PartAnswers K.sound K.faults
        (ShardAnswers catalog.now moment user.now ask.now) shard.old shard.new result }
    ensures agree { EachMayStand (AllAgree catalog.now) shard.new.held }
{
    // Whatever the two hold is legal.
    let _records = catalog.len();
    let _length = shard.len();
    answered::<K, Brand>(Blank::new(1), shard, alloc, user, plan, ask, moment)
}

/// The shard's reply to a request that names an attempt. One that isn't there is `Unknown`.
pub(crate) fn told_of_attempt<K: Keeper>(
    catalog: &CatalogCore,
    shard: &mut Shard<K>,
    alloc: Global,
    user: &User,
    attempt: AttemptId,
    ask: &Ask,
    moment: u64,
) -> Result<Reply, Refusal>
    requires asked { MayBeAsked ask.now moment }
    requires named { attempt_named ask.now.request ≡ Some attempt }
    requires known { user_of catalog.now ask.now.caller ≡ Some user.now }
    requires may { forbidden user.now ask.now.request ≡ None }
    requires agree { EachMayStand (AllAgree catalog.now) shard.old.held }
    ensures answers { PartTells K.sound K.faults
        (ShardAnswers catalog.now moment user.now ask.now) shard.old shard.new result }
    ensures agree { EachMayStand (AllAgree catalog.now) shard.new.held }
{
    let quiz = shard.quiz_of(alloc, attempt)?;
    let plan = catalog.plan(alloc, quiz, attempt.user, false)?;
    Ok(told_under(catalog, shard, alloc, user, &plan, ask, moment))
}
