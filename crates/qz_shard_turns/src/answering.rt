//! What is answered by a shard under a plan that was read before, in one turn.

ghost use Rattle.std.specs.Prelude.{◌≡◌, ◌≢◌, ◌<◌, ◌≤◌, [], Some, None, true, length, unwrap_or, IfOk, IfErr};
ghost use Rattle.qz_terms.specs.declared.limits.TheConstants.{LONGEST_KEY};
ghost use Rattle.qz_keeper.specs.Lists.{EachMayStand, OneCall};
ghost use Rattle.qz_keeper.specs.Recording.{GoesOn, HasFailed};
ghost use Rattle.qz_serial.specs.Calls.{ShardAnswers};
ghost use Rattle.qz_shard.specs.Holdings.{IsAsked, StartsHere, is_look};
ghost use Rattle.qz_shard.specs.Keeping.{IsOlder, IsSamePart, shard_over};
ghost use Rattle.qz_school.specs.Planning.{asks_shard};
ghost use Rattle.qz_terms.specs.declared.reply.Reply.TheVariants as reply;
ghost use Rattle.qz_terms.specs.Legal.{IsLegal};
ghost use Rattle.qz_turn.specs.Turns.{UnderKey};
ghost use Rattle.qz_catalog_turns.specs.Owning.{OneReply, ReplyEnds, TurnReplies};
ghost use Rattle.qz_shard_turns.specs.Posing.{CanPose, IsAnsweredNow, TurnIsOlder};
ghost use Rattle.qz_shard_turns.specs.Tying.{IsTiedTo};

use crate::part::Part;
use qz_catalog_turns::{OwnRecord, Records, Replied};
use qz_disks::Keeper;
use qz_grading::Steps;
use qz_shard::{Older, Shard};
use qz_terms::{Ask, Plan, Reply, Request, User};
use qz_turn::{Errand, Pass, Turns};
use std::alloc::Global;
use std::marker::Brand;
use std::sync::Wait;
use std::sync::ledger::{Blank, Ledger};

/// Whether a request only looks at a shard.
fn looks(request: &Request) -> bool
    ensures { result ≡ is_look request.now }
{
    matches!(
        request,
        Request::View { .. } | Request::Total { .. } | Request::Page { .. } | Request::Grade { .. }
    )
}

/// The shard's reply to a request under a plan, or that the plan is older than a job that is done there.
fn shard_reply<K: Keeper, L: Ledger>(
    blank: Blank,
    shard: &mut Shard<K>,
    alloc: Global,
    user: &User,
    plan: &Plan,
    ask: &Ask,
    moment: u64,
) -> Result<Reply, Older>
    requires name { blank.name ≡ L.name }
    requires parts { blank.parts ≡ L.parts }
    requires some_part { 0 < blank.parts }
    requires served { asks_shard ask.now.request ≡ true }
    requires asked { EachMayStand (λ h. IsAsked h plan.now ask.now moment) shard.old.held }
    requires here { StartsHere (shard_over shard.old []) user.now plan.now ask.now.request }
    requires brief { length (unwrap_or ask.now.key []) ≤ LONGEST_KEY }
    ensures answer { IfOk result (λ told. OneCall (HasFailed (K.sound shard.old.keeper)
        (K.faults shard.old.keeper) (K.faults shard.new.keeper)) reply.Refused
        (IsAnsweredNow moment user.now plan.now ask.now) shard.old.held shard.new.held told) }
    ensures older { IfErr result (λ o. IsOlder plan.now ask.now.request
        shard.old.held shard.new.held o.floor) }
    ensures shard { IsSamePart shard.old shard.new }
    ensures goes_on { GoesOn (K.sound shard.old.keeper) (K.sound shard.new.keeper)
        (K.faults shard.old.keeper) (K.faults shard.new.keeper) }
{
    let mut steps = Steps::<L>::open(blank);
    if looks(&ask.request) {
        return Ok(shard.look(alloc, user, plan, ask, moment, &mut steps));
    }
    shard.apply(alloc, user, plan, ask, moment, &mut steps)
}

/// The reply over a list in which none is in doubt, and what became of the record that the request put; or that the plan is older.
fn applied<K: Keeper, L: Ledger>(
    blank: Blank,
    shard: &mut Shard<K>,
    alloc: Global,
    user: &User,
    plan: &Plan,
    ask: &Ask,
    moment: u64,
) -> Result<Replied, Older>
    requires name { blank.name ≡ L.name }
    requires parts { blank.parts ≡ L.parts }
    requires some_part { 0 < blank.parts }
    requires settled { shard.old.held.doubt ≡ None }
    requires served { asks_shard ask.now.request ≡ true }
    requires asked { EachMayStand (λ h. IsAsked h plan.now ask.now moment) shard.old.held }
    requires here { StartsHere (shard_over shard.old []) user.now plan.now ask.now.request }
    requires brief { length (unwrap_or ask.now.key []) ≤ LONGEST_KEY }
    ensures answer { IfOk result (λ told. ReplyEnds (HasFailed (K.sound shard.old.keeper)
        (K.faults shard.old.keeper) (K.faults shard.new.keeper)) reply.Refused
        (IsAnsweredNow moment user.now plan.now ask.now) shard.old.held shard.new.held
        told.reply told.own) }
    ensures older { IfErr result (λ o. IsOlder plan.now ask.now.request
        shard.old.held shard.new.held o.floor) }
    ensures shard { IsSamePart shard.old shard.new }
    ensures goes_on { GoesOn (K.sound shard.old.keeper) (K.sound shard.new.keeper)
        (K.faults shard.old.keeper) (K.faults shard.new.keeper) }
{
    let found = shard.len();
    match shard_reply::<K, L>(blank, shard, alloc, user, plan, ask, moment) {
        Ok(reply) => {
            let left = shard.len();
            let own = OwnRecord::of(shard.is_settled(), found, left);
            Ok(Replied { reply, own })
        },
        Err(older) => Err(older),
    }
}

/// The list is mended, and then the request is answered under the plan, or the plan is older. Where the list can't be mended nothing is
/// put.
fn answered<K: Keeper, L: Ledger>(
    blank: Blank,
    shard: &mut Shard<K>,
    alloc: Global,
    user: &User,
    plan: &Plan,
    ask: &Ask,
    moment: u64,
) -> Result<Replied, Older>
    requires name { blank.name ≡ L.name }
    requires parts { blank.parts ≡ L.parts }
    requires some_part { 0 < blank.parts }
    requires served { asks_shard ask.now.request ≡ true }
    requires asked { EachMayStand (λ h. IsAsked h plan.now ask.now moment) shard.old.held }
    requires here { StartsHere (shard_over shard.old []) user.now plan.now ask.now.request }
    requires brief { length (unwrap_or ask.now.key []) ≤ LONGEST_KEY }
    ensures answer { IfOk result (λ told. OneReply (HasFailed (K.sound shard.old.keeper)
        (K.faults shard.old.keeper) (K.faults shard.new.keeper)) reply.Refused
        (IsAnsweredNow moment user.now plan.now ask.now) shard.old.held shard.new.held
        told.reply told.own) }
    ensures older { IfErr result (λ o. IsOlder plan.now ask.now.request
        shard.old.held shard.new.held o.floor) }
    ensures shard { IsSamePart shard.old shard.new }
    ensures goes_on { GoesOn (K.sound shard.old.keeper) (K.sound shard.new.keeper)
        (K.faults shard.old.keeper) (K.faults shard.new.keeper) }
{
    match shard.mend(alloc) {
        Ok(()) => applied::<K, L>(blank, shard, alloc, user, plan, ask, moment),
        Err(why) => Ok(Replied {
            reply: Reply::Refused(why),
            own: OwnRecord::Absent,
        }),
    }
}

/// A request of a user under a plan, with a note of what its caller has seen of the catalogue, and the reply.
#[derive(Drop)]
struct Answering<'r, 'u, 'p, 'k, K: Keeper> {
    alloc: Global,
    records: &'r Turns<Records<K>>,
    note: Option<Pass<Records<K>>>,
    user: &'u User,
    plan: &'p Plan,
    ask: &'k Ask,
    moment: u64,
    told: Option<Result<Replied, Older>>,
}

impl<'r, 'u, 'p, 'k, K: Keeper> Errand<Part<K>> for Answering<'r, 'u, 'p, 'k, K> {
    ghost use Rattle.std.specs.Prelude.{◌≡◌};
    ghost use Rattle.qz_shard_turns.specs.Posing.{CanPose, IsNoteOf, WasAnswered, list_seen};

    ghost can = { λ place seen it. (place.note.lock ≡ it.records.now.lock)
        × (IsNoteOf it.records.now.lock it.note)
        × (CanPose (list_seen it.note) seen.list place.index place.count
        it.user.now it.plan.now it.ask.now it.moment) };

    ghost does = { λ it before after done. WasAnswered K.faults (list_seen it.note)
        it.moment it.user.now it.plan.now it.ask.now before after done.told };

    fn go(&mut self, part: &mut Part<K>) {
        let Some(note) = self.note.take() else {
            unreachable!()
        };
        self.records.join(&mut part.note, note);
        let _found = part.shard.len();
        let told = answered::<K, Brand>(
            Blank::new(1),
            &mut part.shard,
            self.alloc,
            self.user,
            self.plan,
            self.ask,
            self.moment,
        );
        let _left = part.shard.len();
        self.told = Some(told);
    }
}

/// Answers a request to a shard, under the plan that the catalogue gave over what its pass has seen, at this moment by the clock, in seconds
/// since 1970.
///
/// The reply is the answer over the mended list, which goes on from what the pass has seen of it, and with it it is told what became of the
/// request's own record. A start whose plan is older than a job that is done in the shard is `Older`, and puts nothing.
pub fn answer<K: Keeper, R: Wait>(
    records: &Turns<Records<K>>,
    parts: &Turns<Part<K>>,
    rt: &R,
    seen: &mut Pass<Records<K>>,
    pass: &mut Pass<Part<K>>,
    alloc: Global,
    user: &User,
    plan: &Plan,
    ask: &Ask,
    moment: u64,
) -> Result<Replied, Older>
    requires seen { seen.old.lock ≡ records.now.lock }
    requires pass { pass.old.lock ≡ parts.now.lock }
    requires number { pass.old.numbers ≢ [] }
    requires tie { IsTiedTo parts.now.lock records.now.lock }
    requires posed { UnderKey parts.now.lock (λ place. CanPose seen.old.seen.list pass.old.seen.list
        place.index place.count user.now plan.now ask.now moment) }
    ensures answer { UnderKey parts.now.lock (λ place. IfOk result (λ told.
        TurnReplies (IsLegal place.index place.count) reply.Refused
        (ShardAnswers seen.old.seen.list moment user.now ask.now)
        pass.old pass.new told.reply told.own)) }
    ensures older { IfErr result (λ o. TurnIsOlder plan.now ask.now.request
        pass.old pass.new o.floor) }
    ensures seen { seen.new ≡ seen.old }
{
    let note = records.note(seen);
    let mut errand = Answering {
        alloc,
        records,
        note: Some(note),
        user,
        plan,
        ask,
        moment,
        told: None,
    };
    parts.turn(rt, pass, &mut errand);
    let Answering { told, .. } = errand;
    match told {
        Some(told) => told,
        None => unreachable!(),
    }
}
