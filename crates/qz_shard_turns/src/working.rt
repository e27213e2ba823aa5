//! A step of a job in a shard, in one turn.

ghost use Rattle.std.specs.Prelude.{◌≡◌, ◌≢◌, ◌<◌, [], Some, None};
ghost use Rattle.qz_keeper.specs.Lists.{EachMayStand, OneCall};
ghost use Rattle.qz_keeper.specs.Recording.{GoesOn, HasFailed};
ghost use Rattle.qz_shard.specs.Holdings.{IsWorkable};
ghost use Rattle.qz_shard.specs.Keeping.{IsSamePart};
ghost use Rattle.qz_shard.specs.Works.{IsWorked};
ghost use Rattle.qz_terms.specs.declared.reply.Reply.TheVariants as reply;
ghost use Rattle.qz_terms.specs.Legal.{IsLegal};
ghost use Rattle.qz_turn.specs.Turns.{UnderKey};
ghost use Rattle.qz_catalog_turns.specs.Owning.{OneReply, ReplyEnds, TurnReplies};
ghost use Rattle.qz_shard_turns.specs.Tying.{IsTiedTo};
ghost use Rattle.qz_shard_turns.specs.Jobs.{CanWork};

use crate::part::Part;
use qz_catalog_turns::{OwnRecord, Records, Replied};
use qz_disks::Keeper;
use qz_grading::Steps;
use qz_shard::Shard;
use qz_terms::{Job, Reply};
use qz_turn::{Errand, Pass, Turns};
use std::alloc::Global;
use std::marker::Brand;
use std::sync::Wait;
use std::sync::ledger::{Blank, Ledger};

/// The reply to a step of a job over a list in which none is in doubt, and what became of the record that it put. Its gradings are counted.
fn applied<K: Keeper, L: Ledger>(
    blank: Blank,
    shard: &mut Shard<K>,
    alloc: Global,
    caller: u32,
    job: &Job,
    moment: u64,
) -> Replied
    requires name { blank.name ≡ L.name }
    requires parts { blank.parts ≡ L.parts }
    requires some_part { 0 < blank.parts }
    requires settled { shard.old.held.doubt ≡ None }
    requires workable { EachMayStand (λ h. IsWorkable h job.now moment) shard.old.held }
    ensures answer { ReplyEnds (HasFailed (K.sound shard.old.keeper)
        (K.faults shard.old.keeper) (K.faults shard.new.keeper)) reply.Refused
        (λ h told g. IsWorked h moment caller job.now told g)
        shard.old.held shard.new.held result.reply result.own }
    ensures shard { IsSamePart shard.old shard.new }
    ensures goes_on { GoesOn (K.sound shard.old.keeper) (K.sound shard.new.keeper)
        (K.faults shard.old.keeper) (K.faults shard.new.keeper) }
{
    let found = shard.len();
    let mut steps = Steps::<L>::open(blank);
    let reply = shard.work(alloc, caller, job, moment, &mut steps);
    let left = shard.len();
    let own = OwnRecord::of(shard.is_settled(), found, left);
    Replied { reply, own }
}

/// The list is mended, and then the step is taken. Where the list can't be mended nothing is put.
fn worked<K: Keeper, L: Ledger>(
    blank: Blank,
    shard: &mut Shard<K>,
    alloc: Global,
    caller: u32,
    job: &Job,
    moment: u64,
) -> Replied
    requires name { blank.name ≡ L.name }
    requires parts { blank.parts ≡ L.parts }
    requires some_part { 0 < blank.parts }
    requires workable { EachMayStand (λ h. IsWorkable h job.now moment) shard.old.held }
    ensures answer { OneReply (HasFailed (K.sound shard.old.keeper)
        (K.faults shard.old.keeper) (K.faults shard.new.keeper)) reply.Refused
        (λ h told g. IsWorked h moment caller job.now told g)
        shard.old.held shard.new.held result.reply result.own }
    ensures shard { IsSamePart shard.old shard.new }
    ensures goes_on { GoesOn (K.sound shard.old.keeper) (K.sound shard.new.keeper)
        (K.faults shard.old.keeper) (K.faults shard.new.keeper) }
{
    match shard.mend(alloc) {
        Ok(()) => applied::<K, L>(blank, shard, alloc, caller, job, moment),
        Err(why) => Replied {
            reply: Reply::Refused(why),
            own: OwnRecord::Absent,
        },
    }
}

/// A step of a job, with a note of what its caller has seen of the catalogue, and the reply.
#[derive(Drop)]
struct Working<'r, 'j, K: Keeper> {
    alloc: Global,
    records: &'r Turns<Records<K>>,
    note: Option<Pass<Records<K>>>,
    caller: u32,
    job: &'j Job,
    moment: u64,
    told: Option<Replied>,
}

impl<'r, 'j, K: Keeper> Errand<Part<K>> for Working<'r, 'j, K> {
    ghost use Rattle.std.specs.Prelude.{◌≡◌};
    ghost use Rattle.qz_shard_turns.specs.Posing.{IsNoteOf, list_seen};
    ghost use Rattle.qz_shard_turns.specs.Jobs.{CanWork, DidWork};

    ghost can = { λ place _ it. (place.note.lock ≡ it.records.now.lock)
        × (IsNoteOf it.records.now.lock it.note)
        × (CanWork (list_seen it.note) it.caller it.job.now it.moment) };

    ghost does = { λ it before after done. DidWork K.faults it.moment it.caller it.job.now
        before.shard after.shard done.told };

    fn go(&mut self, part: &mut Part<K>) {
        let Some(note) = self.note.take() else {
            unreachable!()
        };
        self.records.join(&mut part.note, note);
        let _found = part.shard.len();
        let told = worked::<K, Brand>(
            Blank::new(1),
            &mut part.shard,
            self.alloc,
            self.caller,
            self.job,
            self.moment,
        );
        let _left = part.shard.len();
        self.told = Some(told);
    }
}

/// Takes a job's first target in a shard, or says that the job is done there, at this moment by the clock, in seconds since 1970. The job is
/// that which the catalogue gave over what its pass has seen, and the caller is the user who asks, or 0 for a worker. With the reply it is
/// told what became of the step's own record.
pub fn work<K: Keeper, R: Wait>(
    records: &Turns<Records<K>>,
    parts: &Turns<Part<K>>,
    rt: &R,
    seen: &mut Pass<Records<K>>,
    pass: &mut Pass<Part<K>>,
    alloc: Global,
    caller: u32,
    job: &Job,
    moment: u64,
) -> Replied
    requires seen { seen.old.lock ≡ records.now.lock }
    requires pass { pass.old.lock ≡ parts.now.lock }
    requires number { pass.old.numbers ≢ [] }
    requires tie { IsTiedTo parts.now.lock records.now.lock }
    requires job { CanWork seen.old.seen.list caller job.now moment }
    ensures answer { UnderKey parts.now.lock (λ place. TurnReplies (IsLegal place.index place.count)
        reply.Refused (λ h told g. IsWorked h moment caller job.now told g)
        pass.old pass.new result.reply result.own) }
    ensures seen { seen.new ≡ seen.old }
{
    let note = records.note(seen);
    let mut errand = Working {
        alloc,
        records,
        note: Some(note),
        caller,
        job,
        moment,
        told: None,
    };
    parts.turn(rt, pass, &mut errand);
    let Working { told, .. } = errand;
    match told {
        Some(told) => told,
        None => unreachable!(),
    }
}
