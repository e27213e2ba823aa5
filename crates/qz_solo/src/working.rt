//! What a shard tells of its attempts, and how it takes a step of a job.

ghost use Rattle.std.specs.Prelude.{◌≡◌, ◌<◌};
ghost use Rattle.qz_keeper.specs.Lists.{EachMayStand, Looks};
ghost use Rattle.qz_shard.specs.Holdings.{IsWorkable};
ghost use Rattle.qz_shard.specs.Works.{IsWorked};
ghost use Rattle.qz_terms.specs.Answer.{live_answer};
ghost use Rattle.qz_school.specs.Answering.{PartAnswers};

use qz_disks::Keeper;
use qz_grading::{AttemptId, Steps};
use qz_shard::Shard;
use qz_terms::{Done, Job, Reply};
use std::alloc::Global;
use std::marker::Brand;
use std::sync::ledger::{Blank, Ledger};

/// Which attempt of a shard, after this one, hasn't ended.
pub(crate) fn live<K: Keeper>(shard: &mut Shard<K>, alloc: Global, after: AttemptId) -> Reply
    ensures { PartAnswers K.sound K.faults (Looks (λ h told. told ≡ live_answer h after))
        shard.old shard.new result }
{
    match shard.live(alloc, after) {
        Ok(attempt) => Reply::Ok {
            place: shard.len(),
            done: Done::Live { attempt },
        },
        Err(refusal) => Reply::Refused(refusal),
    }
}

/// The shard's reply to a step of a job, whose gradings are counted.
fn worked<K: Keeper, L: Ledger>(
    blank: Blank,
    shard: &mut Shard<K>,
    alloc: Global,
    caller: u32,
    job: &Job,
    moment: u64,
) -> Reply
    requires name { blank.name ≡ L.name }
    requires parts { blank.parts ≡ L.parts }
    requires some_part { 0 < blank.parts }
    requires workable { EachMayStand (λ h. IsWorkable h job.now moment) shard.old.held }
    ensures { PartAnswers K.sound K.faults (λ h told g. IsWorked h moment caller job.now told g)
        shard.old shard.new result }
{
    let mut steps = Steps::<L>::open(blank);
    shard.work(alloc, caller, job, moment, &mut steps)
}

/// The shard's reply to a step of a job.
pub(crate) fn work<K: Keeper>(
    shard: &mut Shard<K>,
    alloc: Global,
    caller: u32,
    job: &Job,
    moment: u64,
) -> Reply
    requires { EachMayStand (λ h. IsWorkable h job.now moment) shard.old.held }
    ensures { PartAnswers K.sound K.faults (λ h told g. IsWorked h moment caller job.now told g)
        shard.old shard.new result }
{
    worked::<K, Brand>(Blank::new(1), shard, alloc, caller, job, moment)
}
