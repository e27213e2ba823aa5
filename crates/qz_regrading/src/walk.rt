//! Working on jobs in each shard.

ghost use Rattle.std.specs.Prelude.{◌≡◌, ◌↔◌, ◌≤◌, Some, length, IsTrue};
ghost use Rattle.qz_grading.specs.declared.refusal.Thing.TheVariants as thing;
ghost use Rattle.qz_regrading.specs.Parts.{IsWork, MeetsQuietly, faults_of};
ghost use Rattle.qz_regrading.specs.Passes.{AreDone, AreDoneInAll, IsClean, IsRefused, Meets, missing_thing};
ghost use Rattle.qz_regrading.specs.Workers.{KeepsParts, ServesWorkers, TakesWork};
ghost use Rattle.qz_regrading.specs.Working.{WorksSo};

use crate::met::Met;
use crate::worker::work;
use qz_grading::{Refusal, Thing};
use qz_links::Clock;
use qz_terms::{Desk, MOST_SHARDS};
use std::alloc::Global;

/// So many shards are asked for at most, one more than a school has.
pub const SHARDS: u8 = MOST_SHARDS + 1;

/// What isn't there, where that is why a request was refused.
fn missing_thing(why: Refusal) -> Option<Thing>
    ensures { result ≡ missing_thing why }
{
    match why {
        Refusal::Unknown { what } => Some(what),
        _ => None,
    }
}

/// Whether a request was refused since a shard isn't there.
pub(crate) fn is_of_shard(why: &Refusal) -> bool
    ensures { IsTrue result ↔ (missing_thing why.now ≡ Some thing.Shard) }
{
    matches!(why, Refusal::Unknown { what: Thing::Shard })
}

/// How far work came in a shard: the first job that isn't done, and why work on it was refused.
#[derive(Clone, Copy)]
struct JobsEnd {
    next: u32,
    why: Refusal,
}

/// Works on the jobs of a shard in turn, from one on, until work is refused.
fn work_jobs<D: Desk, C: Clock>(
    alloc: Global,
    desk: &mut D,
    clock: &mut C,
    from: u32,
    shard: u8,
) -> JobsEnd
    requires takes { TakesWork D.takes }
    requires serves { ServesWorkers D.lists D.faults D.answers }
    ensures keeps { KeepsParts (D.lists desk.old) (D.lists desk.new) }
    ensures later { D.faults desk.old ≤ D.faults desk.new }
    ensures done { AreDone (D.lists desk.new) shard from result.next }
    ensures refused { IsRefused (D.lists desk.new)
        (D.faults desk.old) (D.faults desk.new) shard result.why }
    ensures works { WorksSo C.tells D.answers (IsWork (faults_of result.why))
        (record { desk = desk.old; clock = clock.old })
        (record { desk = desk.new; clock = clock.new }) }
{
    for job in from..u32::MAX {
        if let Err(why) = work(alloc, desk, clock, job, shard) {
            return JobsEnd { next: job, why };
        }
    }
    JobsEnd {
        next: u32::MAX,
        why: Refusal::TooMany { limit: u32::MAX },
    }
}

/// Works on the jobs of each shard, from one on, and answers the first job that isn't done in each.
///
/// A refusal ends work in its shard alone. A school with more than 64 shards leaves the pass short.
pub fn walk<D: Desk, C: Clock>(
    alloc: Global,
    desk: &mut D,
    clock: &mut C,
    met: &mut Met,
    from: u32,
) -> u32
    requires takes { TakesWork D.takes }
    requires serves { ServesWorkers D.lists D.faults D.answers }
    ensures meets { Meets (D.lists desk.old) (D.lists desk.new)
        (D.faults desk.old) (D.faults desk.new) met.old met.new }
    ensures done { IsClean met.new → AreDoneInAll (D.lists desk.new) from result }
    ensures works { WorksSo C.tells D.answers (MeetsQuietly met.old met.new)
        (record { desk = desk.old; clock = clock.old })
        (record { desk = desk.new; clock = clock.new }) }
{
    let mut next = u32::MAX;
    for shard in 0..SHARDS {
        let end = work_jobs(alloc, desk, clock, from, shard);
        match missing_thing(end.why) {
            Some(Thing::Shard) => return next,
            Some(Thing::Job) => next = next.min(end.next),
            Some(_) | None => met.refuse(end.why),
        }
    }
    if next > from {
        met.fall_short();
    }
    next
}
