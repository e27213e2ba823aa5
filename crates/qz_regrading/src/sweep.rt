//! Settling the attempts whose time is over.

ghost use Rattle.std.specs.Prelude.{◌≡◌, ◌≤◌, false, length};
ghost use Rattle.qz_regrading.specs.Parts.{MeetsIfThere, MeetsSweeping, SearchesShard};
ghost use Rattle.qz_regrading.specs.Passes.{Meets};
ghost use Rattle.qz_regrading.specs.Workers.{ServesWorkers, TakesWork};
ghost use Rattle.qz_regrading.specs.Working.{WorksSo};

use crate::met::Met;
use crate::walk::{SHARDS, is_of_shard};
use crate::worker::{live_after, settle};
use qz_grading::{AttemptId, Refusal};
use qz_links::Clock;
use qz_terms::Desk;
use std::alloc::Global;

/// Whether a shard is there of which this refusal tells. Where it is, the refusal is met.
fn is_there(met: &mut Met, why: &Refusal) -> bool
    ensures { MeetsIfThere why.now met.old met.new result }
{
    let is_there = !is_of_shard(why);
    if is_there {
        met.refuse(*why);
    }
    is_there
}

/// Settles the attempts of a shard that haven't ended, in order, until there are no more or looking for the next is refused. Whether the
/// shard is there, as far as that was told.
fn sweep_shard<D: Desk, C: Clock>(
    alloc: Global,
    desk: &mut D,
    clock: &mut C,
    met: &mut Met,
    shard: u8,
) -> bool
    requires takes { TakesWork D.takes }
    requires serves { ServesWorkers D.lists D.faults D.answers }
    ensures meets { Meets (D.lists desk.old) (D.lists desk.new)
        (D.faults desk.old) (D.faults desk.new) met.old met.new }
    ensures missing { result ≡ false → length (D.lists desk.new).parts ≤ shard }
    ensures works { WorksSo C.tells D.answers (SearchesShard shard met.old met.new)
        (record { desk = desk.old; clock = clock.old })
        (record { desk = desk.new; clock = clock.new }) }
{
    let mut attempt = AttemptId { user: 0, nth: 0 };
    for _looks in 0..u64::MAX {
        match live_after(alloc, desk, clock, shard, attempt) {
            Ok(Some(next)) => {
                settle(alloc, desk, clock, met, next);
                attempt = next;
            }
            Ok(None) => return true,
            Err(why) => return is_there(met, &why),
        }
    }
    true
}

/// Settles the attempts of each shard that haven't ended.
pub fn sweep<D: Desk, C: Clock>(alloc: Global, desk: &mut D, clock: &mut C, met: &mut Met)
    requires takes { TakesWork D.takes }
    requires serves { ServesWorkers D.lists D.faults D.answers }
    ensures meets { Meets (D.lists desk.old) (D.lists desk.new)
        (D.faults desk.old) (D.faults desk.new) met.old met.new }
    ensures works { WorksSo C.tells D.answers
        (MeetsSweeping (length (D.lists desk.new).parts) met.old met.new)
        (record { desk = desk.old; clock = clock.old })
        (record { desk = desk.new; clock = clock.new }) }
{
    for shard in 0..SHARDS {
        if !sweep_shard(alloc, desk, clock, met, shard) {
            return;
        }
    }
}
