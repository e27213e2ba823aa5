//! The passes of a worker.

ghost use Rattle.std.specs.Prelude.{length};
ghost use Rattle.qz_regrading.specs.Loops.{LoopEnds, Regrades};
ghost use Rattle.qz_regrading.specs.Parts.{IsPass};
ghost use Rattle.qz_regrading.specs.Passes.{PassEnds};
ghost use Rattle.qz_regrading.specs.Workers.{ServesWorkers, TakesWork};
ghost use Rattle.qz_regrading.specs.Working.{WorksSo};

use crate::met::Met;
use crate::sweep::sweep;
use crate::walk::walk;
use crate::worker::count_jobs;
use crate::{LoopEnd, Signal};
use qz_links::Clock;
use qz_terms::Desk;
use std::alloc::Global;
use std::sync::Wait;

/// One pass: works on each job in each shard, settles the attempts whose time is over, and goes on with the jobs that there are then.
fn pass<D: Desk, C: Clock>(alloc: Global, desk: &mut D, clock: &mut C) -> Met
    requires takes { TakesWork D.takes }
    requires serves { ServesWorkers D.lists D.faults D.answers }
    ensures ends { PassEnds (D.lists desk.new) (D.faults desk.old) (D.faults desk.new) result }
    ensures works { WorksSo C.tells D.answers
        (IsPass (length (D.lists desk.new).parts) result)
        (record { desk = desk.old; clock = clock.old })
        (record { desk = desk.new; clock = clock.new }) }
{
    let mut met = Met::nothing();
    let mut next = walk(alloc, desk, clock, &mut met, 1);
    sweep(alloc, desk, clock, &mut met);
    for _ in 0..u64::MAX {
        match count_jobs(alloc, desk, clock, &mut met) {
            Some(count) if count >= next => next = walk(alloc, desk, clock, &mut met, next),
            Some(_) | None => return met,
        }
    }
    met.fall_short();
    met
}

/// Makes passes until `stop` is seen set, then one more, and tells what that last one came to. Between two passes it rests, for 50 milliseconds
/// at most, so that one who finds nothing to do keeps nobody off the desk.
///
/// The desk takes whatever a worker may ask, at each moment that is allowed, and tells workers what they need; others may ask it in between.
/// Each request is asked at the moment that the clock tells, or at 4,102,444,799 where it tells a later one.
///
/// A pass works on each job of the catalogue in each shard, step by step, until the job is done there; it settles the attempts that haven't
/// ended, where their time is over; then it asks how many jobs there are, and goes on with those that came meanwhile. Where a keeper of the
/// lists fails or memory is wanting, it goes on with the next shard, after a settling with the next attempt, and after the question how
/// many jobs there are it ends.
///
/// With `Done` the desk's lists have each of its catalogue's jobs done in each shard. With `Left` keepers failed in so many requests of the
/// last pass, at least one, by which the desk's count of faults rose. With `Short` no keeper failed in the last pass, but memory was wanting,
/// or the desk refused a request as no school does.
///
/// Nothing but passes changes the desk, one after the other, and each of them searches every shard for attempts to settle, those before the
/// last as well. The call returns no sooner than `stop` was seen set.
pub fn regrade_loop<W: Wait, D: Desk, C: Clock, S: Signal>(
    rt: &W,
    alloc: Global,
    desk: &mut D,
    clock: &mut C,
    stop: &S,
) -> LoopEnd
    requires takes { TakesWork D.takes }
    requires serves { ServesWorkers D.lists D.faults D.answers }
    ensures ends { LoopEnds (D.lists desk.new) (D.faults desk.old) (D.faults desk.new) result }
    ensures regrades { Regrades C.tells D.answers D.lists
        (record { desk = desk.old; clock = clock.old })
        (record { desk = desk.new; clock = clock.new }) result }
    ensures stopped { S.seen_set stop.now }
{
    for _ in rt.forever() {
        if stop.is_set() {
            return pass(alloc, desk, clock).end();
        }
        pass(alloc, desk, clock);
        stop.rest(rt);
    }
    unreachable!()
}
