//! What a worker asks.

ghost use Rattle.std.specs.Prelude.{◌≡◌, ℕ, ◌≤◌, [], ◌∷◌, true, length, MatchResult, MatchOption};
ghost use Rattle.qz_terms.specs.declared.reply.Reply.TheVariants as reply;
ghost use Rattle.qz_terms.specs.Catalog.{jobs, worker};
ghost use Rattle.qz_terms.specs.Cause.{may_ask};
ghost use Rattle.qz_terms.specs.History.{is_done};
ghost use Rattle.qz_terms.specs.Serial.{part_list};
ghost use Rattle.qz_regrading.specs.Parts.{IsWork, LooksBehind, MeetsQuietly, MeetsSettling, faults_told};
ghost use Rattle.qz_regrading.specs.Passes.{IsClean, IsRefused, Meets};
ghost use Rattle.qz_regrading.specs.Workers.{CountsFault, KeepsParts, ServesWorkers, TakesWork, TellsWorker, tells_done};
ghost use Rattle.qz_regrading.specs.Working.{Works, WorksSo, next_of, told_by};

use crate::met::Met;
use qz_grading::{AttemptId, Refusal};
use qz_links::Clock;
use qz_terms::{Ask, Caller, Desk, Done, GREATEST_MOMENT, Reply, Request};
use std::alloc::Global;

/// Asks a request of a worker at the moment that the clock tells, or at the greatest where it tells a later one.
fn ask<D: Desk, C: Clock>(alloc: Global, desk: &mut D, clock: &mut C, request: Request) -> Reply
    requires takes { TakesWork D.takes }
    requires serves { ServesWorkers D.lists D.faults D.answers }
    requires may { may_ask worker request ≡ true }
    ensures tells { TellsWorker (D.lists desk.old) (D.lists desk.new) request result }
    ensures counts { CountsFault (D.faults desk.old) (D.faults desk.new) result }
    ensures works { Works C.tells D.answers (record { desk = desk.old; clock = clock.old })
        ((record { request = request; reply = result }) ∷ [])
        (record { desk = desk.new; clock = clock.new }) }
{
    let asked = Ask {
        caller: Caller::Worker,
        key: None,
        request,
    };
    let moment = clock.now().min(GREATEST_MOMENT);
    desk.ask(alloc, &asked, moment)
}

/// Whether work on a job is over in a shard.
fn is_over(done: &Done) -> bool
    ensures { result ≡ tells_done done.now }
{
    matches!(done, Done::JobDone { .. } | Done::AlreadyDone { .. })
}

/// Works on a job in a shard until it is done there, or work is refused. After 2^64 - 1 steps that didn't end it, which no job has, that
/// counts as refused.
pub fn work<D: Desk, C: Clock>(
    alloc: Global,
    desk: &mut D,
    clock: &mut C,
    job: u32,
    shard: u8,
) -> Result<(), Refusal>
    requires takes { TakesWork D.takes }
    requires serves { ServesWorkers D.lists D.faults D.answers }
    ensures keeps { KeepsParts (D.lists desk.old) (D.lists desk.new) }
    ensures later { D.faults desk.old ≤ D.faults desk.new }
    ensures ends { MatchResult result
        (λ _. is_done (part_list (D.lists desk.new) shard) job ≡ true)
        (IsRefused (D.lists desk.new) (D.faults desk.old) (D.faults desk.new) shard) }
    ensures works { WorksSo C.tells D.answers (IsWork (faults_told result))
        (record { desk = desk.old; clock = clock.old })
        (record { desk = desk.new; clock = clock.new }) }
{
    for _ in 0..u64::MAX {
        match ask(alloc, desk, clock, Request::Work { job, shard }) {
            Reply::Ok { done, .. } => {
                if is_over(&done) {
                    return Ok(());
                }
            }
            Reply::Refused(why) => return Err(why),
        }
    }
    Err(Refusal::TooMany { limit: u32::MAX })
}

/// The attempt that a look at a shard told, if any.
fn going(done: &Done) -> Option<AttemptId>
    ensures { (place : ℕ) → next_of (told_by (reply.Ok place done.now)) ≡ result }
{
    if let Done::Live { attempt } = done {
        *attempt
    } else {
        None
    }
}

/// The first attempt of a shard, after this one, that hasn't ended.
pub fn live_after<D: Desk, C: Clock>(
    alloc: Global,
    desk: &mut D,
    clock: &mut C,
    shard: u8,
    attempt: AttemptId,
) -> Result<Option<AttemptId>, Refusal>
    requires takes { TakesWork D.takes }
    requires serves { ServesWorkers D.lists D.faults D.answers }
    ensures keeps { KeepsParts (D.lists desk.old) (D.lists desk.new) }
    ensures later { D.faults desk.old ≤ D.faults desk.new }
    ensures refused { MatchResult result (λ _. Unit {0})
        (λ why. CountsFault (D.faults desk.old) (D.faults desk.new) (reply.Refused why)) }
    ensures looks { LooksBehind C.tells D.answers D.lists shard attempt
        (record { desk = desk.old; clock = clock.old })
        (record { desk = desk.new; clock = clock.new }) result }
{
    match ask(alloc, desk, clock, Request::Live { shard, attempt }) {
        Reply::Ok { done, .. } => Ok(going(&done)),
        Reply::Refused(why) => Err(why),
    }
}

/// Settles an attempt.
pub fn settle<D: Desk, C: Clock>(
    alloc: Global,
    desk: &mut D,
    clock: &mut C,
    met: &mut Met,
    attempt: AttemptId,
)
    requires takes { TakesWork D.takes }
    requires serves { ServesWorkers D.lists D.faults D.answers }
    ensures meets { Meets (D.lists desk.old) (D.lists desk.new)
        (D.faults desk.old) (D.faults desk.new) met.old met.new }
    ensures works { WorksSo C.tells D.answers (MeetsSettling attempt met.old met.new)
        (record { desk = desk.old; clock = clock.old })
        (record { desk = desk.new; clock = clock.new }) }
{
    let reply = ask(alloc, desk, clock, Request::Settle { attempt });
    if let Reply::Refused(why) = &reply {
        met.refuse(*why);
    }
}

/// How many jobs the catalogue has.
pub fn count_jobs<D: Desk, C: Clock>(
    alloc: Global,
    desk: &mut D,
    clock: &mut C,
    met: &mut Met,
) -> Option<u32>
    requires takes { TakesWork D.takes }
    requires serves { ServesWorkers D.lists D.faults D.answers }
    ensures meets { Meets (D.lists desk.old) (D.lists desk.new)
        (D.faults desk.old) (D.faults desk.new) met.old met.new }
    ensures counted { MatchOption result (IsClean met.new → ⊥)
        (λ count. count ≡ length (jobs (D.lists desk.new).records.list)) }
    ensures works { WorksSo C.tells D.answers (MeetsQuietly met.old met.new)
        (record { desk = desk.old; clock = clock.old })
        (record { desk = desk.new; clock = clock.new }) }
{
    match ask(alloc, desk, clock, Request::Jobs) {
        Reply::Ok {
            done: Done::Jobs { count },
            ..
        } => Some(count),
        Reply::Ok { .. } => {
            met.fall_short();
            None
        }
        Reply::Refused(why) => {
            met.refuse(why);
            None
        }
    }
}
