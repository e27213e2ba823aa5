//! What is asked of one shard without a plan: which attempts go on, and steps of jobs.

ghost use Rattle.std.specs.Prelude.{◌≡◌, ◌<◌, ◌≤◌, Some, MatchResult};
ghost use Rattle.qz_keeper.specs.Lists.{Looks};
ghost use Rattle.qz_school.specs.Answering.{MayBeAsked};
ghost use Rattle.qz_terms.specs.declared.reply.Reply.TheVariants as reply;
ghost use Rattle.qz_terms.specs.Answer.{live_answer};
ghost use Rattle.qz_terms.specs.Catalog.{user_of};
ghost use Rattle.qz_terms.specs.Legal.{IsLegal};
ghost use Rattle.qz_turn.specs.Turns.{UnderKey};
ghost use Rattle.qz_catalog_turns.specs.Turning.{TurnCalls};
ghost use Rattle.qz_visit.specs.Visits.{IsOf};
ghost use Rattle.qz_visit.specs.Ways.{AreTied, Stepped, refused_with};

use qz_catalog_turns::{Records, Replied, job};
use qz_disks::Keeper;
use qz_grading::{AttemptId, Refusal};
use qz_shard_turns::{Part, live, work};
use qz_terms::{Ask, Done, Reply, User};
use qz_turn::{Pass, Turns};
use std::alloc::Global;
use std::sync::Wait;

/// Which attempt of a shard, after this one, hasn't ended.
pub(crate) fn answer_live<K: Keeper, R: Wait>(
    parts: &Turns<Part<K>>,
    rt: &R,
    pass: &mut Pass<Part<K>>,
    alloc: Global,
    attempt: AttemptId,
) -> Reply
    requires own { IsOf parts.now.lock pass.old }
    ensures { UnderKey parts.now.lock (λ place. TurnCalls (IsLegal place.index place.count)
        reply.Refused (Looks (λ h told. told ≡ live_answer h attempt)) pass.old pass.new result) }
{
    match live(parts, rt, pass, alloc, attempt) {
        Ok((place, attempt)) => Reply::Ok {
            place,
            done: Done::Live { attempt },
        },
        Err(refusal) => Reply::Refused(refusal),
    }
}

/// Takes a step of a job in a shard, for this user: a worker has the number 0. The catalogue gives the job; one that isn't there is `Unknown`.
pub(crate) fn answer_work<K: Keeper, R: Wait>(
    records: &Turns<Records<K>>,
    parts: &Turns<Part<K>>,
    rt: &R,
    seen: &mut Pass<Records<K>>,
    pass: &mut Pass<Part<K>>,
    alloc: Global,
    user: &User,
    number: u32,
    ask: &Ask,
    moment: u64,
) -> Result<Replied, Refusal>
    requires tied { AreTied records.now.lock parts.now.lock seen.old pass.old }
    requires asked { MayBeAsked ask.now moment }
    requires known { user_of seen.old.seen.list ask.now.caller ≡ Some user.now }
    ensures { MatchResult result
        (Stepped seen.old seen.new pass.old pass.new moment ask.now user.now number)
        (λ r. Stepped seen.old seen.new pass.old pass.new moment ask.now user.now number
        (refused_with r)) }
{
    let job = job(records, rt, seen, alloc, number)?;
    Ok(work(
        records,
        parts,
        rt,
        seen,
        pass,
        alloc,
        user.number,
        &job,
        moment,
    ))
}
