//! Requests at the catalogue and at one shard that are answered under the plan of a quiz.

ghost use Rattle.std.specs.Prelude.{◌≡◌, None, Some, MatchResult};
ghost use Rattle.qz_school.specs.Answering.{MayBeAsked};
ghost use Rattle.qz_terms.specs.Answer.{attempt_named};
ghost use Rattle.qz_terms.specs.Cause.{forbidden};
ghost use Rattle.qz_terms.specs.Catalog.{user_of};
ghost use Rattle.qz_turn.specs.Turns.{UnderKey};
ghost use Rattle.qz_visit.specs.Ways.{AreTied, MayPlan, Planned, Tried, refused_with};

use qz_catalog_turns::{Records, Replied, plan};
use qz_disks::Keeper;
use qz_grading::{AttemptId, Refusal};
use qz_shard::Older;
use qz_shard_turns::{Part, answer, quiz_of};
use qz_terms::{Ask, User};
use qz_turn::{Pass, Turns};
use std::alloc::Global;
use std::sync::Wait;

/// Answers a request under the plan of a quiz for a user. The catalogue gives the plan, and where a job that is done in the shard is newer
/// than it, once more. After 2^64 - 1 plans that were older it is `Memory`.
pub(crate) fn answer_planned<K: Keeper, R: Wait>(
    records: &Turns<Records<K>>,
    parts: &Turns<Part<K>>,
    rt: &R,
    seen: &mut Pass<Records<K>>,
    pass: &mut Pass<Part<K>>,
    alloc: Global,
    user: &User,
    quiz: u32,
    owner: u32,
    whole: bool,
    ask: &Ask,
    moment: u64,
) -> Result<Replied, Refusal>
    requires tied { AreTied records.now.lock parts.now.lock seen.old pass.old }
    requires may { UnderKey parts.now.lock (λ place. MayPlan seen.old.seen.list pass.old.seen.list
        place.index place.count user.now quiz owner whole ask.now moment) }
    ensures { MatchResult result
        (Planned seen.old seen.new pass.old pass.new moment ask.now user.now quiz owner whole)
        (λ r. Planned seen.old seen.new pass.old pass.new moment ask.now user.now quiz owner whole
        (refused_with r)) }
{
    for _tries in 0..u64::MAX {
        let plan = plan(records, rt, seen, alloc, quiz, owner, whole)?;
        match answer(
            records, parts, rt, seen, pass, alloc, user, &plan, ask, moment,
        ) {
            Ok(replied) => return Ok(replied),
            Err(Older { .. }) => {}
        }
    }
    Err(Refusal::Memory)
}

/// Answers a request that names an attempt, under the plan of the attempt's quiz for its user. The shard tells the quiz first; an attempt that
/// isn't there is `Unknown`.
pub(crate) fn answer_attempt<K: Keeper, R: Wait>(
    records: &Turns<Records<K>>,
    parts: &Turns<Part<K>>,
    rt: &R,
    seen: &mut Pass<Records<K>>,
    pass: &mut Pass<Part<K>>,
    alloc: Global,
    user: &User,
    attempt: AttemptId,
    ask: &Ask,
    moment: u64,
) -> Result<Replied, Refusal>
    requires tied { AreTied records.now.lock parts.now.lock seen.old pass.old }
    requires asked { MayBeAsked ask.now moment }
    requires known { user_of seen.old.seen.list ask.now.caller ≡ Some user.now }
    requires may { forbidden user.now ask.now.request ≡ None }
    requires named { attempt_named ask.now.request ≡ Some attempt }
    ensures { MatchResult result
        (Tried seen.old seen.new pass.old pass.new moment ask.now user.now attempt)
        (λ r. Tried seen.old seen.new pass.old pass.new moment ask.now user.now attempt
        (refused_with r)) }
{
    let quiz = quiz_of(records, parts, rt, seen, pass, alloc, attempt)?;
    answer_planned(
        records,
        parts,
        rt,
        seen,
        pass,
        alloc,
        user,
        quiz,
        attempt.user,
        false,
        ask,
        moment,
    )
}
