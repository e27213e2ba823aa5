//! A request of a user at the catalogue and at one shard.

ghost use Rattle.std.specs.Prelude.{◌≡◌, ◌<◌, ◌%◌, true, false, None, Some, IfSome, length};
ghost use Rattle.qz_serial.specs.Paths.{goes_to_part};
ghost use Rattle.qz_school.specs.Answering.{MayBeAsked};
ghost use Rattle.qz_school.specs.Planning.{NamesQuiz};
ghost use Rattle.qz_terms.specs.declared.request.Request.TheVariants as request;
ghost use Rattle.qz_terms.specs.Answer.{attempt_named};
ghost use Rattle.qz_terms.specs.Cause.{forbidden};
ghost use Rattle.qz_terms.specs.SchoolAnswer.{part_of};
ghost use Rattle.qz_turn.specs.Turns.{UnderKey};
ghost use Rattle.qz_visit.specs.Visits.{IsOf};
ghost use Rattle.qz_visit.specs.Ways.{AreTied, CameTo, Comes, HasPlace, IsKnownBy};

use crate::attempts::{answer_attempt, answer_planned};
use crate::steps::{answer_live, answer_work};
use qz_catalog_turns::{OwnRecord, Records, Replied};
use qz_disks::Keeper;
use qz_grading::{AttemptId, Refusal};
use qz_shard_turns::Part;
use qz_terms::{Ask, Request, User};
use qz_turn::{Pass, Turns};
use std::alloc::Global;
use std::sync::Wait;

/// The reply to a request of a user whom the catalogue's pass has seen, and which goes to this shard.
pub(crate) fn answer_at<K: Keeper, R: Wait>(
    records: &Turns<Records<K>>,
    parts: &Turns<Part<K>>,
    rt: &R,
    seen: &mut Pass<Records<K>>,
    pass: &mut Pass<Part<K>>,
    alloc: Global,
    user: &User,
    ask: &Ask,
    moment: u64,
) -> Result<Replied, Refusal>
    requires tied { AreTied records.now.lock parts.now.lock seen.old pass.old }
    requires asked { MayBeAsked ask.now moment }
    requires known { IsKnownBy seen.old ask.now user.now }
    requires may { forbidden user.now ask.now.request ≡ None }
    requires goes { goes_to_part ask.now.request ≡ true }
    requires here { UnderKey parts.now.lock
        (λ place. part_of place.count user.now ask.now.request ≡ place.index) }
    ensures { Comes seen.old seen.new pass.old pass.new moment ask.now user.now result }
{
    match &ask.request {
        Request::Start { quiz } => answer_quiz(
            records,
            parts,
            rt,
            seen,
            pass,
            alloc,
            user,
            *quiz,
            user.number,
            true,
            ask,
            moment,
        ),
        Request::Grade { quiz, user: owner } => answer_quiz(
            records, parts, rt, seen, pass, alloc, user, *quiz, *owner, false, ask, moment,
        ),
        Request::Save { attempt, .. }
        | Request::Submit { attempt, .. }
        | Request::Again { attempt, .. }
        | Request::Finish { attempt }
        | Request::Mark { attempt, .. }
        | Request::Settle { attempt }
        | Request::View { attempt, .. }
        | Request::Total { attempt }
        | Request::Page { attempt } => answer_named(
            records, parts, rt, seen, pass, alloc, user, *attempt, ask, moment,
        ),
        Request::Live { shard, attempt } => Ok(answer_going(
            parts, rt, seen, pass, alloc, user, *shard, *attempt, ask, moment,
        )),
        Request::Work { job, shard } => answer_step(
            records, parts, rt, seen, pass, alloc, user, *job, *shard, ask, moment,
        ),
        Request::User { .. }
        | Request::Group { .. }
        | Request::Member { .. }
        | Request::Import { .. }
        | Request::Edit { .. }
        | Request::Tune { .. }
        | Request::Quiz { .. }
        | Request::Slot { .. }
        | Request::Ready { .. }
        | Request::Remax { .. }
        | Request::Policy { .. }
        | Request::Times { .. }
        | Request::Override { .. }
        | Request::Regrade { .. }
        | Request::Jobs
        | Request::Bank { .. }
        | Request::Report { .. } => unreachable!(),
    }
}

/// The reply to a request that names a quiz: a start or a grade. A quiz or a user who isn't there is `Unknown`.
fn answer_quiz<K: Keeper, R: Wait>(
    records: &Turns<Records<K>>,
    parts: &Turns<Part<K>>,
    rt: &R,
    seen: &mut Pass<Records<K>>,
    pass: &mut Pass<Part<K>>,
    alloc: Global,
    user: &User,
    quiz: u32,
    owner: u32,
    whole: bool,
    ask: &Ask,
    moment: u64,
) -> Result<Replied, Refusal>
    requires tied { AreTied records.now.lock parts.now.lock seen.old pass.old }
    requires asked { MayBeAsked ask.now moment }
    requires known { IsKnownBy seen.old ask.now user.now }
    requires may { forbidden user.now ask.now.request ≡ None }
    requires names { NamesQuiz user.now ask.now.request quiz owner whole }
    requires here { UnderKey parts.now.lock
        (λ place. part_of place.count user.now ask.now.request ≡ place.index) }
    ensures { Comes seen.old seen.new pass.old pass.new moment ask.now user.now result }
{
    answer_planned(
        records, parts, rt, seen, pass, alloc, user, quiz, owner, whole, ask, moment,
    )
}

/// The reply to a request that names an attempt.
fn answer_named<K: Keeper, R: Wait>(
    records: &Turns<Records<K>>,
    parts: &Turns<Part<K>>,
    rt: &R,
    seen: &mut Pass<Records<K>>,
    pass: &mut Pass<Part<K>>,
    alloc: Global,
    user: &User,
    attempt: AttemptId,
    ask: &Ask,
    moment: u64,
) -> Result<Replied, Refusal>
    requires tied { AreTied records.now.lock parts.now.lock seen.old pass.old }
    requires asked { MayBeAsked ask.now moment }
    requires known { IsKnownBy seen.old ask.now user.now }
    requires may { forbidden user.now ask.now.request ≡ None }
    requires named { attempt_named ask.now.request ≡ Some attempt }
    ensures { Comes seen.old seen.new pass.old pass.new moment ask.now user.now result }
{
    answer_attempt(
        records, parts, rt, seen, pass, alloc, user, attempt, ask, moment,
    )
}

/// The reply to a request for the attempts of the shard that go on. The catalogue isn't asked.
fn answer_going<K: Keeper, R: Wait>(
    parts: &Turns<Part<K>>,
    rt: &R,
    seen: &mut Pass<Records<K>>,
    pass: &mut Pass<Part<K>>,
    alloc: Global,
    user: &User,
    shard: u8,
    attempt: AttemptId,
    ask: &Ask,
    moment: u64,
) -> Replied
    requires own { IsOf parts.now.lock pass.old }
    requires placed { HasPlace parts.now.lock }
    requires may { forbidden user.now ask.now.request ≡ None }
    requires live { ask.now.request ≡ request.Live shard attempt }
    ensures { CameTo seen.old seen.new pass.old pass.new moment ask.now user.now result }
{
    Replied {
        reply: answer_live(parts, rt, pass, alloc, attempt),
        own: OwnRecord::Absent,
    }
}

/// The reply to a request for a step of a job.
fn answer_step<K: Keeper, R: Wait>(
    records: &Turns<Records<K>>,
    parts: &Turns<Part<K>>,
    rt: &R,
    seen: &mut Pass<Records<K>>,
    pass: &mut Pass<Part<K>>,
    alloc: Global,
    user: &User,
    job: u32,
    shard: u8,
    ask: &Ask,
    moment: u64,
) -> Result<Replied, Refusal>
    requires tied { AreTied records.now.lock parts.now.lock seen.old pass.old }
    requires asked { MayBeAsked ask.now moment }
    requires known { IsKnownBy seen.old ask.now user.now }
    requires may { forbidden user.now ask.now.request ≡ None }
    requires work { ask.now.request ≡ request.Work job shard }
    ensures { Comes seen.old seen.new pass.old pass.new moment ask.now user.now result }
{
    answer_work(
        records, parts, rt, seen, pass, alloc, user, job, ask, moment,
    )
}
