//! How a school answers a worker.

ghost use Rattle.std.specs.Prelude.{◌≡◌, ◌<◌, ◌≤◌, None, length};
ghost use Rattle.qz_school.specs.Answering.{MayBeAsked};
ghost use Rattle.qz_terms.specs.declared.people.Caller.TheVariants as caller;
ghost use Rattle.qz_terms.specs.declared.request.Request.TheVariants as request;
ghost use Rattle.qz_terms.specs.Catalog.{worker};
ghost use Rattle.qz_terms.specs.Cause.{forbidden};
ghost use Rattle.qz_visit.specs.Visits.{AreOf, Visited, Visits};

use crate::attempts::answer_attempt;
use crate::last::Said;
use crate::passes::Seats;
use crate::school::School;
use crate::steps::{answer_live, answer_work};
use qz_catalog_turns::{answer, job};
use qz_disks::Keeper;
use qz_grading::{AttemptId, Refusal, Thing};
use qz_school::{index_of, worker};
use qz_terms::{Ask, Request, User, forbidden};
use std::alloc::Global;
use std::sync::Wait;

impl<K: Keeper> School<K> {
    /// The reply to a worker's request. What a worker may not ask takes no turn.
    pub(crate) fn answer_worker<R: Wait>(
        &self,
        rt: &R,
        passes: &mut Seats<K>,
        alloc: Global,
        ask: &Ask,
        moment: u64,
    ) -> Result<Said, Refusal>
        requires own { AreOf self.now passes.old }
        requires asked { MayBeAsked ask.now moment }
        requires caller { ask.now.caller ≡ caller.Worker }
        ensures { Visits passes.old passes.new moment ask.now result }
    {
        let _count = self.parts.len();
        let user = worker(alloc)?;
        if let Some(refusal) = forbidden(&user, &ask.request) {
            return Err(refusal);
        }
        if let Request::Live { shard, attempt } = &ask.request {
            return self.live_for_worker(rt, passes, alloc, *shard, *attempt, ask, moment);
        }
        if let Request::Work { job, shard } = &ask.request {
            return self.work_for_worker(rt, passes, alloc, &user, *job, *shard, ask, moment);
        }
        if let Request::Settle { attempt } = &ask.request {
            return self.settle(rt, passes, alloc, &user, *attempt, ask, moment);
        }
        Ok(self.jobs_for_worker(rt, passes, alloc, &user, ask, moment))
    }

    /// The jobs that there are, which are all else that a worker may ask for.
    fn jobs_for_worker<R: Wait>(
        &self,
        rt: &R,
        passes: &mut Seats<K>,
        alloc: Global,
        user: &User,
        ask: &Ask,
        moment: u64,
    ) -> Said
        requires own { AreOf self.now passes.old }
        requires asked { MayBeAsked ask.now moment }
        requires caller { ask.now.caller ≡ caller.Worker }
        requires user { user.now ≡ worker }
        requires jobs { ask.now.request ≡ request.Jobs }
        ensures { Visited passes.old passes.new moment ask.now result }
    {
        let told = answer(
            &self.records,
            rt,
            &mut passes.records,
            alloc,
            user,
            ask,
            moment,
        );
        Said::by_catalog(told)
    }

    /// The attempts of a shard that go on. No other list is read.
    fn live_for_worker<R: Wait>(
        &self,
        rt: &R,
        passes: &mut Seats<K>,
        alloc: Global,
        shard: u8,
        attempt: AttemptId,
        ask: &Ask,
        moment: u64,
    ) -> Result<Said, Refusal>
        requires own { AreOf self.now passes.old }
        requires asked { MayBeAsked ask.now moment }
        requires caller { ask.now.caller ≡ caller.Worker }
        requires live { ask.now.request ≡ request.Live shard attempt }
        ensures { Visits passes.old passes.new moment ask.now result }
    {
        let index = index_of(shard, self.parts.len())?;
        let pass = &mut passes.parts[index];
        let reply = answer_live(&self.parts[index], rt, pass, alloc, attempt);
        Ok(Said::without(reply, Some(shard)))
    }

    /// A step of a job: the job is the catalogue's, and then the shard takes the step.
    fn work_for_worker<R: Wait>(
        &self,
        rt: &R,
        passes: &mut Seats<K>,
        alloc: Global,
        user: &User,
        number: u32,
        shard: u8,
        ask: &Ask,
        moment: u64,
    ) -> Result<Said, Refusal>
        requires own { AreOf self.now passes.old }
        requires asked { MayBeAsked ask.now moment }
        requires caller { ask.now.caller ≡ caller.Worker }
        requires user { user.now ≡ worker }
        requires work { ask.now.request ≡ request.Work number shard }
        ensures { Visits passes.old passes.new moment ask.now result }
    {
        let index = usize::from(shard);
        if index >= self.parts.len() {
            return self.step_beyond(rt, passes, alloc, number, shard, ask, moment);
        }
        let told = answer_work(
            &self.records,
            &self.parts[index],
            rt,
            &mut passes.records,
            &mut passes.parts[index],
            alloc,
            user,
            number,
            ask,
            moment,
        );
        Ok(Said::by_shard(index, told))
    }

    /// The refusal of a worker's step in a shard that isn't there. A job that isn't there comes first.
    fn step_beyond<R: Wait>(
        &self,
        rt: &R,
        passes: &mut Seats<K>,
        alloc: Global,
        number: u32,
        shard: u8,
        ask: &Ask,
        moment: u64,
    ) -> Result<Said, Refusal>
        requires own { AreOf self.now passes.old }
        requires asked { MayBeAsked ask.now moment }
        requires caller { ask.now.caller ≡ caller.Worker }
        requires work { ask.now.request ≡ request.Work number shard }
        requires beyond { length self.now.parts ≤ shard }
        ensures { Visits passes.old passes.new moment ask.now result }
    {
        job(&self.records, rt, &mut passes.records, alloc, number)?;
        Err(Refusal::Unknown { what: Thing::Shard })
    }

    /// The settling of an attempt: its shard is asked for it first, and where it is there the catalogue for its plan.
    fn settle<R: Wait>(
        &self,
        rt: &R,
        passes: &mut Seats<K>,
        alloc: Global,
        user: &User,
        attempt: AttemptId,
        ask: &Ask,
        moment: u64,
    ) -> Result<Said, Refusal>
        requires own { AreOf self.now passes.old }
        requires asked { MayBeAsked ask.now moment }
        requires caller { ask.now.caller ≡ caller.Worker }
        requires user { user.now ≡ worker }
        requires settle { ask.now.request ≡ request.Settle attempt }
        ensures { Visits passes.old passes.new moment ask.now result }
    {
        let index = attempt.user as usize % self.parts.len();
        let told = answer_attempt(
            &self.records,
            &self.parts[index],
            rt,
            &mut passes.records,
            &mut passes.parts[index],
            alloc,
            user,
            attempt,
            ask,
            moment,
        );
        Ok(Said::by_shard(index, told))
    }
}
