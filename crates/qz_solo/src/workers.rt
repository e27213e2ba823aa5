//! How a school answers a worker.

ghost use Rattle.std.specs.Prelude.{◌≡◌};
ghost use Rattle.qz_terms.specs.declared.people.Caller.TheVariants as caller;
ghost use Rattle.qz_terms.specs.declared.request.Request.TheVariants as request;
ghost use Rattle.qz_terms.specs.Catalog.{worker};
ghost use Rattle.qz_school.specs.Answering.{MayBeAsked, Serves};

use crate::Solo;
use crate::telling::told_under;
use crate::working::{live, work};
use qz_disks::Keeper;
use qz_grading::{AttemptId, Refusal};
use qz_school::{index_of, worker};
use qz_terms::{Ask, Reply, Request, User, forbidden};
use std::alloc::Global;

impl<K: Keeper> Solo<K> {
    /// The reply to a worker's request. What a worker may not ask reads nothing.
    pub(crate) fn answer_worker(
        &mut self,
        alloc: Global,
        ask: &Ask,
        moment: u64,
    ) -> Result<Reply, Refusal>
        requires asked { MayBeAsked ask.now moment }
        requires caller { ask.now.caller ≡ caller.Worker }
        ensures { Serves K.sound K.faults self.old self.new moment ask.now result }
    {
        // Whatever was asked, there is a shard.
        let _length = self.len();
        let user = worker(alloc)?;
        if let Some(refusal) = forbidden(&user, &ask.request) {
            return Err(refusal);
        }
        if let Request::Live { shard, attempt } = &ask.request {
            return self.live_for_worker(alloc, *shard, *attempt, ask, moment);
        }
        if let Request::Work { job, shard } = &ask.request {
            return self.work_for_worker(alloc, *job, *shard, ask, moment);
        }
        if let Request::Settle { attempt } = &ask.request {
            return self.settle(alloc, &user, *attempt, ask, moment);
        }
        // The jobs are all else that a worker may ask for.
        Ok(self.catalog.apply(alloc, &user, ask, moment))
    }

    /// The attempts of a shard that go on. No other list is read.
    fn live_for_worker(
        &mut self,
        alloc: Global,
        shard: u8,
        attempt: AttemptId,
        ask: &Ask,
        moment: u64,
    ) -> Result<Reply, Refusal>
        requires asked { MayBeAsked ask.now moment }
        requires caller { ask.now.caller ≡ caller.Worker }
        requires live { ask.now.request ≡ request.Live shard attempt }
        ensures { Serves K.sound K.faults self.old self.new moment ask.now result }
    {
        let index = index_of(shard, self.shards.len())?;
        Ok(live(&mut self.shards[index], alloc, attempt))
    }

    /// A step of a job: the job is the catalogue's, and then the shard takes the step.
    fn work_for_worker(
        &mut self,
        alloc: Global,
        job: u32,
        shard: u8,
        ask: &Ask,
        moment: u64,
    ) -> Result<Reply, Refusal>
        requires asked { MayBeAsked ask.now moment }
        requires caller { ask.now.caller ≡ caller.Worker }
        requires work { ask.now.request ≡ request.Work job shard }
        ensures { Serves K.sound K.faults self.old self.new moment ask.now result }
    {
        // Whatever the catalogue holds is legal.
        let _records = self.catalog.len();
        let job = self.catalog.job(alloc, job)?;
        let index = index_of(shard, self.shards.len())?;
        let shard = &mut self.shards[index];
        let _length = shard.len();
        Ok(work(shard, alloc, 0, &job, moment))
    }

    /// The settling of an attempt: its shard is asked for it first, and where it is there the catalogue for its plan.
    fn settle(
        &mut self,
        alloc: Global,
        user: &User,
        attempt: AttemptId,
        ask: &Ask,
        moment: u64,
    ) -> Result<Reply, Refusal>
        requires asked { MayBeAsked ask.now moment }
        requires caller { ask.now.caller ≡ caller.Worker }
        requires user { user.now ≡ worker }
        requires settle { ask.now.request ≡ request.Settle attempt }
        ensures { Serves K.sound K.faults self.old self.new moment ask.now result }
    {
        let index = attempt.user as usize % self.shards.len();
        let shard = &mut self.shards[index];
        let quiz = shard.quiz_of(alloc, attempt)?;
        let plan = self.catalog.plan(alloc, quiz, attempt.user, false)?;
        let catalog = self.catalog.core();
        Ok(told_under(catalog, shard, alloc, user, &plan, ask, moment))
    }
}
