//! How a school answers a user with a token.

ghost use Rattle.std.specs.Prelude.{◌≡◌, false, None, Some};
ghost use Rattle.qz_serial.specs.Paths.{IsKnown};
ghost use Rattle.qz_terms.specs.declared.people.Caller.TheVariants as caller;
ghost use Rattle.qz_terms.specs.declared.request.Request.TheVariants as request;
ghost use Rattle.qz_terms.specs.Answer.{attempt_named};
ghost use Rattle.qz_terms.specs.CatalogAnswer.{asks_catalog};
ghost use Rattle.qz_terms.specs.Cause.{forbidden};
ghost use Rattle.qz_school.specs.Answering.{MayBeAsked, Serves};
ghost use Rattle.qz_school.specs.Planning.{NamesQuiz};
ghost use Rattle.qz_school.specs.Solos.{lists_in};

use crate::Solo;
use crate::telling::{told_of_attempt, told_under};
use crate::working::{live, work};
use qz_disks::Keeper;
use qz_grading::{AttemptId, Refusal};
use qz_school::index_of;
use qz_terms::{Ask, Reply, Request, User, asks_catalog, forbidden};
use qz_text::Text;
use std::alloc::Global;

impl<K: Keeper> Solo<K> {
    /// The reply to a request by a token. The catalogue is mended first, and finds the user.
    pub(crate) fn answer_token(
        &mut self,
        alloc: Global,
        token: &Text,
        ask: &Ask,
        moment: u64,
    ) -> Result<Reply, Refusal>
        requires asked { MayBeAsked ask.now moment }
        requires caller { ask.now.caller ≡ caller.Token token.now }
        ensures { Serves K.sound K.faults self.old self.new moment ask.now result }
    {
        let user = self.catalog.user(alloc, token)?;
        self.answer_user(alloc, &user, ask, moment)
    }

    /// The reply to a request of a user whom the catalogue knows.
    fn answer_user(
        &mut self,
        alloc: Global,
        user: &User,
        ask: &Ask,
        moment: u64,
    ) -> Result<Reply, Refusal>
        requires asked { MayBeAsked ask.now moment }
        requires known { IsKnown (lists_in self.old) self.old.catalog.held ask.now user.now }
        ensures { Serves K.sound K.faults self.old self.new moment ask.now result }
    {
        // Whatever was asked, there is a shard.
        let _length = self.len();
        if asks_catalog(&ask.request) {
            return Ok(self.catalog.apply(alloc, user, ask, moment));
        }
        if let Some(refusal) = forbidden(user, &ask.request) {
            return Err(refusal);
        }
        self.answer_allowed(alloc, user, ask, moment)
    }

    /// The reply to a request of a user that goes to shards and that the rules of callers allow.
    fn answer_allowed(
        &mut self,
        alloc: Global,
        user: &User,
        ask: &Ask,
        moment: u64,
    ) -> Result<Reply, Refusal>
        requires asked { MayBeAsked ask.now moment }
        requires known { IsKnown (lists_in self.old) self.old.catalog.held ask.now user.now }
        requires other { asks_catalog ask.now.request ≡ false }
        requires may { forbidden user.now ask.now.request ≡ None }
        ensures { Serves K.sound K.faults self.old self.new moment ask.now result }
    {
        match &ask.request {
            Request::Start { quiz } => {
                self.answer_quiz(alloc, user, *quiz, user.number, true, ask, moment)
            }
            Request::Grade { quiz, user: owner } => {
                self.answer_quiz(alloc, user, *quiz, *owner, false, ask, moment)
            }
            Request::Save { attempt, .. }
            | Request::Submit { attempt, .. }
            | Request::Again { attempt, .. }
            | Request::Finish { attempt }
            | Request::Mark { attempt, .. }
            | Request::Settle { attempt }
            | Request::View { attempt, .. }
            | Request::Total { attempt }
            | Request::Page { attempt } => {
                self.answer_attempt(alloc, user, *attempt, ask, moment)
            }
            Request::Live { shard, attempt } => {
                self.answer_live(alloc, user, *shard, *attempt, ask, moment)
            }
            Request::Work { job, shard } => {
                self.answer_work(alloc, user, *job, *shard, ask, moment)
            }
            Request::Report { quiz } => self.report(alloc, user, *quiz, ask, moment),
            Request::User { .. }
            | Request::Group { .. }
            | Request::Member { .. }
            | Request::Import { .. }
            | Request::Edit { .. }
            | Request::Tune { .. }
            | Request::Quiz { .. }
            | Request::Slot { .. }
            | Request::Ready { .. }
            | Request::Remax { .. }
            | Request::Policy { .. }
            | Request::Times { .. }
            | Request::Override { .. }
            | Request::Regrade { .. }
            | Request::Jobs
            | Request::Bank { .. } => unreachable!(),
        }
    }

    /// The reply to a request that names a quiz: a start or a grade. A quiz or a user who isn't there is `Unknown`.
    fn answer_quiz(
        &mut self,
        alloc: Global,
        user: &User,
        quiz: u32,
        owner: u32,
        whole: bool,
        ask: &Ask,
        moment: u64,
    ) -> Result<Reply, Refusal>
        requires asked { MayBeAsked ask.now moment }
        requires known { IsKnown (lists_in self.old) self.old.catalog.held ask.now user.now }
        requires may { forbidden user.now ask.now.request ≡ None }
        requires names { NamesQuiz user.now ask.now.request quiz owner whole }
        ensures { Serves K.sound K.faults self.old self.new moment ask.now result }
    {
        let plan = self.catalog.core().plan(alloc, quiz, owner, whole)?;
        let index = owner as usize % self.shards.len();
        let shard = &mut self.shards[index];
        let catalog = self.catalog.core();
        Ok(told_under(catalog, shard, alloc, user, &plan, ask, moment))
    }

    /// The reply to a request that names an attempt.
    fn answer_attempt(
        &mut self,
        alloc: Global,
        user: &User,
        attempt: AttemptId,
        ask: &Ask,
        moment: u64,
    ) -> Result<Reply, Refusal>
        requires asked { MayBeAsked ask.now moment }
        requires known { IsKnown (lists_in self.old) self.old.catalog.held ask.now user.now }
        requires may { forbidden user.now ask.now.request ≡ None }
        requires named { attempt_named ask.now.request ≡ Some attempt }
        ensures { Serves K.sound K.faults self.old self.new moment ask.now result }
    {
        let index = attempt.user as usize % self.shards.len();
        let shard = &mut self.shards[index];
        told_of_attempt(
            self.catalog.core(),
            shard,
            alloc,
            user,
            attempt,
            ask,
            moment,
        )
    }

    /// The reply to a request for the attempts of a shard that go on.
    fn answer_live(
        &mut self,
        alloc: Global,
        user: &User,
        shard: u8,
        attempt: AttemptId,
        ask: &Ask,
        moment: u64,
    ) -> Result<Reply, Refusal>
        requires asked { MayBeAsked ask.now moment }
        requires known { IsKnown (lists_in self.old) self.old.catalog.held ask.now user.now }
        requires may { forbidden user.now ask.now.request ≡ None }
        requires live { ask.now.request ≡ request.Live shard attempt }
        ensures { Serves K.sound K.faults self.old self.new moment ask.now result }
    {
        let index = index_of(shard, self.shards.len())?;
        Ok(live(&mut self.shards[index], alloc, attempt))
    }

    /// The reply to a request for a step of a job in a shard.
    fn answer_work(
        &mut self,
        alloc: Global,
        user: &User,
        job: u32,
        shard: u8,
        ask: &Ask,
        moment: u64,
    ) -> Result<Reply, Refusal>
        requires asked { MayBeAsked ask.now moment }
        requires known { IsKnown (lists_in self.old) self.old.catalog.held ask.now user.now }
        requires may { forbidden user.now ask.now.request ≡ None }
        requires work { ask.now.request ≡ request.Work job shard }
        ensures { Serves K.sound K.faults self.old self.new moment ask.now result }
    {
        // Whatever the catalogue and the shard hold is legal.
        let _records = self.catalog.len();
        let job = self.catalog.core().job(alloc, job)?;
        let index = index_of(shard, self.shards.len())?;
        let shard = &mut self.shards[index];
        let _length = shard.len();
        Ok(work(shard, alloc, user.number, &job, moment))
    }
}
