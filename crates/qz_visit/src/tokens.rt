//! How a school answers a user with a token.

ghost use Rattle.std.specs.Prelude.{◌≡◌, ◌<◌, ◌≤◌, false, true, None, Some, IfNone, IfSome, length};
ghost use Rattle.qz_serial.specs.Paths.{goes_to_part};
ghost use Rattle.qz_school.specs.Answering.{MayBeAsked};
ghost use Rattle.qz_terms.specs.declared.people.Caller.TheVariants as caller;
ghost use Rattle.qz_terms.specs.declared.request.Request.TheVariants as request;
ghost use Rattle.qz_terms.specs.Answer.{named_user};
ghost use Rattle.qz_terms.specs.CatalogAnswer.{asks_catalog};
ghost use Rattle.qz_terms.specs.Cause.{forbidden, missing_shard};
ghost use Rattle.qz_terms.specs.SchoolAnswer.{part_of};
ghost use Rattle.qz_visit.specs.Visits.{AreOf, TakesTurns, Visited, Visits};
ghost use Rattle.qz_visit.specs.Tokens.{IsBeyond, IsKnownTo};

use crate::at_shard::answer_at;
use crate::last::Said;
use crate::passes::Seats;
use crate::school::School;
use qz_catalog_turns::{answer, job, user};
use qz_disks::Keeper;
use qz_grading::{Refusal, Thing};
use qz_terms::{Ask, Request, User, asks_catalog, forbidden};
use qz_text::Text;
use std::alloc::Global;
use std::sync::Wait;

/// The number of the user whose attempt or grade a request names; else that of the user who asks.
fn named_user(user: &User, request: &Request) -> u32
    ensures { result ≡ named_user user.now request.now }
{
    match request {
        Request::Grade { user: owner, .. } => *owner,
        Request::Save { attempt, .. }
        | Request::Submit { attempt, .. }
        | Request::Again { attempt, .. }
        | Request::Finish { attempt }
        | Request::Mark { attempt, .. }
        | Request::Settle { attempt }
        | Request::View { attempt, .. }
        | Request::Total { attempt }
        | Request::Page { attempt } => attempt.user,
        Request::Start { .. }
        | Request::Report { .. }
        | Request::Live { .. }
        | Request::Work { .. }
        | Request::User { .. }
        | Request::Group { .. }
        | Request::Member { .. }
        | Request::Import { .. }
        | Request::Edit { .. }
        | Request::Tune { .. }
        | Request::Quiz { .. }
        | Request::Slot { .. }
        | Request::Ready { .. }
        | Request::Remax { .. }
        | Request::Policy { .. }
        | Request::Times { .. }
        | Request::Override { .. }
        | Request::Regrade { .. }
        | Request::Jobs
        | Request::Bank { .. } => user.number,
    }
}

/// The index of the shard that a request goes to, of so many, where it is there: that which it names, or that of the user whose attempt or
/// grade it names.
fn shard_of(user: &User, request: &Request, count: usize) -> Option<usize>
    requires { 0 < count }
    ensures there { IfSome result (λ index.
        (index < count) × (part_of count user.now request.now ≡ index)
        × (missing_shard count request.now ≡ None)) }
    ensures beyond { IfNone result (IsBeyond count request.now) }
{
    if let Request::Live { shard, .. } | Request::Work { shard, .. } = request {
        let index = usize::from(*shard);
        return if index < count { Some(index) } else { None };
    }
    Some(named_user(user, request) as usize % count)
}

impl<K: Keeper> School<K> {
    /// The reply to a request by a token. The catalogue finds the user first.
    pub(crate) fn answer_token<R: Wait>(
        &self,
        rt: &R,
        passes: &mut Seats<K>,
        alloc: Global,
        token: &Text,
        ask: &Ask,
        moment: u64,
    ) -> Result<Said, Refusal>
        requires own { AreOf self.now passes.old }
        requires asked { MayBeAsked ask.now moment }
        requires caller { ask.now.caller ≡ caller.Token token.now }
        ensures visits { Visits passes.old passes.new moment ask.now result }
        ensures in_turn { TakesTurns passes.old.records passes.new.records }
    {
        let user = user(&self.records, rt, &mut passes.records, alloc, token)?;
        self.answer_user(rt, passes, alloc, &user, ask, moment)
    }

    /// The reply to a request of a user whom the catalogue's pass has seen.
    fn answer_user<R: Wait>(
        &self,
        rt: &R,
        passes: &mut Seats<K>,
        alloc: Global,
        user: &User,
        ask: &Ask,
        moment: u64,
    ) -> Result<Said, Refusal>
        requires own { AreOf self.now passes.old }
        requires asked { MayBeAsked ask.now moment }
        requires known { IsKnownTo passes.old.records ask.now user.now }
        ensures { Visits passes.old passes.new moment ask.now result }
    {
        let count = self.parts.len();
        if asks_catalog(&ask.request) {
            return Ok(self.answer_records(rt, passes, alloc, user, ask, moment));
        }
        if let Some(refusal) = forbidden(user, &ask.request) {
            return Err(refusal);
        }
        if let Request::Report { quiz } = &ask.request {
            return self.report(rt, passes, alloc, user, *quiz, ask, moment);
        }
        match shard_of(user, &ask.request, count) {
            Some(index) => Ok(self.answer_part(rt, passes, alloc, user, index, ask, moment)),
            None => self.answer_nowhere(rt, passes, alloc, user, ask, moment),
        }
    }

    /// The catalogue's reply.
    fn answer_records<R: Wait>(
        &self,
        rt: &R,
        passes: &mut Seats<K>,
        alloc: Global,
        user: &User,
        ask: &Ask,
        moment: u64,
    ) -> Said
        requires own { AreOf self.now passes.old }
        requires asked { MayBeAsked ask.now moment }
        requires known { IsKnownTo passes.old.records ask.now user.now }
        requires catalog { asks_catalog ask.now.request ≡ true }
        ensures { Visited passes.old passes.new moment ask.now result }
    {
        let told = answer(
            &self.records,
            rt,
            &mut passes.records,
            alloc,
            user,
            ask,
            moment,
        );
        Said::by_catalog(told)
    }

    /// The reply of the shard at this index, under the catalogue.
    fn answer_part<R: Wait>(
        &self,
        rt: &R,
        passes: &mut Seats<K>,
        alloc: Global,
        user: &User,
        index: usize,
        ask: &Ask,
        moment: u64,
    ) -> Said
        requires own { AreOf self.now passes.old }
        requires asked { MayBeAsked ask.now moment }
        requires known { IsKnownTo passes.old.records ask.now user.now }
        requires may { forbidden user.now ask.now.request ≡ None }
        requires goes { goes_to_part ask.now.request ≡ true }
        requires inside { index < length self.now.parts }
        requires part { part_of (length self.now.parts) user.now ask.now.request ≡ index }
        requires there { missing_shard (length self.now.parts) ask.now.request ≡ None }
        ensures { Visited passes.old passes.new moment ask.now result }
    {
        let told = answer_at(
            &self.records,
            &self.parts[index],
            rt,
            &mut passes.records,
            &mut passes.parts[index],
            alloc,
            user,
            ask,
            moment,
        );
        Said::by_shard(index, told)
    }

    /// The refusal of a request that names a shard that isn't there. A step of a job names a job as well, which may not be there either.
    fn answer_nowhere<R: Wait>(
        &self,
        rt: &R,
        passes: &mut Seats<K>,
        alloc: Global,
        user: &User,
        ask: &Ask,
        moment: u64,
    ) -> Result<Said, Refusal>
        requires own { AreOf self.now passes.old }
        requires asked { MayBeAsked ask.now moment }
        requires known { IsKnownTo passes.old.records ask.now user.now }
        requires may { forbidden user.now ask.now.request ≡ None }
        requires beyond { IsBeyond (length self.now.parts) ask.now.request }
        ensures { Visits passes.old passes.new moment ask.now result }
    {
        let _count = self.parts.len();
        if let Request::Work { job, shard } = &ask.request {
            return self.step_nowhere(rt, passes, alloc, user, *job, *shard, ask, moment);
        }
        Err(Refusal::Unknown { what: Thing::Shard })
    }

    /// The refusal of a step of a job in a shard that isn't there. A job that isn't there comes first.
    fn step_nowhere<R: Wait>(
        &self,
        rt: &R,
        passes: &mut Seats<K>,
        alloc: Global,
        _user: &User,
        number: u32,
        shard: u8,
        ask: &Ask,
        moment: u64,
    ) -> Result<Said, Refusal>
        requires own { AreOf self.now passes.old }
        requires asked { MayBeAsked ask.now moment }
        requires known { IsKnownTo passes.old.records ask.now _user.now }
        requires may { forbidden _user.now ask.now.request ≡ None }
        requires work { ask.now.request ≡ request.Work number shard }
        requires beyond { length self.now.parts ≤ shard }
        ensures { Visits passes.old passes.new moment ask.now result }
    {
        job(&self.records, rt, &mut passes.records, alloc, number)?;
        Err(Refusal::Unknown { what: Thing::Shard })
    }
}
