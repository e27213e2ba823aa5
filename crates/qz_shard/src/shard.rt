//! A shard whose list a keeper keeps, and what is asked of it.

ghost use Rattle.std.specs.Prelude.{◌≡◌, ◌+◌, ◌≤◌, length, [], true, All, Ok, Err, Some, None, is_none, option_copied, option_map, unwrap_or, IfOk, IfErr, IfSome, IsErrOf};
ghost use Rattle.qz_terms.specs.declared.limits.TheConstants.{LONGEST_KEY};
ghost use Rattle.qz_decimal.specs.Numbers.{IsMaxSum, IsQuizGrade};
ghost use Rattle.qz_grading.specs.Grading.{at_place};
ghost use Rattle.qz_keeper.specs.Lists.{CallEnds, EachMayStand, IsStored, Settles};
ghost use Rattle.qz_keeper.specs.Recording.{GoesOn, HasFailed};
ghost use Rattle.qz_record.specs.Records.{IsRecord};
ghost use Rattle.qz_terms.specs.History.{live_after};
ghost use Rattle.qz_terms.specs.Legal.{IsLegal};
ghost use Rattle.qz_terms.specs.declared.reply.Reply.TheVariants as reply;
ghost use Rattle.qz_shard.specs.Answering.{IsPosed};
ghost use Rattle.qz_book.specs.Held.{is_shard};
ghost use Rattle.qz_shard.specs.Holdings.{is_change, is_look, IsAsked, IsWorkable, StartsHere};
ghost use Rattle.qz_shard.specs.Keeping.{CallsFor, CountsFew, IsOlder, IsOpened, IsSamePart, IsSeen, IsTold, Replies, TellsQuiz, TellsRows, shard_over};
ghost use Rattle.qz_shard.specs.Gradings.{most_gradings, most_of_work};
ghost use Rattle.qz_shard.specs.Loads.{IsListFault};
ghost use Rattle.qz_shard.specs.Works.{IsWorked};

use crate::shard_core::ShardCore;
use qz_decimal::Grade;
use qz_disks::{KeepErr, Keeper};
use qz_grading::{AttemptId, Refusal, Steps};
use qz_keeper::{RecordKeeper, refusal_of, reply_of};
use qz_record::ListFault;
use qz_terms::{Ask, Job, Plan, Policy, Record, Reply, Request, User};
use qz_text::{Bytes, Listed, TryCopy};
use std::alloc::Global;
use std::marker::{Brand, Model};
use std::sync::ledger::{Blank, Ledger};

/// A start's plan is older than a job that is done here. It is to be read again, from a catalogue that has at least the
/// position `floor`.
#[derive(Clone, Copy, Debug, PartialEq, Eq)]
pub struct Older {
    pub floor: u64,
}

/// The records of the attempts of a part of the users, and their keeper: those whose number, modulo the number of shards, is the shard's
/// index.
///
/// A record is kept before anything is changed, and after all that takes memory. Where keeping it failed it is in doubt: whether it is
/// kept isn't known. The next call finds that out and mends the list: it takes the record where it is kept, and else drops it. A call
/// answers `KeepFault` only where the keeper failed in that call, and then puts nothing.
#[derive(Drop)]
pub struct Shard<K: Keeper> {
    core: ShardCore,
    keeper: RecordKeeper<K>,
}

impl<K: Keeper> Model for Shard<K> {
    ghost use Rattle.qz_keeper.specs.Lists.{IsKeptList, held_in};
    ghost use Rattle.qz_shard.specs.Keeping.{Keeping};
    ghost use Rattle.qz_book.specs.Nexts.{IsNext};

    ghost Value = { Keeping K };

    ghost view = { λ s. record {
      index = s.core.index;
      count = s.core.count;
      held = held_in s.core.records s.keeper;
      keeper = s.keeper.keeper;
    } };

    ghost invariant = { λ s.
        IsKeptList K.kept (IsNext s.core.index s.core.count) s.core.records s.keeper };
}

impl<K: Keeper> Shard<K> {
    /// Reads a shard's list: one of `count` shards, which are from 1 to 64, whose records these payloads spell, in order. They are those
    /// that the keeper keeps.
    ///
    /// Each record has to be one that may stand behind those before it. `Illegal` names the first payload, from 1, that spells no such
    /// record. The keeper is given back with it.
    pub fn load(
        alloc: Global,
        index: u8,
        count: u8,
        keeper: K,
        payloads: &[Bytes],
    ) -> Result<Shard<K>, (K, ListFault)>
        requires shard { is_shard index count ≡ true }
        requires settled { K.doubt keeper ≡ None }
        requires kept { IfSome (K.kept keeper) (λ told. told ≡ payloads.now) }
        ensures opened { IfOk result (IsOpened index count payloads.now keeper) }
        ensures illegal { IfErr result (λ f. IsListFault index count payloads.now f.1) }
        ensures back { IfErr result (λ f. f.0 ≡ keeper) }
    {
        match ShardCore::load(alloc, index, count, payloads) {
            Ok(core) => Ok(Shard {
                core,
                keeper: RecordKeeper::new(keeper),
            }),
            Err(fault) => Err((keeper, fault)),
        }
    }

    /// The number of records, without one in doubt. The list is legal for this shard and of records that a file may keep, also with a
    /// record that is in doubt.
    pub fn len(&self) -> u64
        ensures count { result ≡ length self.now.held.list }
        ensures shard { is_shard self.now.index self.now.count ≡ true }
        ensures legal { EachMayStand (IsLegal self.now.index self.now.count) self.now.held }
        ensures records { EachMayStand (All IsRecord) self.now.held }
    {
        self.core.len()
    }

    /// The records, in order, without one in doubt.
    pub fn records(&self) -> &[Record]
        ensures { result.now ≡ self.now.held.list }
    {
        self.core.records()
    }

    /// Whether no record is in doubt.
    pub fn is_settled(&self) -> bool
        ensures { result ≡ is_none self.now.held.doubt }
    {
        self.keeper.is_settled()
    }

    /// The record at a place, from 1 on, and `None` where there is no such place. One in doubt has none.
    pub fn record_at(&self, place: u64) -> Option<&Record>
        ensures { option_copied result ≡ at_place self.now.held.list place }
    {
        self.records().get((place as usize).checked_sub(1)?)
    }

    /// The keeper, as it keeps the list.
    pub fn into_keeper(self) -> K
        ensures keeper { result ≡ self.keeper }
        ensures stored { IsStored (K.kept result) (K.doubt result) self.held }
    {
        self.keeper.into_keeper()
    }

    /// Finds out what became of the record in doubt, and takes it where it is kept. After an error all is as it was.
    fn settle(&mut self, alloc: Global) -> Result<(), KeepErr>
        ensures settles { Settles (HasFailed (K.sound self.old.keeper)
            (K.faults self.old.keeper) (K.faults self.new.keeper))
            self.old.held self.new.held result }
        ensures shard { IsSamePart self.old self.new }
        ensures goes_on { GoesOn (K.sound self.old.keeper) (K.sound self.new.keeper)
            (K.faults self.old.keeper) (K.faults self.new.keeper) }
    {
        self.keeper.find(alloc, self.core.len())?;
        let Some(found) = self.keeper.found() else {
            return Ok(());
        };
        let made = found.try_copy(alloc)?;
        self.core.adopt::<Brand>(Blank::new(1), alloc, made)?;
        self.keeper.settle();
        Ok(())
    }

    /// Mends the list: finds out what became of the record in doubt, takes it where it is kept, and else drops it. Its gradings aren't
    /// counted. After an error all is as it was.
    pub fn mend(&mut self, alloc: Global) -> Result<(), Refusal>
        ensures mended { CallsFor (HasFailed (K.sound self.old.keeper)
            (K.faults self.old.keeper) (K.faults self.new.keeper))
            (λ _ told. told ≡ Ok tt) self.old.held self.new.held result }
        ensures shard { IsSamePart self.old self.new }
        ensures goes_on { GoesOn (K.sound self.old.keeper) (K.sound self.new.keeper)
            (K.faults self.old.keeper) (K.faults self.new.keeper) }
    {
        match self.settle(alloc) {
            Ok(()) => Ok(()),
            Err(why) => Err(refusal_of(why)),
        }
    }

    /// The quiz of an attempt. Where there is no such attempt it is `Unknown`. The list is mended first.
    pub fn quiz_of(&mut self, alloc: Global, attempt: AttemptId) -> Result<u32, Refusal>
        ensures told { CallsFor (HasFailed (K.sound self.old.keeper)
            (K.faults self.old.keeper) (K.faults self.new.keeper))
            (TellsQuiz attempt) self.old.held self.new.held result }
        ensures shard { IsSamePart self.old self.new }
        ensures goes_on { GoesOn (K.sound self.old.keeper) (K.sound self.new.keeper)
            (K.faults self.old.keeper) (K.faults self.new.keeper) }
    {
        self.mend(alloc)?;
        self.core.quiz_of(attempt)
    }

    /// The first attempt after this one that hasn't ended, in order of user and then of number, over all quizzes. An attempt that
    /// is overdue and isn't settled yet is among them. The list is mended first.
    ///
    /// `after` is only a bound and needn't be there: 0 and 0 come before all. Where each attempt after it has ended the answer is
    /// `None`.
    pub fn live(&mut self, alloc: Global, after: AttemptId) -> Result<Option<AttemptId>, Refusal>
        ensures told { CallsFor (HasFailed (K.sound self.old.keeper)
            (K.faults self.old.keeper) (K.faults self.new.keeper))
            (λ h told. told ≡ Ok (live_after h after)) self.old.held self.new.held result }
        ensures shard { IsSamePart self.old self.new }
        ensures goes_on { GoesOn (K.sound self.old.keeper) (K.sound self.new.keeper)
            (K.faults self.old.keeper) (K.faults self.new.keeper) }
    {
        self.mend(alloc)?;
        self.core.live(after)
    }

    /// The grade (in 10^-5) at a quiz of each user who has an attempt of it here, in order of user, each once. A user of whom no
    /// total is taken has none. The policy's grade is from 0 to 10,000, and its sum of max marks from 0 to 2,000,000. The list is
    /// mended first.
    pub fn rows<L: Ledger>(
        &mut self,
        alloc: Global,
        quiz: u32,
        policy: &Policy,
        steps: &mut Steps<L>,
    ) -> Result<Listed<(u32, Option<Grade>)>, Refusal>
        requires grade { IsQuizGrade policy.now.grade }
        requires sum { IsMaxSum policy.now.sum }
        ensures told { CallsFor (HasFailed (K.sound self.old.keeper)
            (K.faults self.old.keeper) (K.faults self.new.keeper))
            (TellsRows quiz policy.now) self.old.held self.new.held result }
        ensures shard { IsSamePart self.old self.new }
        ensures goes_on { GoesOn (K.sound self.old.keeper) (K.sound self.new.keeper)
            (K.faults self.old.keeper) (K.faults self.new.keeper) }
        ensures count { steps.new ≡ steps.old }
    {
        self.mend(alloc)?;
        self.core.rows(alloc, quiz, policy, steps)
    }

    /// Answers a request that may change the list: a start, a save, a submit, an again, a finish, a mark or a settling, at this
    /// moment by the clock, in seconds since 1970. The list is mended first. The request's key has at most 64 bytes.
    ///
    /// The plan is of the quiz that the request names, or of that of the attempt that it names, where it is there. The reply is
    /// the answer over the mended list, and the list afterwards has the answer's record at its end where the answer puts one. A
    /// refusal adds nothing, and neither does a request whose caller and key stand with the same request already: it gets the
    /// reply of that one. Where memory is wanting the reply is `Memory` and nothing is put. Where the keeper fails it is `KeepFault`,
    /// nothing is put, and one record is in doubt: that of the answer, or the one that was. A start whose plan is older than a job that
    /// is done here is `Older`, and puts nothing. What a student is told depends on nobody else: it is the answer over each list
    /// that is alike for this student.
    pub fn apply<L: Ledger>(
        &mut self,
        alloc: Global,
        user: &User,
        plan: &Plan,
        ask: &Ask,
        moment: u64,
        steps: &mut Steps<L>,
    ) -> Result<Reply, Older>
        requires change { is_change ask.now.request ≡ true }
        requires asked { EachMayStand (λ h. IsAsked h plan.now ask.now moment) self.old.held }
        requires here { StartsHere (shard_over self.old []) user.now plan.now ask.now.request }
        requires brief { length (unwrap_or ask.now.key []) ≤ LONGEST_KEY }
        ensures answer { IfOk result (Replies (HasFailed (K.sound self.old.keeper)
            (K.faults self.old.keeper) (K.faults self.new.keeper))
            (IsTold self.old.index self.old.count
            moment user.now plan.now ask.now) self.old.held self.new.held) }
        ensures older { IfErr result (λ o. IsOlder plan.now ask.now.request
            self.old.held self.new.held o.floor) }
        ensures shard { IsSamePart self.old self.new }
        ensures goes_on { GoesOn (K.sound self.old.keeper) (K.sound self.new.keeper)
            (K.faults self.old.keeper) (K.faults self.new.keeper) }
        ensures count { CountsFew (λ h. most_gradings h ask.now.request)
            self.old.held self.new.held steps.old steps.new }
    {
        if let Err(why) = self.settle(alloc) {
            return Ok(Reply::Refused(refusal_of(why)));
        }
        if let Some(floor) = self.core.older(plan, &ask.request) {
            return Err(Older { floor });
        }
        Ok(self.answer(alloc, user, plan, ask, moment, steps))
    }

    /// Answers a request over a list that was mended.
    fn answer<L: Ledger>(
        &mut self,
        alloc: Global,
        user: &User,
        plan: &Plan,
        ask: &Ask,
        moment: u64,
        steps: &mut Steps<L>,
    ) -> Reply
        requires settled { self.old.held.doubt ≡ None }
        requires posed { IsPosed (shard_over self.old self.old.held.list)
            moment user.now plan.now ask.now }
        requires brief { length (unwrap_or ask.now.key []) ≤ LONGEST_KEY }
        ensures ends { CallEnds (HasFailed (K.sound self.old.keeper)
            (K.faults self.old.keeper) (K.faults self.new.keeper))
            reply.Refused (IsTold self.old.index self.old.count
            moment user.now plan.now ask.now) self.old.held self.new.held result }
        ensures shard { IsSamePart self.old self.new }
        ensures goes_on { GoesOn (K.sound self.old.keeper) (K.sound self.new.keeper)
            (K.faults self.old.keeper) (K.faults self.new.keeper) }
        ensures count { steps.new ≤ steps.old + most_gradings self.old.held.list ask.now.request }
        ensures still { self.new.held.list ≡ self.old.held.list → steps.new ≡ steps.old }
    {
        // Whatever a shard holds is that of a shard.
        let _length = self.core.len();
        let told = self
            .core
            .answer(alloc, user, plan, ask, moment, &mut self.keeper, steps);
        reply_of(told)
    }

    /// Answers a request that only looks: a view, a total, a page or a grade. The list is mended first, and then stays as it is. Where
    /// memory is wanting the reply is `Memory`, and where the keeper fails `KeepFault`. What a student is told depends on nobody else
    /// here too.
    pub fn look<L: Ledger>(
        &mut self,
        alloc: Global,
        user: &User,
        plan: &Plan,
        ask: &Ask,
        moment: u64,
        steps: &mut Steps<L>,
    ) -> Reply
        requires look { is_look ask.now.request ≡ true }
        requires asked { EachMayStand (λ h. IsAsked h plan.now ask.now moment) self.old.held }
        ensures answer { Replies (HasFailed (K.sound self.old.keeper)
            (K.faults self.old.keeper) (K.faults self.new.keeper))
            (IsSeen self.old.index self.old.count
            moment user.now plan.now ask.now) self.old.held self.new.held result }
        ensures shard { IsSamePart self.old self.new }
        ensures goes_on { GoesOn (K.sound self.old.keeper) (K.sound self.new.keeper)
            (K.faults self.old.keeper) (K.faults self.new.keeper) }
        ensures count { steps.new ≡ steps.old }
    {
        if let Err(why) = self.settle(alloc) {
            return Reply::Refused(refusal_of(why));
        }
        self.core.look(alloc, user, plan, ask, moment, steps)
    }

    /// Takes a job's first target here, or says that the job is done, at this moment by the clock, in seconds since 1970. The caller
    /// is the user who asks, or 0 for a worker. The list is mended first.
    ///
    /// A target is a slot of an attempt of the job's quiz, live or ended, that was bound before the job's position and that the job
    /// hasn't skipped; the first is that in order of user, attempt and slot. Where the plan's version of its slot has the same
    /// shape, that version is bound and the slot's steps are read again under it; else the slot is skipped. Where no target is
    /// left the job is done here, and where it was done before nothing is put. Where memory is wanting the reply is `Memory` and
    /// nothing is put. Where the keeper fails it is `KeepFault`, nothing is put, and one record is in doubt.
    pub fn work<L: Ledger>(
        &mut self,
        alloc: Global,
        caller: u32,
        job: &Job,
        moment: u64,
        steps: &mut Steps<L>,
    ) -> Reply
        requires { EachMayStand (λ h. IsWorkable h job.now moment) self.old.held }
        ensures answer { Replies (HasFailed (K.sound self.old.keeper)
            (K.faults self.old.keeper) (K.faults self.new.keeper))
            (λ h told g. IsWorked h moment caller job.now told g)
            self.old.held self.new.held result }
        ensures shard { IsSamePart self.old self.new }
        ensures goes_on { GoesOn (K.sound self.old.keeper) (K.sound self.new.keeper)
            (K.faults self.old.keeper) (K.faults self.new.keeper) }
        ensures count { CountsFew (λ h. most_of_work h job.now)
            self.old.held self.new.held steps.old steps.new }
    {
        if let Err(why) = self.settle(alloc) {
            return Reply::Refused(refusal_of(why));
        }
        self.worked(alloc, caller, job, moment, steps)
    }

    /// Takes a target over a list that was mended.
    fn worked<L: Ledger>(
        &mut self,
        alloc: Global,
        caller: u32,
        job: &Job,
        moment: u64,
        steps: &mut Steps<L>,
    ) -> Reply
        requires settled { self.old.held.doubt ≡ None }
        requires workable { IsWorkable self.old.held.list job.now moment }
        ensures ends { CallEnds (HasFailed (K.sound self.old.keeper)
            (K.faults self.old.keeper) (K.faults self.new.keeper))
            reply.Refused (λ h told g. IsWorked h moment caller job.now told g)
            self.old.held self.new.held result }
        ensures shard { IsSamePart self.old self.new }
        ensures goes_on { GoesOn (K.sound self.old.keeper) (K.sound self.new.keeper)
            (K.faults self.old.keeper) (K.faults self.new.keeper) }
        ensures count { steps.new ≤ steps.old + most_of_work self.old.held.list job.now }
        ensures still { self.new.held.list ≡ self.old.held.list → steps.new ≡ steps.old }
    {
        // Whatever a shard holds is that of a shard.
        let _length = self.core.len();
        let told = self
            .core
            .worked(alloc, caller, job, moment, &mut self.keeper, steps);
        reply_of(told)
    }
}
