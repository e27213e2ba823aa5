//! A catalogue whose list a keeper keeps, and what is asked of it.

ghost use Rattle.std.specs.Prelude.{◌≡◌, ◌≤◌, length, [], Ok, Err, None, All, unwrap_or, IfOk, IfErr, IfSome, is_none, option_copied};
ghost use Rattle.qz_terms.specs.declared.limits.TheConstants.{LONGEST_KEY};
ghost use Rattle.qz_grading.specs.Grading.{at_place};
ghost use Rattle.qz_keeper.specs.Lists.{CallEnds, EachMayStand, IsStored, Looks, OneCall, Settles};
ghost use Rattle.qz_keeper.specs.Recording.{GoesOn, HasFailed};
ghost use Rattle.qz_record.specs.Lengths.{NamesBriefly};
ghost use Rattle.qz_record.specs.Records.{IsRecord};
ghost use Rattle.qz_terms.specs.declared.reply.Reply.TheVariants as reply;
ghost use Rattle.qz_terms.specs.Legal.{IsLegalCatalog};
ghost use Rattle.qz_catalog.specs.Applying.{IsAsked};
ghost use Rattle.qz_catalog.specs.Keeping.{IsOpened, IsTold, IsUnopened, TellsJob, TellsPlan, TellsPolicy, TellsUser};

use crate::catalog_core::CatalogCore;
use qz_disks::{KeepErr, Keeper};
use qz_grading::Refusal;
use qz_keeper::{RecordKeeper, refusal_of, reply_of};
use qz_record::ListFault;
use qz_terms::{Ask, Job, Plan, Policy, Record, Reply, User};
use qz_text::{Bytes, Text, TryCopy};
use std::alloc::Global;
use std::marker::Model;

/// The records of a school's users, bank and quizzes, and their keeper.
///
/// A record is kept before anything is changed, and after all that takes memory. Where keeping it failed it is in doubt: whether it is
/// kept isn't known. The next call finds that out and mends the list: it takes the record where it is kept, and else drops it. A call
/// answers `KeepFault` only where the keeper failed in that call, and then puts nothing.
#[derive(Drop)]
pub struct Catalog<K: Keeper> {
    core: CatalogCore,
    keeper: RecordKeeper<K>,
}

impl<K: Keeper> Model for Catalog<K> {
    ghost use Rattle.qz_keeper.specs.Lists.{IsKeptList, held_in};
    ghost use Rattle.qz_catalog.specs.Keeping.{Keeping, MayFollow};

    ghost Value = { Keeping K };

    ghost view = { λ c. record { held = held_in c.core c.keeper; keeper = c.keeper.keeper } };

    ghost invariant = { λ c. IsKeptList K.kept MayFollow c.core c.keeper };
}

impl<K: Keeper> Catalog<K> {
    /// Reads a catalogue's list, whose records these payloads spell, in order. They are those that the keeper keeps.
    ///
    /// Each record has to be one that may stand behind those before it. `Illegal` names the first payload, from 1, that spells no such
    /// record. Where there are no payloads there is no catalogue, and no fault either. The keeper is given back with it.
    pub fn load(
        alloc: Global,
        keeper: K,
        payloads: &[Bytes],
    ) -> Result<Catalog<K>, (K, Option<ListFault>)>
        requires settled { K.doubt keeper ≡ None }
        requires kept { IfSome (K.kept keeper) (λ told. told ≡ payloads.now) }
        ensures opened { IfOk result (IsOpened payloads.now keeper) }
        ensures unopened { IfErr result (λ f. IsUnopened payloads.now f.1) }
        ensures back { IfErr result (λ f. f.0 ≡ keeper) }
    {
        match CatalogCore::load(alloc, payloads) {
            Ok(Some(core)) => Ok(Catalog {
                core,
                keeper: RecordKeeper::new(keeper),
            }),
            Ok(None) => Err((keeper, None)),
            Err(fault) => Err((keeper, Some(fault))),
        }
    }

    /// The number of records, without one in doubt. The list is legal and of records that a file may keep, also with a record that is in
    /// doubt.
    pub fn len(&self) -> u64
        ensures count { result ≡ length self.now.held.list }
        ensures legal { EachMayStand IsLegalCatalog self.now.held }
        ensures records { EachMayStand (All IsRecord) self.now.held }
    {
        self.core.len()
    }

    /// The records, without one in doubt, to be read.
    pub fn core(&self) -> &CatalogCore
        ensures { result.now ≡ self.now.held.list }
    {
        &self.core
    }

    /// Whether no record is in doubt.
    pub fn is_settled(&self) -> bool
        ensures { result ≡ is_none self.now.held.doubt }
    {
        self.keeper.is_settled()
    }

    /// The record at a place, from 1 on, and `None` where there is no such place. One in doubt has none.
    pub fn record_at(&self, place: u64) -> Option<&Record>
        ensures { option_copied result ≡ at_place self.now.held.list place }
    {
        self.core.records().get((place as usize).checked_sub(1)?)
    }

    /// The keeper, as it keeps the list.
    pub fn into_keeper(self) -> K
        ensures keeper { result ≡ self.keeper }
        ensures stored { IsStored (K.kept result) (K.doubt result) self.held }
    {
        self.keeper.into_keeper()
    }

    /// Finds out what became of the record in doubt, and takes it where it is kept. After an error all is as it was.
    fn settle(&mut self, alloc: Global) -> Result<(), KeepErr>
        ensures settles { Settles (HasFailed (K.sound self.old.keeper)
            (K.faults self.old.keeper) (K.faults self.new.keeper))
            self.old.held self.new.held result }
        ensures goes_on { GoesOn (K.sound self.old.keeper) (K.sound self.new.keeper)
            (K.faults self.old.keeper) (K.faults self.new.keeper) }
    {
        self.keeper.find(alloc, self.core.len())?;
        let Some(found) = self.keeper.found() else {
            return Ok(());
        };
        let made = found.try_copy(alloc)?;
        self.core.adopt(alloc, made)?;
        self.keeper.settle();
        Ok(())
    }

    /// Mends the list: finds out what became of the record in doubt, takes it where it is kept, and else drops it. After an error all
    /// is as it was.
    pub fn mend(&mut self, alloc: Global) -> Result<(), Refusal>
        ensures mended { OneCall (HasFailed (K.sound self.old.keeper)
            (K.faults self.old.keeper) (K.faults self.new.keeper)) (λ r. Err r)
            (Looks (λ _ told. told ≡ Ok tt)) self.old.held self.new.held result }
        ensures goes_on { GoesOn (K.sound self.old.keeper) (K.sound self.new.keeper)
            (K.faults self.old.keeper) (K.faults self.new.keeper) }
    {
        match self.settle(alloc) {
            Ok(()) => Ok(()),
            Err(why) => Err(refusal_of(why)),
        }
    }
}

impl<K: Keeper> Catalog<K> {
    /// A copy of the user who is known by a token. Where there is none it is `UnknownToken`. The list is mended first.
    pub fn user(&mut self, alloc: Global, token: &Text) -> Result<User, Refusal>
        ensures told { OneCall (HasFailed (K.sound self.old.keeper)
            (K.faults self.old.keeper) (K.faults self.new.keeper)) (λ r. Err r)
            (Looks (TellsUser token.now)) self.old.held self.new.held result }
        ensures goes_on { GoesOn (K.sound self.old.keeper) (K.sound self.new.keeper)
            (K.faults self.old.keeper) (K.faults self.new.keeper) }
    {
        self.mend(alloc)?;
        self.core.user(alloc, token)
    }

    /// The plan of a quiz for a user, over all the records. It has the questions of its slots, in order, where it is to be whole, and
    /// else none. All its numbers are in range, and its questions keep what every question keeps.
    ///
    /// A quiz that isn't there is `Unknown`, and then a user who isn't there. The list is mended first.
    pub fn plan(
        &mut self,
        alloc: Global,
        quiz: u32,
        user: u32,
        whole: bool,
    ) -> Result<Plan, Refusal>
        ensures told { OneCall (HasFailed (K.sound self.old.keeper)
            (K.faults self.old.keeper) (K.faults self.new.keeper)) (λ r. Err r)
            (Looks (TellsPlan quiz user whole)) self.old.held self.new.held result }
        ensures goes_on { GoesOn (K.sound self.old.keeper) (K.sound self.new.keeper)
            (K.faults self.old.keeper) (K.faults self.new.keeper) }
    {
        self.mend(alloc)?;
        self.core.plan(alloc, quiz, user, whole)
    }

    /// How a quiz is graded, over all the records: the policy that each plan of it has, whoever the user is.
    ///
    /// A quiz that isn't there is `Unknown`. The list is mended first.
    pub fn policy(&mut self, alloc: Global, quiz: u32) -> Result<Policy, Refusal>
        ensures told { OneCall (HasFailed (K.sound self.old.keeper)
            (K.faults self.old.keeper) (K.faults self.new.keeper)) (λ r. Err r)
            (Looks (TellsPolicy quiz)) self.old.held self.new.held result }
        ensures goes_on { GoesOn (K.sound self.old.keeper) (K.sound self.new.keeper)
            (K.faults self.old.keeper) (K.faults self.new.keeper) }
    {
        self.mend(alloc)?;
        self.core.policy(alloc, quiz)
    }

    /// A job: its position, and the plan of its quiz over the records up to there, with the quiz's own settings and a question for
    /// each slot. All its numbers are in range, and its questions keep what every question keeps.
    ///
    /// A job that isn't there is `Unknown`. The list is mended first.
    pub fn job(&mut self, alloc: Global, number: u32) -> Result<Job, Refusal>
        ensures told { OneCall (HasFailed (K.sound self.old.keeper)
            (K.faults self.old.keeper) (K.faults self.new.keeper)) (λ r. Err r)
            (Looks (TellsJob number)) self.old.held self.new.held result }
        ensures goes_on { GoesOn (K.sound self.old.keeper) (K.sound self.new.keeper)
            (K.faults self.old.keeper) (K.faults self.new.keeper) }
    {
        self.mend(alloc)?;
        self.core.job(alloc, number)
    }
}

impl<K: Keeper> Catalog<K> {
    /// Answers a request to the catalogue, at this moment by the clock, in seconds since 1970: the fourteen that put a record, and
    /// the looks at the jobs and at a version of an entry. The list is mended first. The request's key has at most 64 bytes, a name
    /// that it brings 255 and a token 64, and no description that it brings has a general feedback.
    ///
    /// The user is the one whom the request's caller stands for. The reply is the answer over the mended list, and the list
    /// afterwards has the request's record at its end where the answer puts one. A refusal adds nothing, and neither does a request
    /// whose caller and key stand with the same request already: it gets the reply of that one. Where memory is wanting the reply is
    /// `Memory` and nothing is put. Where the keeper fails it is `KeepFault`, nothing is put, and one record is in doubt: that of
    /// the answer, or the one that was.
    pub fn apply(&mut self, alloc: Global, user: &User, ask: &Ask, moment: u64) -> Reply
        requires asked { EachMayStand (λ c. IsAsked c user.now ask.now moment) self.old.held }
        requires brief { length (unwrap_or ask.now.key []) ≤ LONGEST_KEY }
        requires names { NamesBriefly ask.now.request }
        ensures answer { OneCall (HasFailed (K.sound self.old.keeper)
            (K.faults self.old.keeper) (K.faults self.new.keeper))
            reply.Refused (IsTold moment user.now ask.now) self.old.held self.new.held result }
        ensures goes_on { GoesOn (K.sound self.old.keeper) (K.sound self.new.keeper)
            (K.faults self.old.keeper) (K.faults self.new.keeper) }
    {
        if let Err(why) = self.settle(alloc) {
            return Reply::Refused(refusal_of(why));
        }
        self.answer(alloc, user, ask, moment)
    }

    /// Answers a request over a list that was mended.
    fn answer(&mut self, alloc: Global, user: &User, ask: &Ask, moment: u64) -> Reply
        requires settled { self.old.held.doubt ≡ None }
        requires asked { IsAsked self.old.held.list user.now ask.now moment }
        requires brief { length (unwrap_or ask.now.key []) ≤ LONGEST_KEY }
        requires names { NamesBriefly ask.now.request }
        ensures ends { CallEnds (HasFailed (K.sound self.old.keeper)
            (K.faults self.old.keeper) (K.faults self.new.keeper))
            reply.Refused (IsTold moment user.now ask.now) self.old.held self.new.held result }
        ensures goes_on { GoesOn (K.sound self.old.keeper) (K.sound self.new.keeper)
            (K.faults self.old.keeper) (K.faults self.new.keeper) }
    {
        let told = self.core.answer(alloc, user, ask, moment, &mut self.keeper);
        reply_of(told)
    }
}
