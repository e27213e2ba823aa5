//! A shard in memory and what is asked of it.

ghost use Rattle.std.specs.Prelude.{◌≡◌, ◌+◌, ◌<◌, ◌≤◌, ◌++◌, ◌∷◌, [], length, map, true, false, Ok, Some, None, IfOk, IfErr, OnOk, OnErr};
ghost use Rattle.qz_decimal.specs.Numbers.{IsMaxSum, IsQuizGrade};
ghost use Rattle.qz_grading.specs.declared.refusal.Refusal.TheVariants as refusal;
ghost use Rattle.qz_terms.specs.declared.reply.Done.TheVariants as done;
ghost use Rattle.qz_terms.specs.declared.reply.Reply.TheVariants as reply;
ghost use Rattle.qz_keeper.specs.Recording.{IsReadyFor, IsRecorded, Recorded, failure};
ghost use Rattle.qz_terms.specs.Answer.{list_after, named_user, work_after};
ghost use Rattle.qz_terms.specs.History.{live_after, place, quiz, takers};
ghost use Rattle.qz_terms.specs.Legal.{IsLegal};
ghost use Rattle.qz_shard.specs.Answering.{IsAnswered, IsPosed};
ghost use Rattle.qz_looks.specs.Grades.{graded};
ghost use Rattle.qz_book.specs.Held.{IsHeld, is_shard};
ghost use Rattle.qz_shard.specs.Holdings.{is_change, is_look, IsAsked, StartsHere, older, Answers, IsAlone, IsWorkable, Works};
ghost use Rattle.qz_lives.specs.Changes.{gradings_by};
ghost use Rattle.qz_shard.specs.Gradings.{most_gradings, most_of_work};
ghost use Rattle.qz_shard.specs.Loads.{IsListFault, IsLoaded, IsTaken};
ghost use Rattle.qz_book.specs.Nexts.{IsNext};
ghost use Rattle.qz_shard.specs.Puts.{IsPutWith};
ghost use Rattle.qz_shard.specs.Works.{IsWorked};

use crate::decision::{Decision, decide};
use crate::looking::seen;
use crate::putting::{moment_of, record_of, tell};
use crate::shard::Older;
use crate::working::{Work, work_on};
use qz_book::{Book, Cursors};
use qz_decimal::Grade;
use qz_disks::KeepErr;
use qz_grading::{AttemptId, Refusal, Steps, Thing};
use qz_index::Keys;
use qz_keeper::{Recorder, Unrecorded};
use qz_legal::is_allowed;
use qz_looks::rows;
use qz_record::{ListFault, RecordFault, parse};
use qz_terms::{Ask, Done, Job, Plan, Policy, Record, Reply, Request, User, named_user};
use qz_text::{Bytes, Listed, NoMemory};
use std::alloc::Global;
use std::marker::{Brand, Model};
use std::sync::ledger::{Blank, Ledger};

/// What is said of a request that had nothing to do.
fn idle(book: &Book, user: &User, request: &Request) -> Reply
    ensures { result ≡ reply.Ok (place book.now (named_user user.now request.now)) done.Idle }
{
    Reply::Ok {
        place: book.place(named_user(user, request)),
        done: Done::Idle,
    }
}

/// The records of the attempts of a part of the users: those whose number, modulo the number of shards, is the shard's index.
///
/// Beside them it keeps an index of them, what each attempt has come to, what was said under each key, and how far the jobs at work
/// have come. So a request walks no list of records, and only a step that is put is graded.
#[derive(Drop)]
pub struct ShardCore {
    index: u8,
    count: u8,
    book: Book,
    keys: Keys,
    cursors: Cursors,
}

impl Model for ShardCore {
    ghost use Rattle.qz_shard.specs.Holdings.{Holding};

    ghost Value = { Holding };

    ghost use Rattle.qz_legal.specs.Beside.{IsAnswering};

    ghost view = { λ s. record { index = s.index; count = s.count; records = s.book } };

    ghost invariant = { λ s. IsAnswering s.index s.count s.book s.keys s.cursors };
}

impl ShardCore {
    /// A shard without a record: one of `count` shards, which are from 1 to 64.
    pub fn new(alloc: Global, index: u8, count: u8) -> ShardCore
        requires { is_shard index count ≡ true }
        ensures { result ≡ record { index = index; count = count; records = [] } }
    {
        ShardCore {
            index,
            count,
            book: Book::new(alloc),
            keys: Keys::new(alloc),
            cursors: Cursors::new(alloc),
        }
    }

    /// Reads a shard's list: one of `count` shards, which are from 1 to 64, whose records these payloads spell, in order.
    ///
    /// Each record has to be one that may stand behind those before it. `Illegal` names the first payload, from 1, that spells no such
    /// record. What was said of a record with a key is kept again, so that a request that is asked again has the reply that it had.
    pub fn load(
        alloc: Global,
        index: u8,
        count: u8,
        payloads: &[Bytes],
    ) -> Result<ShardCore, ListFault>
        requires { is_shard index count ≡ true }
        ensures loaded { IfOk result (IsLoaded index count payloads.now) }
        ensures illegal { IfErr result (IsListFault index count payloads.now) }
    {
        let mut shard = ShardCore::new(alloc, index, count);
        for (place, payload) in payloads.iter().enumerate() {
            if !shard.take::<Brand>(Blank::new(1), alloc, payload.as_slice())? {
                return Err(ListFault::Illegal {
                    nth: place as u64 + 1,
                });
            }
        }
        Ok(shard)
    }

    /// Takes the record that a payload spells, where it may stand at the end. Its gradings aren't counted.
    fn take<L: Ledger>(
        &mut self,
        blank: Blank,
        alloc: Global,
        payload: &[u8],
    ) -> Result<bool, NoMemory>
        requires name { blank.name ≡ L.name }
        requires parts { blank.parts ≡ L.parts }
        requires some_part { 0 < blank.parts }
        ensures taken { IfOk result (IsTaken self.old self.new payload.now) }
        ensures shard { (self.new.index ≡ self.old.index) × (self.new.count ≡ self.old.count) }
    {
        let made = match parse(alloc, payload) {
            Ok(made) => made,
            Err(RecordFault::NotOne) => return Ok(false),
            Err(RecordFault::Memory) => return Err(NoMemory),
        };
        if !is_allowed(
            alloc,
            &self.book,
            &self.keys,
            &mut self.cursors,
            self.index,
            self.count,
            &made,
        )? {
            return Ok(false);
        }
        self.adopt::<L>(blank, alloc, made)?;
        Ok(true)
    }

    /// Puts a record that is kept already. Its gradings aren't counted. Where memory is wanting the shard is as before.
    pub(crate) fn adopt<L: Ledger>(
        &mut self,
        blank: Blank,
        alloc: Global,
        made: Record,
    ) -> Result<(), NoMemory>
        requires name { blank.name ≡ L.name }
        requires parts { blank.parts ≡ L.parts }
        requires some_part { 0 < blank.parts }
        requires next { IsNext self.old.index self.old.count self.old.records made }
        ensures put { OnOk result (self.new.records ≡ self.old.records ++ made ∷ []) }
        ensures unchanged { OnErr result (self.new ≡ self.old) }
        ensures shard { (self.new.index ≡ self.old.index) × (self.new.count ≡ self.old.count) }
    {
        match self.put(alloc, made, &mut Unrecorded, &mut Steps::<L>::open(blank)) {
            Ok(_) => Ok(()),
            Err(KeepErr::Memory) => Err(NoMemory),
            Err(KeepErr::Fault) => unreachable!(),
        }
    }

    /// The number of records.
    pub fn len(&self) -> u64
        ensures count { result ≡ length self.now.records }
        ensures legal { IsLegal self.now.index self.now.count self.now.records }
        ensures held { IsHeld self.now.index self.now.count self.now.records }
    {
        self.book.len()
    }

    /// The records, in order.
    pub(crate) fn records(&self) -> &[Record]
        ensures { result.now ≡ self.now.records }
    {
        self.book.as_slice()
    }

    /// The quiz of an attempt. Where there is no such attempt it is `Unknown`.
    pub fn quiz_of(&mut self, attempt: AttemptId) -> Result<u32, Refusal>
        ensures there { IfOk result (λ q. quiz self.old.records attempt ≡ Some q) }
        ensures missing { IfErr result (λ r. (quiz self.old.records attempt ≡ None) × (r ≡ Refusal.Unknown Thing.Attempt)) }
        ensures unchanged { self.new ≡ self.old }
    {
        match self.book.begun(attempt) {
            Some(begun) => Ok(begun.quiz),
            None => Err(Refusal::Unknown {
                what: Thing::Attempt,
            }),
        }
    }

    /// The first attempt after this one that hasn't ended, in order of user and then of number, over all quizzes. An attempt that
    /// is overdue and isn't settled yet is among them.
    ///
    /// `after` is only a bound and needn't be there: 0 and 0 come before all. Where each attempt after it has ended the answer is
    /// `None`. A walk over a list that is kept in memory has no error.
    pub fn live(&mut self, after: AttemptId) -> Result<Option<AttemptId>, Refusal>
        ensures there { result ≡ Ok (live_after self.old.records after) }
        ensures unchanged { self.new ≡ self.old }
    {
        Ok(self.book.live_after(after))
    }

    /// The grade (in 10^-5) at a quiz of each user who has an attempt of it here, in order of user, each once. A user of whom no
    /// total is taken has none. The policy's grade is from 0 to 10,000, and its sum of max marks from 0 to 2,000,000. `Memory` is
    /// the only error.
    pub fn rows<L: Ledger>(
        &mut self,
        alloc: Global,
        quiz: u32,
        policy: &Policy,
        steps: &mut Steps<L>,
    ) -> Result<Listed<(u32, Option<Grade>)>, Refusal>
        requires grade { IsQuizGrade policy.now.grade }
        requires sum { IsMaxSum policy.now.sum }
        ensures rows { IfOk result (λ rows. rows ≡ map (graded self.old.records quiz policy.now) (takers self.old.records quiz)) }
        ensures wants { IfErr result (λ r. r ≡ refusal.Memory) }
        ensures unchanged { self.new ≡ self.old }
        ensures count { steps.new ≡ steps.old }
    {
        Ok(rows(alloc, &self.book, quiz, policy)?)
    }

    /// Answers a request that may change the list: a start, a save, a submit, an again, a finish, a mark or a settling, at this
    /// moment by the clock, in seconds since 1970.
    ///
    /// The plan is of the quiz that the request names, or of that of the attempt that it names, where it is there. The reply is
    /// the answer over the list before, and the list afterwards has the answer's record at its end where the answer puts one. A
    /// refusal adds nothing, and neither does a request whose caller and key stand with the same request already: it gets the
    /// reply of that one. Where memory is wanting the reply is `Memory` and the list is as before. A start whose plan is older
    /// than a job that is done here is `Older`, and changes nothing. What a student is told depends on nobody else: it is
    /// the answer over each list that is alike for this student.
    pub fn apply<L: Ledger>(
        &mut self,
        alloc: Global,
        user: &User,
        plan: &Plan,
        ask: &Ask,
        moment: u64,
        steps: &mut Steps<L>,
    ) -> Result<Reply, Older>
        requires change { is_change ask.now.request ≡ true }
        requires asked { IsAsked self.old.records plan.now ask.now moment }
        requires here { StartsHere self.old user.now plan.now ask.now.request }
        ensures answer { IfOk result (λ told. Answers self.old.records moment user.now plan.now ask.now told self.new.records) }
        ensures alone { IfOk result (λ told. IsAlone self.old moment user.now plan.now ask.now told) }
        ensures newer { OnOk result (older self.old.records plan.now ask.now.request ≡ None) }
        ensures older { IfErr result (λ o. older self.old.records plan.now ask.now.request ≡ Some o.floor) }
        ensures unchanged { OnErr result (self.new ≡ self.old) }
        ensures shard { (self.new.index ≡ self.old.index) × (self.new.count ≡ self.old.count) }
        ensures count { steps.new ≤ steps.old + most_gradings self.old.records ask.now.request }
        ensures still { self.new.records ≡ self.old.records → steps.new ≡ steps.old }
    {
        if let Some(floor) = self.older(plan, &ask.request) {
            return Err(Older { floor });
        }
        match self.answer(alloc, user, plan, ask, moment, &mut Unrecorded, steps) {
            Ok(reply) => Ok(reply),
            Err(KeepErr::Memory) => Ok(Reply::Refused(Refusal::Memory)),
            Err(KeepErr::Fault) => unreachable!(),
        }
    }

    /// Answers a request that only looks: a view, a total, a page or a grade. The list stays as it is, and where memory is wanting
    /// the reply is `Memory`. What a student is told depends on nobody else here too.
    pub fn look<L: Ledger>(
        &mut self,
        alloc: Global,
        user: &User,
        plan: &Plan,
        ask: &Ask,
        moment: u64,
        steps: &mut Steps<L>,
    ) -> Reply
        requires look { is_look ask.now.request ≡ true }
        requires asked { IsAsked self.old.records plan.now ask.now moment }
        ensures answer { Answers self.old.records moment user.now plan.now ask.now result self.old.records }
        ensures alone { IsAlone self.old moment user.now plan.now ask.now result }
        ensures unchanged { self.new ≡ self.old }
        ensures count { steps.new ≡ steps.old }
    {
        match seen(alloc, &self.book, user, plan, ask, moment) {
            Ok(reply) => reply,
            Err(NoMemory) => Reply::Refused(Refusal::Memory),
        }
    }

    /// Takes a job's first target here, or says that the job is done, at this moment by the clock, in seconds since 1970. The caller
    /// is the user who asks, or 0 for a worker.
    ///
    /// A target is a slot of an attempt of the job's quiz, live or ended, that was bound before the job's position and that the job
    /// hasn't skipped; the first is that in order of user, attempt and slot. Where the plan's version of its slot has the same
    /// shape, that version is bound and the slot's steps are read again under it; else the slot is skipped. Where no target is
    /// left the job is done here, and where it was done before nothing is put. The reply is the answer over the list before, and the
    /// list afterwards has the answer's record at its end where the answer puts one. Where memory is wanting the reply is
    /// `Memory` and the list is as before.
    ///
    /// A target is looked for behind the attempts that the job has passed, so that the cost of a whole job grows with its targets and
    /// the attempts of its quiz, and not with their product.
    pub fn work<L: Ledger>(
        &mut self,
        alloc: Global,
        caller: u32,
        job: &Job,
        moment: u64,
        steps: &mut Steps<L>,
    ) -> Reply
        requires { IsWorkable self.old.records job.now moment }
        ensures answer { Works self.old.records moment caller job.now result self.new.records }
        ensures shard { (self.new.index ≡ self.old.index) × (self.new.count ≡ self.old.count) }
        ensures count { steps.new ≤ steps.old + most_of_work self.old.records job.now }
        ensures still { self.new.records ≡ self.old.records → steps.new ≡ steps.old }
    {
        match self.worked(alloc, caller, job, moment, &mut Unrecorded, steps) {
            Ok(reply) => reply,
            Err(KeepErr::Memory) => Reply::Refused(Refusal::Memory),
            Err(KeepErr::Fault) => unreachable!(),
        }
    }

    /// Answers a worker's request, and puts the record that it makes, once it is recorded. Where that fails the list is as before.
    pub(crate) fn worked<R: Recorder, L: Ledger>(
        &mut self,
        alloc: Global,
        caller: u32,
        job: &Job,
        now: u64,
        recorder: &mut R,
        steps: &mut Steps<L>,
    ) -> Result<Reply, KeepErr>
        requires workable { IsWorkable self.old.records job.now now }
        requires ready { IsReadyFor R.ready recorder.old
            (IsNext self.old.index self.old.count self.old.records) None }
        ensures worked { IfOk result (λ told. IsWorked self.old.records now caller job.now told self.new.records) }
        ensures recorded { Recorded R.records (IsNext self.old.index self.old.count self.old.records)
            self.old.records (work_after self.old.records now caller job.now)
            recorder.old recorder.new (failure result) }
        ensures unchanged { OnErr result (self.new ≡ self.old) }
        ensures shard { (self.new.index ≡ self.old.index) × (self.new.count ≡ self.old.count) }
        ensures count { steps.new ≤ steps.old + most_of_work self.old.records job.now }
        ensures still { self.new.records ≡ self.old.records → steps.new ≡ steps.old }
    {
        let made = match work_on(alloc, &self.book, &mut self.cursors, now, caller, job)? {
            Work::AlreadyDone(place) => {
                return Ok(Reply::Ok {
                    place,
                    done: Done::AlreadyDone { job: job.number },
                });
            }
            Work::Put(made) => made,
        };
        self.put(alloc, made, recorder, steps)
    }

    /// Answers a request, and puts the record that it makes, once it is recorded. Where that fails the list is as before.
    pub(crate) fn answer<R: Recorder, L: Ledger>(
        &mut self,
        alloc: Global,
        user: &User,
        plan: &Plan,
        ask: &Ask,
        now: u64,
        recorder: &mut R,
        steps: &mut Steps<L>,
    ) -> Result<Reply, KeepErr>
        requires posed { IsPosed self.old now user.now plan.now ask.now }
        requires ready { IsReadyFor R.ready recorder.old
            (IsNext self.old.index self.old.count self.old.records) ask.now.key }
        ensures answered { IfOk result (λ told. IsAnswered self.old.records now user.now plan.now ask.now told self.new.records) }
        ensures recorded { Recorded R.records (IsNext self.old.index self.old.count self.old.records)
            self.old.records (list_after self.old.records now user.now plan.now ask.now)
            recorder.old recorder.new (failure result) }
        ensures unchanged { OnErr result (self.new ≡ self.old) }
        ensures shard { (self.new.index ≡ self.old.index) × (self.new.count ≡ self.old.count) }
        ensures count { steps.new ≤ steps.old + most_gradings self.old.records ask.now.request }
        ensures still { self.new.records ≡ self.old.records → steps.new ≡ steps.old }
    {
        let moment = moment_of(&self.book, now, user, &ask.request);
        let event = match decide(alloc, &self.book, &self.keys, moment, user, plan, ask)? {
            Decision::Refused(refusal) => return Ok(Reply::Refused(refusal)),
            Decision::Repeated(reply) => return Ok(reply),
            Decision::Idle => return Ok(idle(&self.book, user, &ask.request)),
            Decision::Made(event) => event,
        };
        let made = record_of(alloc, moment, user, plan, ask, event)?;
        self.put(alloc, made, recorder, steps)
    }

    /// Puts a record, once it is recorded, and gives what is said of it, which is kept with its key. All that takes memory is made
    /// first, and where it is wanting or the record can't be recorded the shard is as before.
    pub(crate) fn put<R: Recorder, L: Ledger>(
        &mut self,
        alloc: Global,
        made: Record,
        recorder: &mut R,
        steps: &mut Steps<L>,
    ) -> Result<Reply, KeepErr>
        requires next { IsNext self.old.index self.old.count self.old.records made }
        requires ready { R.ready recorder.old made }
        ensures put { IfOk result (λ reply. IsPutWith self.old.records self.new.records made reply) }
        ensures recorded { IsRecorded R.records made recorder.old recorder.new (failure result) }
        ensures unchanged { OnErr result (self.new ≡ self.old) }
        ensures shard { (self.new.index ≡ self.old.index) × (self.new.count ≡ self.old.count) }
        ensures count { steps.new ≤ steps.old + gradings_by self.old.records made.event }
        ensures still { OnErr result (steps.new ≡ steps.old) }
    {
        self.keys.grow(alloc, &made)?;
        let place = self.book.as_slice().len();
        self.book.put(alloc, made, recorder, steps)?;
        self.cursors.follow(&self.book.as_slice()[place]);
        Ok(tell(&self.book, &mut self.keys, place))
    }

    /// The floor of the quiz, where the plan of a start is older.
    pub(crate) fn older(&self, plan: &Plan, request: &Request) -> Option<u64>
        ensures { result ≡ older self.now.records plan.now request.now }
    {
        let Request::Start { .. } = request else {
            return None;
        };
        let floor = self.book.floor(plan.quiz);
        (plan.at < floor).then_some(floor)
    }
}
