//! A catalogue in memory and what is asked of it.

ghost use Rattle.std.specs.List.{list_all};
ghost use Rattle.std.specs.Prelude.{◌≡◌, ◌⊎◌, ◌≤◌, [], ◌∷◌, ◌++◌, true, false, length, map, Some, None, option_copied, option_map, All, IfOk, IfErr, OnErr, OnOk};
ghost use Rattle.qz_terms.specs.declared.limits.TheConstants.{MOST_SHARDS};
ghost use Rattle.qz_decimal.specs.Numbers.{IsMaxSum, IsQuizGrade};
ghost use Rattle.qz_grading.specs.declared.refusal.Refusal.TheVariants as refusal;
ghost use Rattle.qz_grading.specs.Behaviours.{first_some};
ghost use Rattle.qz_terms.specs.declared.people.User.{User};
ghost use Rattle.qz_terms.specs.Catalog.{job, plan, policy, user_of_token, users, version};
ghost use Rattle.qz_terms.specs.CatalogAnswer.{asks_catalog, catalog_after, is_look_in};
ghost use Rattle.qz_terms.specs.Cause.{missing_quiz, missing_user};
ghost use Rattle.qz_terms.specs.Kept.{IsKept, IsKeptPlan};
ghost use Rattle.qz_terms.specs.Legal.{IsAllowedInCatalog, IsLegalCatalog};
ghost use Rattle.qz_keeper.specs.Recording.{Recorded, failure};
ghost use Rattle.qz_catalog.specs.Applying.{Answers, IsAsked, IsDecision, IsFree, IsLooked};
ghost use Rattle.qz_catalog.specs.declared.decision.Decision.TheVariants as decision;
ghost use Rattle.qz_catalog.specs.Keeping.{IsReadyToPut, IsTold, MayFollow};
ghost use Rattle.qz_catalog.specs.Loads.{IsListFault, IsRead};
ghost use Rattle.qz_catalog.specs.Holdings.{founded, keeps_described, lean};
ghost use Rattle.qz_catalog.specs.Readings.{ready_settings};

use crate::adopting::{adopt, begin};
use crate::book::Book;
use crate::decision::{Decision, decide};
use crate::jobs::job;
use crate::loading::load;
use crate::people::{names, user, user_of_token};
use crate::planning::{plan, policy_of, ready_settings, version};
use crate::putting::put;
use crate::replies::{look, said};
use qz_disks::KeepErr;
use qz_grading::{Question, Refusal, Thing};
use qz_keeper::{Recorder, Unrecorded};
use qz_record::ListFault;
use qz_terms::{Ask, Event, Job, Plan, Policy, Record, Reply, Request, Settings, User};
use qz_text::{Bytes, Listed, NoMemory, Text, TryCopy};
use std::alloc::Global;
use std::marker::Model;

/// The records of a school's users, bank and quizzes, seen as their list.
///
/// Beside the list it keeps the bank that the records make, and what else they tell, by number, by token and by key. A call costs
/// what it touches, and not the whole list, but for `names`. A record is put in two moves: what may refuse it is decided and all
/// that takes memory is made first, and what follows takes none, so that nothing is ever undone.
#[derive(Drop)]
pub struct CatalogCore {
    book: Book,
}

impl Model for CatalogCore {
    ghost use Rattle.std.specs.Prelude.{List};
    ghost use Rattle.qz_terms.specs.declared.record.Record.{Record};
    ghost use Rattle.qz_catalog.specs.Holdings.{IsBook};

    ghost Value = { List Record };

    ghost view = { λ c. c.book.records.items };

    ghost invariant = { λ c. IsBook c.book };
}

/// The record of a school that is founded.
fn founding(alloc: Global, shards: u8, token: &Text) -> Result<Record, NoMemory>
    ensures { IfOk result (λ made. made ∷ [] ≡ founded shards token.now) }
{
    Ok(Record {
        moment: 0,
        caller: 0,
        owner: 0,
        key: None,
        terms: None,
        event: Event::Founded {
            shards,
            token: token.try_copy(alloc)?,
        },
    })
}

impl CatalogCore {
    /// The catalogue of a school that is founded with so many shards, from 1 to 64, and its manager's token. The manager is the first
    /// user.
    pub fn new(alloc: Global, shards: u8, token: &Text) -> Result<CatalogCore, NoMemory>
        requires some { 1 ≤ shards }
        requires few { shards ≤ MOST_SHARDS }
        ensures { IfOk result (λ catalog. catalog ≡ founded shards token.now) }
    {
        CatalogCore::begin(alloc, founding(alloc, shards, token)?)
    }

    /// The catalogue of a first record, which is a founding, as it is read of a file.
    pub fn begin(alloc: Global, record: Record) -> Result<CatalogCore, NoMemory>
        requires allowed { IsAllowedInCatalog [] «record» }
        requires kept { IsKept «record» }
        ensures { IfOk result (λ catalog. catalog ≡ «record» ∷ []) }
    {
        Ok(CatalogCore {
            book: begin(alloc, record)?,
        })
    }

    /// Puts a record at the end that is allowed behind those that stand, as it is read of a file. Where memory is wanting the list
    /// is as before.
    pub fn adopt(&mut self, alloc: Global, record: Record) -> Result<(), NoMemory>
        requires allowed { IsAllowedInCatalog self.old «record» }
        requires kept { IsKept «record» }
        requires described { keeps_described «record» ≡ true }
        ensures list { OnOk result (self.new ≡ self.old ++ «record» ∷ []) }
        ensures unchanged { OnErr result (self.new ≡ self.old) }
    {
        adopt(alloc, &mut self.book, record)
    }

    /// Reads a catalogue's list, whose records these payloads spell, in order. Where there are no payloads there is no catalogue.
    ///
    /// Each record has to be one that may stand behind those before it. `Illegal` names the first payload, from 1, that spells no such
    /// record.
    pub fn load(alloc: Global, payloads: &[Bytes]) -> Result<Option<CatalogCore>, ListFault>
        ensures loaded { IfOk result (IsRead payloads.now) }
        ensures illegal { IfErr result (IsListFault payloads.now) }
    {
        match load(alloc, payloads)? {
            Some(book) => Ok(Some(CatalogCore { book })),
            None => Ok(None),
        }
    }

    /// The number of records.
    pub fn len(&self) -> u64
        ensures count { result ≡ length self.now }
        ensures legal { IsLegalCatalog self.now }
        ensures kept { All IsKept self.now }
        ensures described { list_all keeps_described self.now ≡ true }
    {
        self.book.records.len() as u64
    }

    /// A copy of the user who is known by a token. Where there is none it is `UnknownToken`.
    pub fn user(&self, alloc: Global, token: &Text) -> Result<User, Refusal>
        ensures there { IfOk result (λ user. user_of_token self.now token.now ≡ Some user) }
        ensures refused { IfErr result (λ r. (r ≡ Refusal.Memory) ⊎ ((r ≡ Refusal.UnknownToken) × (user_of_token self.now token.now ≡ None))) }
    {
        match user_of_token(&self.book, token) {
            Some(made) => Ok(user(alloc, &made)?),
            None => Err(Refusal::UnknownToken),
        }
    }

    /// The plan of a quiz for a user, over all the records. It has the questions of its slots, in order, where it is to be whole, and
    /// else none. All its numbers are in range, and its questions keep what every question keeps.
    ///
    /// A quiz that isn't there is `Unknown`, and then a user who isn't there.
    pub fn plan(&self, alloc: Global, quiz: u32, user: u32, whole: bool) -> Result<Plan, Refusal>
        ensures plan { IfOk result (λ p. option_map (lean whole) (plan self.now quiz user) ≡ Some p) }
        ensures kept { IfOk result IsKeptPlan }
        ensures each { IfOk result (λ p. whole ≡ true → length p.questions ≡ length p.slots) }
        ensures free { OnOk result (first_some (missing_quiz self.now quiz ∷ missing_user self.now user ∷ []) ≡ None) }
        ensures refused { IfErr result (λ r. (r ≡ Refusal.Memory) ⊎ (first_some (missing_quiz self.now quiz ∷ missing_user self.now user ∷ []) ≡ Some r)) }
    {
        plan(alloc, &self.book, quiz, user, whole)
    }
}

impl CatalogCore {
    /// The users' names, in order of number. `Memory` is the only error.
    pub fn names(&self, alloc: Global) -> Result<Listed<Text>, Refusal>
        ensures names { IfOk result (λ names. names ≡ map (λ (u : User). u.name) (users self.now)) }
        ensures wants { IfErr result (λ r. r ≡ Refusal.Memory) }
    {
        Ok(names(alloc, &self.book.records)?)
    }

    /// How a quiz is graded, over all the records: the policy that each plan of it has, whoever the user is.
    ///
    /// A quiz that isn't there is `Unknown`.
    pub fn policy(&self, alloc: Global, quiz: u32) -> Result<Policy, Refusal>
        ensures policy { IfOk result (λ p. p ≡ policy self.now quiz) }
        ensures grade { IfOk result (λ p. IsQuizGrade p.grade) }
        ensures sum { IfOk result (λ p. IsMaxSum p.sum) }
        ensures there { OnOk result (missing_quiz self.now quiz ≡ None) }
        ensures refused { IfErr result (λ r. (r ≡ Refusal.Memory) ⊎ (missing_quiz self.now quiz ≡ Some r)) }
    {
        policy_of(alloc, &self.book, quiz)
    }

    /// A job: its position, and the plan of its quiz over the records up to there, with the quiz's own settings and a question for
    /// each slot. All its numbers are in range, and its questions keep what every question keeps.
    ///
    /// A job that isn't there is `Unknown`.
    pub fn job(&self, alloc: Global, number: u32) -> Result<Job, Refusal>
        ensures job { IfOk result (λ j. job self.now number ≡ Some j) }
        ensures kept { IfOk result (λ j. IsKeptPlan j.plan) }
        ensures each { IfOk result (λ j. length j.plan.questions ≡ length j.plan.slots) }
        ensures refused { IfErr result (λ r. (r ≡ Refusal.Memory) ⊎ ((r ≡ Refusal.Unknown Thing.Job) × (job self.now number ≡ None))) }
    {
        job(alloc, &self.book, number)
    }
}

impl CatalogCore {
    /// The records, in order: one at least.
    pub fn records(&self) -> &[Record]
        ensures list { result.now ≡ self.now }
        ensures kept { All IsKept self.now }
        ensures described { list_all keeps_described self.now ≡ true }
        ensures some { 1 ≤ length self.now }
        ensures legal { IsLegalCatalog self.now }
    {
        self.book.records.as_slice()
    }

    /// A version of an entry, if it is there.
    pub fn version(&self, entry: u32, number: u32) -> Option<&Question>
        ensures { option_copied result ≡ version self.now entry number }
    {
        version(&self.book, entry, number)
    }

    /// The settings of a quiz that is ready, for a user of this number, who needn't be there. There are none where it isn't ready.
    pub fn ready_settings(
        &self,
        alloc: Global,
        quiz: u32,
        user: u32,
    ) -> Result<Option<Settings>, NoMemory>
        ensures { IfOk result (λ found. found ≡ ready_settings self.now quiz user) }
    {
        ready_settings(alloc, &self.book, quiz, user)
    }
}

/// Whether a request only looks.
fn is_look(request: &Request) -> bool
    ensures { result ≡ is_look_in request.now }
{
    matches!(request, Request::Jobs | Request::Bank { .. })
}

impl CatalogCore {
    /// Answers a request to the catalogue, at this moment by the clock, in seconds since 1970: the fourteen that put a record, and
    /// the looks at the jobs and at a version of an entry. No description that it brings has a general feedback.
    ///
    /// The user is the one whom the request's caller stands for. The reply is the answer over the list before, and the list afterwards
    /// has the request's record at its end where the answer puts one. A refusal adds nothing, and neither does a request whose
    /// caller and key stand with the same request already: it gets the reply of that one. Where memory is wanting the reply is
    /// `Memory` and the list is as before.
    pub fn apply(&mut self, alloc: Global, user: &User, ask: &Ask, moment: u64) -> Reply
        requires { IsAsked self.old user.now ask.now moment }
        ensures { Answers self.old moment user.now ask.now result self.new }
    {
        match self.answer(alloc, user, ask, moment, &mut Unrecorded) {
            Ok(reply) => reply,
            Err(KeepErr::Memory) => Reply::Refused(Refusal::Memory),
            Err(KeepErr::Fault) => unreachable!(),
        }
    }

    /// Answers a request, and puts the record that it makes, once it is recorded. Where that fails the list is as before.
    pub(crate) fn answer<R: Recorder>(
        &mut self,
        alloc: Global,
        user: &User,
        ask: &Ask,
        now: u64,
        recorder: &mut R,
    ) -> Result<Reply, KeepErr>
        requires asked { IsAsked self.old user.now ask.now now }
        requires ready { IsReadyToPut R.ready recorder.old self.old now user.now ask.now }
        ensures told { IfOk result (λ told. IsTold now user.now ask.now self.old told self.new) }
        ensures recorded { Recorded R.records (MayFollow self.old) self.old
            (catalog_after self.old now user.now ask.now) recorder.old recorder.new (failure result) }
        ensures unchanged { OnErr result (self.new ≡ self.old) }
    {
        match self.decide(user, ask) {
            Decision::Refused(refusal) => Ok(Reply::Refused(refusal)),
            Decision::Repeated(at) => Ok(self.said_again(user, ask, at)),
            Decision::Free if is_look(&ask.request) => Ok(self.look(alloc, user, ask)?),
            Decision::Free => self.put(alloc, user, ask, now, recorder),
        }
    }

    /// What is done with a request.
    fn decide(&self, user: &User, ask: &Ask) -> Decision
        requires { asks_catalog ask.now.request ≡ true }
        ensures { IsDecision self.now user.now ask.now result }
    {
        decide(&self.book, user, ask)
    }

    /// What is said of a record that a request repeats.
    fn said_again(&self, user: &User, ask: &Ask, at: usize) -> Reply
        requires { IsDecision self.now user.now ask.now (decision.Repeated at) }
        ensures { IsLooked self.now user.now ask.now result }
    {
        said(&self.book, at)
    }

    /// The reply to a request that only looks.
    fn look(&self, alloc: Global, user: &User, ask: &Ask) -> Result<Reply, NoMemory>
        requires free { IsFree self.now user.now ask.now }
        requires look { is_look_in ask.now.request ≡ true }
        ensures { IfOk result (λ told. IsLooked self.now user.now ask.now told) }
    {
        look(alloc, &self.book, &ask.request)
    }

    /// Puts the record that a request makes, once it is recorded.
    fn put<R: Recorder>(
        &mut self,
        alloc: Global,
        user: &User,
        ask: &Ask,
        now: u64,
        recorder: &mut R,
    ) -> Result<Reply, KeepErr>
        requires asked { IsAsked self.old user.now ask.now now }
        requires keeps { is_look_in ask.now.request ≡ false }
        requires free { IsFree self.old user.now ask.now }
        requires ready { IsReadyToPut R.ready recorder.old self.old now user.now ask.now }
        ensures told { IfOk result (λ told. IsTold now user.now ask.now self.old told self.new) }
        ensures recorded { Recorded R.records (MayFollow self.old) self.old
            (catalog_after self.old now user.now ask.now) recorder.old recorder.new (failure result) }
        ensures unchanged { OnErr result (self.new ≡ self.old) }
    {
        put(alloc, &mut self.book, now, user, ask, recorder)
    }
}
