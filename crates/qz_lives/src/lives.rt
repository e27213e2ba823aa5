//! The attempts of a shard.

ghost use Rattle.std.specs.Prelude.{◌≡◌, ◌+◌, ◌<◌, ◌≤◌, [], ◌∷◌, ◌++◌, ℕ, List, length, filter, option_map, IfOk, IfSome, OnErr, OnOk, true, is_some, Some};
ghost use Rattle.std.specs.Option.{option_copied};
ghost use Rattle.std.specs.BTreeMap.{get};
ghost use Rattle.qz_grading.specs.Steps.{is_save};
ghost use Rattle.qz_grading.specs.declared.refusal.AttemptId.{AttemptId};
ghost use Rattle.qz_terms.specs.declared.record.Record.{Record};
ghost use Rattle.qz_terms.specs.History as history;
ghost use Rattle.qz_terms.specs.Rows.{IsTotal};
ghost use Rattle.qz_decimal.specs.Numbers.{IsMaxMark, IsMaxSum, IsQuizGrade, IsSlotMark};
ghost use Rattle.qz_usage.specs.Runs.{Run, bound_of};
ghost use Rattle.qz_lives.specs.declared.live.Live.{Live};
ghost use Rattle.qz_lives.specs.Attempts.{AreLives, IsSlotAt, begun_of, by_number, finished_in, goes_on_in, key_of, live_in, run_in};
ghost use Rattle.qz_lives.specs.Changes.{AreAlike, Becomes, CanAct, CanEnd, CanRebind, CanPutTotal, HasAbandoned, HasActed, HasEntry, HasFinished, HasRebound, HasRowRoom, HasPutTotal, IsCounted, IsLawful, IsReady, IsSame, IsTakenOut, Keeps, Knows, Leaves, gradings_by};
ghost use Rattle.qz_lives.specs.Runs.{HaveRoom, IsRoomy};

use crate::rows::{put_total, reserve};
use crate::{Begun, Ending, Live, Prepared, Versions};
use qz_decimal::{Grade, Mark};
use qz_gradebook::Rows;
use qz_grading::{AttemptId, Question, State, Step, Steps};
use qz_terms::{Bound, Event, How, Policy, Record};
use qz_text::{NoMemory, TryCopy};
use qz_usage::SlotRun;
use std::alloc::Global;
use std::collections::BTreeMap;
use std::ops::Bound as End;
use std::sync::ledger::Ledger;

/// The attempts of a shard, each with what its slots have come to, in order those that go on, and the totals of those that are
/// finished.
///
/// What is read takes no memory, and its time grows with the logarithm of the number of attempts. Each clause of a reading
/// holds for every list whose attempts these are.
#[derive(Drop)]
pub struct Lives {
    /// An entry without an attempt is room for one that starts.
    attempts: BTreeMap<(u32, u32), Option<Live>>,
    /// Whether an attempt goes on. One that has ended has no entry.
    going: BTreeMap<(u32, u32), bool>,
    /// The totals of finished attempts, by quiz and user. Rows without an attempt are room for the first that finishes.
    rows: BTreeMap<(u32, u32), Rows>,
}

fn key_of(attempt: AttemptId) -> (u32, u32)
    ensures { result ≡ key_of attempt }
{
    (attempt.user, attempt.nth)
}

impl Lives {
    /// No attempts. It takes no memory.
    pub fn new(alloc: Global) -> Lives
        ensures { AreLives result [] }
    {
        Lives {
            attempts: BTreeMap::new(alloc),
            going: BTreeMap::new(alloc),
            rows: BTreeMap::new(alloc),
        }
    }

    /// What is kept of an attempt, if it was started.
    fn attempt(&self, attempt: AttemptId) -> Option<&Live>
        ensures { option_copied result ≡ live_in self.now attempt }
    {
        self.attempts.get(&key_of(attempt))?.as_ref()
    }

    /// How an attempt began, if it is there.
    pub fn begun(&self, attempt: AttemptId) -> Option<Begun>
        ensures { (h : List Record) → AreLives self.now h
            → result ≡ option_map begun_of (history.start h attempt) }
    {
        Some(self.attempt(attempt)?.begun())
    }

    /// How an attempt ended, if it did.
    pub fn ended(&self, attempt: AttemptId) -> Option<How>
        ensures { (h : List Record) → AreLives self.now h → result ≡ history.ended h attempt }
    {
        Some(self.attempt(attempt)?.ending()?.how)
    }

    /// At which place an attempt ended, if it did: the number of its user's records up to that one.
    pub fn ended_at(&self, attempt: AttemptId) -> Option<u64>
        ensures { (h : List Record) → AreLives self.now h → result ≡ history.ended_at h attempt }
    {
        Some(self.attempt(attempt)?.ending()?.place)
    }

    /// Whether an attempt has ended.
    pub fn is_ended(&self, attempt: AttemptId) -> bool
        ensures { (h : List Record) → AreLives self.now h → result ≡ history.is_ended h attempt }
    {
        self.ended(attempt).is_some()
    }

    /// The quiz of an attempt, if it is there.
    pub fn quiz(&self, attempt: AttemptId) -> Option<u32>
        ensures { (h : List Record) → AreLives self.now h → result ≡ history.quiz h attempt }
    {
        Some(self.begun(attempt)?.quiz)
    }

    /// How many slots an attempt has, at most 200.
    pub fn slot_count(&self, attempt: AttemptId) -> usize
        ensures value { (h : List Record) → AreLives self.now h → result ≡ history.slot_count h attempt }
        ensures few { (h : List Record) → AreLives self.now h → result ≤ 200 }
    {
        match self.begun(attempt) {
            Some(begun) => begun.slots,
            None => 0,
        }
    }

    /// What is bound to a slot now, if it is there. Slots are numbered from 1.
    pub fn bound(&self, attempt: AttemptId, slot: u16) -> Option<Bound>
        ensures value { (h : List Record) → AreLives self.now h → result ≡ history.bound h attempt slot }
        ensures max { IfSome result (λ b. IsMaxMark b.max) }
    {
        Some(*self.slot(attempt, slot)?.bound())
    }

    /// A slot, if it is there, which tells its state, its mark and what a step on it would come to.
    pub fn slot(&self, attempt: AttemptId, slot: u16) -> Option<&SlotRun>
        ensures value { option_copied result ≡ run_in self.now attempt slot }
        ensures plays { (h : List Record) → AreLives self.now h → IsSlotAt h attempt slot (option_copied result) }
        ensures bound { (h : List Record) → AreLives self.now h
            → option_map bound_of (option_copied result) ≡ history.bound h attempt slot }
    {
        self.attempt(attempt)?.slot(slot)
    }

    /// The state and the mark (in 10^-7) of a slot: todo without a mark where there is no such slot.
    pub fn standing(&self, attempt: AttemptId, slot: u16) -> (State, Option<Mark>)
        ensures state { (h : List Record) → AreLives self.now h → result.0 ≡ history.state h attempt slot }
        ensures mark { (h : List Record) → AreLives self.now h → result.1 ≡ history.mark h attempt slot }
        ensures range { IfSome result.1 IsSlotMark }
    {
        match self.slot(attempt, slot) {
            Some(run) => (run.state(), run.mark()),
            None => (State::Todo, None),
        }
    }

    /// The total of an attempt (in 10^-7), and none where it isn't finished or a teacher's mark is missing that would count. It is
    /// kept, and no slot is read.
    pub fn total(&self, attempt: AttemptId) -> Option<Mark>
        ensures value { (h : List Record) → AreLives self.now h → result ≡ history.total h attempt }
        ensures range { IfSome result IsTotal }
    {
        let quiz = self.quiz(attempt)?;
        self.rows.get(&(quiz, attempt.user))?.total(quiz, attempt)
    }

    /// The grade (in 10^-5) of a user at a quiz, over the totals of the user's finished attempts of it in order of number, and none
    /// where no total is taken. The grade is from 0 to 10,000, and the sum of the max marks from 0 to 2,000,000. The totals are
    /// kept, and no slot is read.
    pub fn row(&self, quiz: u32, policy: &Policy, user: u32) -> Option<Grade>
        requires grade { IsQuizGrade policy.now.grade }
        requires sum { IsMaxSum policy.now.sum }
        ensures { (h : List Record) → AreLives self.now h → result ≡ history.row h quiz policy.now user }
    {
        self.rows.get(&(quiz, user))?.row(quiz, policy, user)
    }

    /// The first attempt after this one, in order of user and number, that hasn't ended.
    pub fn live_after(&self, after: AttemptId) -> Option<AttemptId>
        ensures { (h : List Record) → AreLives self.now h → result ≡ history.live_after h after }
    {
        let after = key_of(after);
        for (key, goes_on) in self.going.range((End::Excluded(after), End::Unbounded)) {
            if *goes_on {
                return Some(AttemptId {
                    user: key.0,
                    nth: key.1,
                });
            }
        }
        None
    }

    /// Makes all that takes memory before a record is put: an entry for an attempt that starts, and the attempt with its slots;
    /// room for the steps that the record takes, and a copy of the step; room for the total of an attempt that is finished. What is
    /// read stays as it is, also where memory is wanting.
    ///
    /// `records` are those before, and `versions` knows the questions that the list with this record has learned.
    pub fn grow<V: Versions>(
        &mut self,
        alloc: Global,
        records: &[Record],
        record: &Record,
        versions: &V,
    ) -> Result<Prepared, NoMemory>
        requires lives { AreLives self.old records.now }
        requires lawful { IsLawful (records.now ++ «record».now ∷ []) }
        requires known { Knows (V.version_of versions.now) (records.now ++ «record».now ∷ []) }
        ensures kept { (h : List Record) → AreLives self.old h → AreLives self.new h }
        ensures ready { IfOk result (IsReady self.new (V.version_of versions.now) «record».now) }
    {
        match &record.event {
            Event::Started {
                quiz,
                nth,
                behaviour,
                bounds,
                ..
            } => {
                let begun = Begun {
                    moment: record.moment,
                    quiz: *quiz,
                    behaviour: *behaviour,
                    slots: bounds.as_slice().len(),
                };
                let live = Live::open(alloc, begun, bounds.as_slice(), versions)?;
                self.grow_entry(AttemptId {
                    user: record.owner,
                    nth: *nth,
                })?;
                Ok(Prepared::Attempt(live))
            }
            Event::Acted {
                attempt,
                slot,
                step,
            } => {
                let step = step.try_copy(alloc)?;
                self.reserve(*attempt, *slot)?;
                Ok(Prepared::Step(step))
            }
            Event::Ended {
                attempt,
                how: How::Finished,
            } => {
                self.grow_end(alloc, *attempt)?;
                Ok(Prepared::Nothing)
            }
            _ => Ok(Prepared::Nothing),
        }
    }

    /// Makes an entry for an attempt, which tells nothing of it yet.
    pub(crate) fn grow_entry(&mut self, attempt: AttemptId) -> Result<(), NoMemory>
        ensures entry { OnOk result (HasEntry self.new attempt) }
        ensures kept { IsSame self.old self.new }
    {
        self.grow_attempt(attempt)?;
        self.grow_going(attempt)
    }

    fn grow_attempt(&mut self, attempt: AttemptId) -> Result<(), NoMemory>
        ensures entry { OnOk result (is_some (get by_number self.new.attempts (key_of attempt)) ≡ true) }
        ensures kept { (a : AttemptId) → live_in self.new a ≡ live_in self.old a }
        ensures rest { self.new.going ≡ self.old.going }
        ensures rows { self.new.rows ≡ self.old.rows }
    {
        let key = key_of(attempt);
        if !self.attempts.contains_key(&key) {
            self.attempts.insert(key, None)?;
        }
        Ok(())
    }

    fn grow_going(&mut self, attempt: AttemptId) -> Result<(), NoMemory>
        ensures entry { OnOk result (is_some (get by_number self.new.going (key_of attempt)) ≡ true) }
        ensures kept { (a : AttemptId) → goes_on_in self.new a ≡ goes_on_in self.old a }
        ensures rest { self.new.attempts ≡ self.old.attempts }
        ensures rows { self.new.rows ≡ self.old.rows }
    {
        let key = key_of(attempt);
        if !self.going.contains_key(&key) {
            self.going.insert(key, false)?;
        }
        Ok(())
    }

    /// Makes room for one more step in each slot of an attempt that is there, and for its total.
    fn grow_end(&mut self, alloc: Global, attempt: AttemptId) -> Result<(), NoMemory>
        requires there { is_some (live_in self.old attempt) ≡ true }
        requires count { IfSome (live_in self.old attempt) IsCounted }
        ensures room { OnOk result (IfSome (live_in self.new attempt)
            (λ (l : Live). HaveRoom l.slots × HasRowRoom self.new.rows l.begun.quiz attempt.user)) }
        ensures kept { (h : List Record) → AreLives self.old h → AreLives self.new h }
    {
        self.reserve_all(attempt)?;
        self.grow_row(alloc, attempt)
    }

    /// Makes room for one more total in the row of an attempt that is there.
    fn grow_row(&mut self, alloc: Global, attempt: AttemptId) -> Result<(), NoMemory>
        requires { is_some (live_in self.old attempt) ≡ true }
        ensures room { OnOk result (IfSome (live_in self.new attempt)
            (λ (l : Live). HasRowRoom self.new.rows l.begun.quiz attempt.user)) }
        ensures kept { (q u : ℕ) → finished_in self.new.rows q u ≡ finished_in self.old.rows q u }
        ensures rest { self.new ≡ record self.old { rows = self.new.rows } }
    {
        match self.attempt(attempt) {
            Some(live) => {
                let quiz = live.begun().quiz;
                reserve(&mut self.rows, alloc, (quiz, attempt.user))
            }
            None => unreachable!(),
        }
    }

    /// Takes an attempt that is there out of its entry, which stays.
    fn take(&mut self, attempt: AttemptId) -> Live
        requires { is_some (live_in self.old attempt) ≡ true }
        ensures value { live_in self.old attempt ≡ Some result }
        ensures rest { IsTakenOut self.old self.new attempt }
    {
        // The entry is there, so this takes no memory.
        match self.attempts.insert(key_of(attempt), None) {
            Ok(Some(Some(live))) => live,
            _ => unreachable!(),
        }
    }

    /// Puts an attempt into its entry.
    fn keep(&mut self, attempt: AttemptId, live: Live)
        requires { is_some (get by_number self.old.attempts (key_of attempt)) ≡ true }
        ensures { Keeps self.old self.new attempt live }
    {
        // The entry is there, so this takes no memory.
        match self.attempts.insert(key_of(attempt), Some(live)) {
            Ok(_) => {}
            Err(_) => unreachable!(),
        }
    }

    /// Tells that an attempt goes on no more.
    fn leave(&mut self, attempt: AttemptId)
        ensures { Leaves self.old self.new attempt }
    {
        let _ = self.going.remove(&key_of(attempt));
    }

    /// Puts the total of an attempt into its row, if it is finished. It takes no memory.
    fn put_total(&mut self, attempt: AttemptId, live: &Live)
        requires { CanPutTotal self.old.rows attempt live.now }
        ensures row { HasPutTotal self.old.rows self.new.rows attempt live.now }
        ensures rest { self.new ≡ record self.old { rows = self.new.rows } }
    {
        if live.is_finished() {
            put_total(&mut self.rows, live.begun().quiz, attempt, live.total());
        }
    }

    /// Makes room for one more step in a slot of an attempt that is there.
    fn reserve(&mut self, attempt: AttemptId, slot: u16) -> Result<(), NoMemory>
        requires { is_some (live_in self.old attempt) ≡ true }
        ensures room { OnOk result (IfSome (run_in self.new attempt slot) IsRoomy) }
        ensures kept { AreAlike self.old self.new }
    {
        let mut live = self.take(attempt);
        let done = live.reserve(slot);
        self.keep(attempt, live);
        done
    }

    /// Makes room for one more step in each slot of an attempt that is there.
    fn reserve_all(&mut self, attempt: AttemptId) -> Result<(), NoMemory>
        requires there { is_some (live_in self.old attempt) ≡ true }
        requires count { IfSome (live_in self.old attempt) IsCounted }
        ensures room { OnOk result (IfSome (live_in self.new attempt) (λ l. HaveRoom l.slots)) }
        ensures kept { AreAlike self.old self.new }
    {
        let mut live = self.take(attempt);
        let done = live.reserve_all();
        self.keep(attempt, live);
        done
    }

    /// Follows a record behind those whose attempts these are. It takes no memory.
    ///
    /// `place` is the number of its owner's records, this one among them. A step that is taken grades once at most, and a Save
    /// never; a finish once for each slot; and where a version is bound, its steps are graded again. Nothing else grades.
    pub fn put<V: Versions, L: Ledger>(
        &mut self,
        records: &[Record],
        record: &Record,
        prepared: Prepared,
        place: u64,
        versions: &V,
        steps: &mut Steps<L>,
    )
        requires lives { AreLives self.old records.now }
        requires lawful { IsLawful (records.now ++ «record».now ∷ []) }
        requires known { Knows (V.version_of versions.now) (records.now ++ «record».now ∷ []) }
        requires ready { IsReady self.old (V.version_of versions.now) «record».now prepared }
        requires place { place ≡ history.place (records.now ++ «record».now ∷ []) («record».now).owner }
        ensures lives { AreLives self.new (records.now ++ «record».now ∷ []) }
        ensures count { steps.new ≤ steps.old + gradings_by records.now («record».now).event }
    {
        match &record.event {
            Event::Started { nth, .. } => {
                let attempt = AttemptId {
                    user: record.owner,
                    nth: *nth,
                };
                match prepared {
                    Prepared::Attempt(live) => self.start(attempt, live),
                    _ => unreachable!(),
                }
            }
            Event::Acted { attempt, slot, .. } => match prepared {
                Prepared::Step(step) => self.act(*attempt, *slot, step, versions, steps),
                _ => unreachable!(),
            },
            Event::Ended { attempt, how } => {
                let ending = Ending { how: *how, place };
                match how {
                    How::Finished => self.finish(*attempt, ending, versions, steps),
                    How::Abandoned => self.abandon(*attempt, ending),
                }
            }
            Event::Rebound {
                attempt,
                slot,
                bound,
                ..
            } => self.rebind(*attempt, *slot, *bound, versions, steps),
            _ => {}
        }
    }

    /// Puts an attempt that starts.
    pub(crate) fn start(&mut self, attempt: AttemptId, live: Live)
        requires { HasEntry self.old attempt }
        ensures becomes { Becomes self.old self.new attempt live true }
        ensures rows { self.new.rows ≡ self.old.rows }
    {
        self.keep(attempt, live);
        // The entry is there, so this takes no memory.
        match self.going.insert(key_of(attempt), true) {
            Ok(_) => {}
            Err(_) => unreachable!(),
        }
    }

    /// Follows a step that was taken on a slot. A teacher's mark may change the total of an attempt that is finished.
    fn act<V: Versions, L: Ledger>(
        &mut self,
        attempt: AttemptId,
        slot: u16,
        step: Step,
        versions: &V,
        steps: &mut Steps<L>,
    )
        requires { CanAct (V.version_of versions.now) self.old attempt slot step }
        ensures acted { HasActed (V.version_of versions.now) self.old self.new attempt slot step }
        ensures count { steps.new ≤ steps.old + 1 }
        ensures save { is_save step ≡ true → steps.new ≡ steps.old }
    {
        let mut live = self.take(attempt);
        live.act(slot, step, versions, steps);
        self.put_total(attempt, &live);
        self.keep(attempt, live);
    }

    /// Binds another version to a slot, which may change the total of an attempt that is finished.
    fn rebind<V: Versions, L: Ledger>(
        &mut self,
        attempt: AttemptId,
        slot: u16,
        bound: Bound,
        versions: &V,
        steps: &mut Steps<L>,
    )
        requires { CanRebind (V.version_of versions.now) self.old attempt slot bound }
        ensures rebound { HasRebound (V.version_of versions.now) self.old self.new attempt slot bound }
        ensures count { (r : Run) → run_in self.old attempt slot ≡ Some r
            → steps.new ≤ steps.old + length r.steps + 1 }
    {
        let mut live = self.take(attempt);
        live.rebind(slot, bound, versions, steps);
        self.put_total(attempt, &live);
        self.keep(attempt, live);
    }

    /// Finishes each slot of an attempt, which then goes on no more.
    fn finish<V: Versions, L: Ledger>(
        &mut self,
        attempt: AttemptId,
        ending: Ending,
        versions: &V,
        steps: &mut Steps<L>,
    )
        requires { CanEnd (V.version_of versions.now) self.old attempt }
        ensures finished { HasFinished (V.version_of versions.now) self.old self.new attempt ending }
        ensures count { (l : Live) → live_in self.old attempt ≡ Some l
            → steps.new ≤ steps.old + length l.slots }
    {
        let mut live = self.take(attempt);
        live.finish(ending, versions, steps);
        self.put_total(attempt, &live);
        self.keep(attempt, live);
        self.leave(attempt);
    }

    /// Ends an attempt without a finish.
    pub(crate) fn abandon(&mut self, attempt: AttemptId, ending: Ending)
        requires { is_some (live_in self.old attempt) ≡ true }
        ensures { HasAbandoned self.old self.new attempt ending }
    {
        let mut live = self.take(attempt);
        live.abandon(ending);
        self.keep(attempt, live);
        self.leave(attempt);
    }
}
