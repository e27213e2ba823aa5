//! One attempt.

ghost use Rattle.std.specs.Prelude.{◌≡◌, ◌+◌, ◌<◌, ◌≤◌, List, length, IfOk, IfSome, OnOk, OnErr, None, Some, true, All};
ghost use Rattle.std.specs.Option.{option_copied};
ghost use Rattle.qz_grading.specs.declared.question.Question.{Question};
ghost use Rattle.qz_grading.specs.Grading.{at_place};
ghost use Rattle.qz_grading.specs.Steps.{is_save};
ghost use Rattle.qz_usage.specs.Runs.{Run};
ghost use Rattle.qz_terms.specs.Rows.{IsTotal};
ghost use Rattle.qz_usage.specs.Usages.{AreBound};
ghost use Rattle.qz_lives.specs.Runs.{AreFresh, CanBind, CanBindAt, CanFinish, CanOpen, CanTake, CanTakeAt, HasBound, HasBoundAt, HasTaken, HasTakenAt, HaveFinished, HaveRoom, IsRoomy};
ghost use Rattle.qz_lives.specs.Ones.{IsRoomier, has_finished, total_by};

use crate::Versions;
use qz_decimal::Mark;
use qz_grading::{Behaviour, Question, Step, Steps};
use qz_terms::{Bound, How};
use qz_text::NoMemory;
use qz_usage::{SlotRun, Usage};
use std::alloc::Global;
use std::sync::ledger::Ledger;

/// The start of an attempt: its moment (in seconds since 1970), its quiz, the behaviour that the quiz preferred, and the number
/// of its slots.
#[derive(Clone, Copy)]
pub struct Begun {
    pub moment: u64,
    pub quiz: u32,
    pub behaviour: Behaviour,
    pub slots: usize,
}

/// The end of an attempt: how it ended, and at which place, that is the number of its user's records up to that one.
#[derive(Clone, Copy)]
pub struct Ending {
    pub how: How,
    pub place: u64,
}

/// An attempt: how it began and ended, and what its slots have come to.
#[derive(Drop)]
pub struct Live {
    begun: Begun,
    ending: Option<Ending>,
    slots: Usage,
}

/// The slots of an attempt that starts, none with a step yet.
fn fresh<V: Versions>(
    alloc: Global,
    preferred: Behaviour,
    bounds: &[Bound],
    versions: &V,
) -> Result<Vec<SlotRun>, NoMemory>
    requires known { All (CanOpen (V.version_of versions.now)) bounds.now }
    ensures { IfOk result (λ runs. AreFresh (V.version_of versions.now) preferred bounds.now runs.items) }
{
    let mut runs = Vec::with_capacity(alloc, bounds.len())?;
    for bound in bounds {
        let Some(question) = versions.version(bound.entry, bound.version) else {
            unreachable!()
        };
        runs.push(SlotRun::new(alloc, preferred, question, *bound)?)?;
    }
    Ok(runs)
}

/// Follows a step that was taken.
fn take<V: Versions, L: Ledger>(run: &mut SlotRun, step: Step, versions: &V, steps: &mut Steps<L>)
    requires { CanTake (V.version_of versions.now) run.old step }
    ensures taken { HasTaken (V.version_of versions.now) run.old run.new step }
    ensures count { steps.new ≤ steps.old + 1 }
    ensures save { is_save step ≡ true → steps.new ≡ steps.old }
{
    let bound = *run.bound();
    match versions.version(bound.entry, bound.version) {
        Some(question) => run.feed(question, step, steps),
        None => unreachable!(),
    }
}

/// Binds another version of the same shape.
fn bind<V: Versions, L: Ledger>(run: &mut SlotRun, bound: Bound, versions: &V, steps: &mut Steps<L>)
    requires { CanBind (V.version_of versions.now) run.old bound }
    ensures anew { HasBound (V.version_of versions.now) run.old run.new bound }
    ensures count { steps.new ≤ steps.old + length run.old.steps + 1 }
{
    let was = *run.bound();
    let Some(old) = versions.version(was.entry, was.version) else {
        unreachable!()
    };
    let Some(newer) = versions.version(bound.entry, bound.version) else {
        unreachable!()
    };
    match run.bind(old, newer, bound, steps) {
        Ok(()) => {}
        Err(_) => unreachable!(),
    }
}

impl Live {
    /// The attempt that a record starts.
    pub(crate) fn open<V: Versions>(
        alloc: Global,
        begun: Begun,
        bounds: &[Bound],
        versions: &V,
    ) -> Result<Live, NoMemory>
        requires known { All (CanOpen (V.version_of versions.now)) bounds.now }
        requires few { length bounds.now ≤ 200 }
        ensures begun { IfOk result (λ live. live.begun ≡ begun) }
        ensures ending { IfOk result (λ live. live.ending ≡ None) }
        ensures slots { IfOk result (λ live. AreFresh (V.version_of versions.now) begun.behaviour bounds.now live.slots) }
    {
        let slots = fresh(alloc, begun.behaviour, bounds, versions)?;
        Ok(Live {
            begun,
            ending: None,
            slots: Usage::of(slots),
        })
    }

    pub(crate) fn begun(&self) -> Begun
        ensures { result ≡ self.now.begun }
    {
        self.begun
    }

    pub(crate) fn ending(&self) -> Option<Ending>
        ensures { result ≡ self.now.ending }
    {
        self.ending
    }

    /// Whether it ended by a finish.
    pub(crate) fn is_finished(&self) -> bool
        ensures { result ≡ has_finished self.now }
    {
        match self.ending {
            Some(ending) => matches!(ending.how, How::Finished),
            None => false,
        }
    }

    /// The slot with this number, from 1.
    pub(crate) fn slot(&self, slot: u16) -> Option<&SlotRun>
        ensures { option_copied result ≡ at_place self.now.slots slot }
    {
        self.slots.slot(slot)
    }

    /// The total (in 10^-7) of an attempt that is finished, if no teacher's mark is missing that would count.
    pub(crate) fn total(&self) -> Option<Mark>
        ensures value { (qs : List Question) → AreBound self.now.slots qs → result ≡ total_by self.now qs }
        ensures range { IfSome result IsTotal }
    {
        match self.ending?.how {
            How::Finished => self.slots.total(),
            How::Abandoned => None,
        }
    }

    /// Makes room for one more step in a slot, if it is there.
    pub(crate) fn reserve(&mut self, slot: u16) -> Result<(), NoMemory>
        ensures room { OnOk result (IfSome (at_place self.new.slots slot) IsRoomy) }
        ensures kept { IsRoomier self.old self.new }
    {
        match self.slots.slot_mut(slot) {
            Some(run) => run.reserve(),
            None => Ok(()),
        }
    }

    /// Makes room for one more step in each slot.
    pub(crate) fn reserve_all(&mut self) -> Result<(), NoMemory>
        requires count { self.old.begun.slots ≡ length self.old.slots }
        requires few { length self.old.slots ≤ 200 }
        ensures room { OnOk result (HaveRoom self.new.slots) }
        ensures kept { IsRoomier self.old self.new }
    {
        for place in 0..self.begun.slots {
            self.reserve(place as u16 + 1)?;
        }
        Ok(())
    }

    /// Follows a step that was taken on a slot.
    pub(crate) fn act<V: Versions, L: Ledger>(
        &mut self,
        slot: u16,
        step: Step,
        versions: &V,
        steps: &mut Steps<L>,
    )
        requires { CanTakeAt (V.version_of versions.now) self.old.slots slot step }
        ensures taken { HasTakenAt (V.version_of versions.now) self.old.slots self.new.slots slot step }
        ensures rest { self.new ≡ record self.old { slots = self.new.slots } }
        ensures count { steps.new ≤ steps.old + 1 }
        ensures save { is_save step ≡ true → steps.new ≡ steps.old }
    {
        match self.slots.slot_mut(slot) {
            Some(run) => take(run, step, versions, steps),
            None => unreachable!(),
        }
    }

    /// Binds another version to a slot.
    pub(crate) fn rebind<V: Versions, L: Ledger>(
        &mut self,
        slot: u16,
        bound: Bound,
        versions: &V,
        steps: &mut Steps<L>,
    )
        requires { CanBindAt (V.version_of versions.now) self.old.slots slot bound }
        ensures anew { HasBoundAt (V.version_of versions.now) self.old.slots self.new.slots slot bound }
        ensures rest { self.new ≡ record self.old { slots = self.new.slots } }
        ensures count { (r : Run) → at_place self.old.slots slot ≡ Some r → steps.new ≤ steps.old + length r.steps + 1 }
    {
        match self.slots.slot_mut(slot) {
            Some(run) => bind(run, bound, versions, steps),
            None => unreachable!(),
        }
    }

    /// Finishes each slot.
    pub(crate) fn finish<V: Versions, L: Ledger>(
        &mut self,
        ending: Ending,
        versions: &V,
        steps: &mut Steps<L>,
    )
        requires count { self.old.begun.slots ≡ length self.old.slots }
        requires few { length self.old.slots ≤ 200 }
        requires can { CanFinish (V.version_of versions.now) self.old.slots }
        ensures finished { HaveFinished (V.version_of versions.now) self.old.slots self.new.slots }
        ensures rest { self.new ≡ record self.old { ending = Some ending; slots = self.new.slots } }
        ensures count { steps.new ≤ steps.old + length self.old.slots }
    {
        for place in 0..self.begun.slots {
            self.act(place as u16 + 1, Step::Finish, versions, steps);
        }
        self.ending = Some(ending);
    }

    /// Ends without a finish.
    pub(crate) fn abandon(&mut self, ending: Ending)
        ensures { self.new ≡ record self.old { ending = Some ending } }
    {
        self.ending = Some(ending);
    }
}
