//! The attempts of each quiz, in order.

ghost use Rattle.std.specs.Prelude.{◌≡◌, ◌++◌, ◌∷◌, ◌&&◌, ◌||◌, ◌==◌, ℕ, List, [], OnOk};
ghost use Rattle.qz_grading.specs.declared.refusal.AttemptId.{AttemptId};
ghost use Rattle.qz_terms.specs.declared.record.Record.{Record};
ghost use Rattle.qz_terms.specs.History.{same_attempt};
ghost use Rattle.qz_index.specs.Orders.{AreOrdered, HasOrderAt, HasOrderFor, attempt_after, is_ordered_at};

use crate::order::Order;
use qz_grading::AttemptId;
use qz_room::make;
use qz_terms::{Event, Record};
use qz_text::NoMemory;
use std::alloc::Global;
use std::collections::BTreeMap;

/// The attempts of each quiz, in order of user and number.
#[derive(Drop)]
pub(crate) struct Orders {
    pub(crate) quizzes: BTreeMap<u32, Order>,
}

impl Orders {
    pub(crate) fn new(alloc: Global) -> Orders
        ensures { AreOrdered result [] }
    {
        Orders {
            quizzes: BTreeMap::new(alloc),
        }
    }

    pub(crate) fn attempt_after(&self, quiz: u32, after: AttemptId) -> Option<AttemptId>
        ensures { (h : List Record) → AreOrdered self.now h → result ≡ attempt_after h quiz after }
    {
        match self.quizzes.get(&quiz) {
            Some(order) => order.after(after),
            None => None,
        }
    }

    pub(crate) fn grow(&mut self, alloc: Global, record: &Record) -> Result<(), NoMemory>
        ensures room { OnOk result (HasOrderFor self.new «record».now) }
        ensures same { (q : ℕ) (a : AttemptId) → is_ordered_at self.new q a ≡ is_ordered_at self.old q a }
    {
        match &record.event {
            Event::Started { quiz, nth, .. } => {
                let attempt = AttemptId {
                    user: record.owner,
                    nth: *nth,
                };
                self.make(alloc, *quiz, attempt)
            }
            _ => Ok(()),
        }
    }

    fn make(&mut self, alloc: Global, quiz: u32, attempt: AttemptId) -> Result<(), NoMemory>
        ensures room { OnOk result (HasOrderAt self.new quiz attempt) }
        ensures same { (q : ℕ) (a : AttemptId) → is_ordered_at self.new q a ≡ is_ordered_at self.old q a }
    {
        make(&mut self.quizzes, quiz, Order::new(alloc))?;
        match self.quizzes.get_mut(&quiz) {
            Some(order) => order.grow(attempt),
            None => unreachable!(),
        }
    }

    pub(crate) fn put(&mut self, records: &[Record], record: &Record)
        requires ordered { AreOrdered self.old records.now }
        requires room { HasOrderFor self.old «record».now }
        ensures { AreOrdered self.new (records.now ++ «record».now ∷ []) }
    {
        if let Event::Started { quiz, nth, .. } = &record.event {
            let attempt = AttemptId {
                user: record.owner,
                nth: *nth,
            };
            self.start(*quiz, attempt);
        }
    }

    fn start(&mut self, quiz: u32, attempt: AttemptId)
        requires { HasOrderAt self.old quiz attempt }
        ensures { (q : ℕ) (a : AttemptId) → is_ordered_at self.new q a ≡ (is_ordered_at self.old q a || ((quiz == q) && same_attempt a attempt)) }
    {
        match self.quizzes.get_mut(&quiz) {
            Some(order) => order.put(attempt),
            None => unreachable!(),
        }
    }
}
