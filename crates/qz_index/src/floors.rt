//! The floors of the quizzes.

ghost use Rattle.std.specs.Prelude.{◌≡◌, ◌++◌, ◌∷◌, ℕ, List, [], OnOk};
ghost use Rattle.qz_terms.specs.declared.record.Record.{Record};
ghost use Rattle.qz_terms.specs.History.{floor};
ghost use Rattle.qz_index.specs.Jobs.{AreFloors, HasFloor, floor_at};

use qz_room::{fill, make};
use qz_terms::{Event, Record};
use qz_text::NoMemory;
use std::alloc::Global;
use std::collections::BTreeMap;

/// The greatest position of a job of each quiz that is done.
#[derive(Drop)]
pub(crate) struct Floors {
    pub(crate) positions: BTreeMap<u32, u64>,
}

impl Floors {
    pub(crate) fn new(alloc: Global) -> Floors
        ensures { AreFloors result [] }
    {
        Floors {
            positions: BTreeMap::new(alloc),
        }
    }

    pub(crate) fn floor(&self, quiz: u32) -> u64
        ensures { (h : List Record) → AreFloors self.now h → result ≡ floor h quiz }
    {
        self.positions.get(&quiz).copied().unwrap_or(0)
    }

    pub(crate) fn grow(&mut self, record: &Record) -> Result<(), NoMemory>
        ensures room { OnOk result (HasFloor self.new («record».now).event) }
        ensures same { (q : ℕ) → floor_at self.new q ≡ floor_at self.old q }
    {
        match &record.event {
            Event::JobDone { quiz, .. } => make(&mut self.positions, *quiz, 0),
            _ => Ok(()),
        }
    }

    pub(crate) fn put(&mut self, records: &[Record], record: &Record)
        requires floors { AreFloors self.old records.now }
        requires room { HasFloor self.old («record».now).event }
        ensures { AreFloors self.new (records.now ++ «record».now ∷ []) }
    {
        if let Event::JobDone { quiz, position, .. } = &record.event {
            let floor = self.floor(*quiz).max(*position);
            fill(&mut self.positions, *quiz, floor);
        }
    }
}
