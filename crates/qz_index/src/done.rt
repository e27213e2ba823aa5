//! The jobs that are done.

ghost use Rattle.std.specs.Prelude.{◌≡◌, ◌++◌, ◌∷◌, ℕ, List, [], OnOk};
ghost use Rattle.qz_terms.specs.declared.record.Record.{Record};
ghost use Rattle.qz_terms.specs.History.{is_done};
ghost use Rattle.qz_index.specs.Jobs.{AreDone, HasDone, done_at, done_in};

use qz_room::{fill, make};
use qz_terms::{Event, Record};
use qz_text::NoMemory;
use std::alloc::Global;
use std::collections::BTreeMap;

/// The place in the list, from 1, of the record that says of a job that it is done.
#[derive(Drop)]
pub(crate) struct DoneJobs {
    pub(crate) places: BTreeMap<u32, Option<u64>>,
}

impl DoneJobs {
    pub(crate) fn new(alloc: Global) -> DoneJobs
        ensures { AreDone result [] }
    {
        DoneJobs {
            places: BTreeMap::new(alloc),
        }
    }

    pub(crate) fn place(&self, job: u32) -> Option<u64>
        ensures { (h : List Record) → AreDone self.now h → result ≡ done_in h job }
    {
        *self.places.get(&job)?
    }

    pub(crate) fn grow(&mut self, record: &Record) -> Result<(), NoMemory>
        ensures room { OnOk result (HasDone self.new («record».now).event) }
        ensures same { (job : ℕ) → done_at self.new job ≡ done_at self.old job }
    {
        match &record.event {
            Event::JobDone { job, .. } => make(&mut self.places, *job, None),
            _ => Ok(()),
        }
    }

    pub(crate) fn put(&mut self, records: &[Record], record: &Record)
        requires done { AreDone self.old records.now }
        requires room { HasDone self.old («record».now).event }
        ensures { AreDone self.new (records.now ++ «record».now ∷ []) }
    {
        if let Event::JobDone { job, .. } = &record.event {
            let place = self.place(*job).unwrap_or(records.len() as u64 + 1);
            fill(&mut self.places, *job, Some(place));
        }
    }
}
