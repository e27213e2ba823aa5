//! The slots that jobs skipped.

ghost use Rattle.std.specs.Prelude.{◌≡◌, ◌++◌, ◌∷◌, ℕ, List, [], OnOk};
ghost use Rattle.qz_grading.specs.declared.refusal.AttemptId.{AttemptId};
ghost use Rattle.qz_terms.specs.declared.record.Record.{Record};
ghost use Rattle.qz_terms.specs.History.{is_skipped};
ghost use Rattle.qz_index.specs.Jobs.{AreSkipped, HasSkip, skip_of, skipped_at};

use qz_grading::AttemptId;
use qz_room::{fill, make};
use qz_terms::{Event, Record};
use qz_text::NoMemory;
use std::alloc::Global;
use std::collections::BTreeMap;

/// A slot of an attempt, under a job.
#[derive(Clone, Copy, PartialEq, Eq, PartialOrd, Ord)]
pub(crate) struct Skip {
    pub(crate) job: u32,
    pub(crate) user: u32,
    pub(crate) nth: u32,
    pub(crate) slot: u16,
}

/// Whether a slot was skipped by a job.
#[derive(Drop)]
pub(crate) struct Skips {
    pub(crate) skipped: BTreeMap<Skip, bool>,
}

/// The key of a slot of an attempt, under a job.
fn skip_of(job: u32, attempt: AttemptId, slot: u16) -> Skip
    ensures { result ≡ skip_of job attempt slot }
{
    Skip {
        job,
        user: attempt.user,
        nth: attempt.nth,
        slot,
    }
}

impl Skips {
    pub(crate) fn new(alloc: Global) -> Skips
        ensures { AreSkipped result [] }
    {
        Skips {
            skipped: BTreeMap::new(alloc),
        }
    }

    pub(crate) fn is_skipped(&self, job: u32, attempt: AttemptId, slot: u16) -> bool
        ensures { (h : List Record) → AreSkipped self.now h → result ≡ is_skipped h job attempt slot }
    {
        let key = skip_of(job, attempt, slot);
        self.skipped.get(&key).copied().unwrap_or(false)
    }

    pub(crate) fn grow(&mut self, record: &Record) -> Result<(), NoMemory>
        ensures room { OnOk result (HasSkip self.new («record».now).event) }
        ensures same { (job : ℕ) (a : AttemptId) (k : ℕ) → skipped_at self.new job a k ≡ skipped_at self.old job a k }
    {
        match &record.event {
            Event::Skipped {
                job,
                attempt,
                slot,
                ..
            } => make(&mut self.skipped, skip_of(*job, *attempt, *slot), false),
            _ => Ok(()),
        }
    }

    pub(crate) fn put(&mut self, records: &[Record], record: &Record)
        requires skipped { AreSkipped self.old records.now }
        requires room { HasSkip self.old («record».now).event }
        ensures { AreSkipped self.new (records.now ++ «record».now ∷ []) }
    {
        if let Event::Skipped {
            job,
            attempt,
            slot,
            ..
        } = &record.event
        {
            fill(&mut self.skipped, skip_of(*job, *attempt, *slot), true);
        }
    }
}
