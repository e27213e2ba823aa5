//! How many groups and entries there are, and the jobs.

ghost use Rattle.std.specs.Prelude.{◌≡◌, ◌+◌, ◌-◌, ◌<◌, ◌≤◌, ◌^◌, List, [], ◌∷◌, ◌++◌, length, true, is_some, option_to_list, OnOk, vec_len, vec_capacity};
ghost use Rattle.qz_grading.specs.Grading.{at_place};
ghost use Rattle.qz_terms.specs.declared.record.Record.{Record};
ghost use Rattle.qz_terms.specs.Catalog.{asked, groups, jobs, regrade_by};
ghost use Rattle.qz_terms.specs.Catalog as catalog;

use crate::told::{import_count, makes_group, regrade_by};
use qz_terms::Record;
use qz_text::NoMemory;
use std::alloc::Global;

/// How many groups and entries there are, and the position, from 1, and the quiz of each job.
#[derive(Drop)]
pub struct Counts {
    groups: usize,
    entries: usize,
    jobs: Vec<(u64, u32)>,
}

impl Counts {
    ghost use Rattle.qz_roster.specs.Counts.{AreCountsOf, HasJobRoom};

    /// None of each. It takes no memory.
    pub(crate) fn new(alloc: Global) -> Counts
        ensures { AreCountsOf [] result }
    {
        Counts {
            groups: 0,
            entries: 0,
            jobs: Vec::new(alloc),
        }
    }

    pub fn groups(&self) -> usize
        ensures value { (c : List Record) → AreCountsOf c self.now → result ≡ length (groups c) }
        ensures few { (c : List Record) → AreCountsOf c self.now → result ≤ length c }
    {
        self.groups
    }

    pub fn entries(&self) -> usize
        ensures { (c : List Record) → AreCountsOf c self.now → result ≡ length (catalog.entries c) }
    {
        self.entries
    }

    pub fn jobs(&self) -> usize
        ensures value { (c : List Record) → AreCountsOf c self.now → result ≡ length (jobs c) }
        ensures few { (c : List Record) → AreCountsOf c self.now → result ≤ length c }
    {
        self.jobs.len()
    }

    /// Makes room for what a record tells.
    pub(crate) fn make_room(&mut self, record: &Record) -> Result<(), NoMemory>
        ensures room { OnOk result (HasJobRoom self.new «record».now) }
        ensures unchanged { (c : List Record) → AreCountsOf c self.old → AreCountsOf c self.new }
    {
        if let Some(_) = regrade_by(0, record) {
            self.jobs.reserve(1)?;
        }
        Ok(())
    }

    /// Keeps what a record tells that stands behind these. It takes no memory.
    pub(crate) fn keep(&mut self, records: &[Record], record: &Record)
        requires counts { AreCountsOf records.now self.old }
        requires few { length records.now < 2 ^ 32 - 1 }
        requires entries { length (catalog.entries records.now) ≤ 20000 }
        requires room { HasJobRoom self.old «record».now }
        ensures { AreCountsOf (records.now ++ «record».now ∷ []) self.new }
    {
        self.groups += usize::from(makes_group(record));
        self.entries += import_count(record);
        self.keep_job(records.len() as u64 + 1, record);
    }

    fn keep_job(&mut self, place: u64, record: &Record)
        requires { is_some (regrade_by 0 (asked «record».now)) ≡ true → vec_len self.old.jobs < vec_capacity self.old.jobs }
        ensures jobs { self.new.jobs.items ≡ self.old.jobs.items ++ option_to_list (regrade_by place (asked «record».now)) }
        ensures groups { self.new.groups ≡ self.old.groups }
        ensures entries { self.new.entries ≡ self.old.entries }
    {
        if let Some(job) = regrade_by(place, record) {
            self.jobs.push(job).unwrap();
        }
    }
}
