//! The records of a catalogue, and what is kept beside them.

use qz_bank::Entries;
use qz_roster::Roster;
use qz_terms::{Plan, Record};

/// The records, the bank that they make, what else they tell, for each of them the number that its reply shows, or 0, and for each
/// job the plan that it pinned, without its questions.
#[derive(Drop)]
pub(crate) struct Book {
    pub records: Vec<Record>,
    pub entries: Entries,
    pub roster: Roster,
    pub shown: Vec<u32>,
    pub pinned: Vec<Plan>,
}
