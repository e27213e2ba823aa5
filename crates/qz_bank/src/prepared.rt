//! A change of a bank that is prepared.

use crate::Entry;
use qz_grading::Question;

/// A change of a bank that is prepared: what is new, and room for it and for all that it is put behind. Until it is put the bank
/// is as before, and where it isn't put it is dropped.
#[derive(Drop)]
pub enum Prepared {
    /// Entries that an import makes.
    Import {
        made: Vec<Entry>,
        room: Vec<Entry>,
    },
    /// One version more of an entry.
    Version {
        entry: u32,
        newer: Question,
        room: Vec<Question>,
    },
}
