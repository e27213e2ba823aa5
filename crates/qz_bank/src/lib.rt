//! The bank: entries, each with its category and the versions of its question.
#![tactic(auto)]

mod entries;
mod entry;
pub mod laws;
mod prepared;
mod room;

pub use entries::Entries;
pub use entry::Entry;
pub use prepared::Prepared;
