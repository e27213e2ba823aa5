//! The journal of a list of payloads: a file that a crash at any moment leaves with every payload acknowledged.
#![tactic(auto)]

mod disk_steps;
mod fault;
mod journal;
pub mod laws;
mod reading;

pub use fault::JournalFault;
pub use journal::Journal;
