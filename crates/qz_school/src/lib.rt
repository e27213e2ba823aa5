//! The lists of a school: what they are, what requests at them come to, and laws that tie a catalogue and the shards made under it.
#![tactic(auto)]

mod asker;
pub mod laws;
mod reports;

pub use asker::{index_of, worker};
pub use reports::{in_order, named};
