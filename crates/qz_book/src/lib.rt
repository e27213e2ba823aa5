//! The records of a shard with what is kept beside them, so that a reading walks no record; how far jobs have come, and the slots that they
//! have left.
#![tactic(auto)]

mod book;
mod cursors;
mod known;
mod listing;
mod slots;
mod targets;

pub use book::{Book, Played};
pub use cursors::Cursors;
pub use slots::{has_slot, max_now, question_of, slot_there, step_on};
pub use targets::next_target;
