//! Links that are served by futures: many of them wait on one thread, and each is answered as if it had a thread of its own.
#![tactic(auto)]

mod outbox;
mod reading;
mod replying;
mod sending;
mod serving;
mod step;
mod task;

pub use task::{LinkTask, TaskEnd};
