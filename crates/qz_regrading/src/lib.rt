//! A worker that regrades: it works on the jobs of a school in each of its shards, and settles the attempts whose time is over.
#![tactic(auto)]

mod ends;
pub mod laws;
mod met;
mod pass;
mod stop;
mod sweep;
mod walk;
mod worker;

pub use ends::LoopEnd;
pub use pass::regrade_loop;
pub use stop::{Signal, Stop};
