//! Which record of a shard is the first that doesn't agree with the catalogue.
#![tactic(auto)]

mod disagreement;
mod findings;
mod fitting;
mod jobs;
mod look;
mod quizzes;
mod sweep;

pub use disagreement::{Disagreement, first_disagreement};
