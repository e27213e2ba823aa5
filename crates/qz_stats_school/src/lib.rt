//! The command that tells how each slot of a quiz was answered, over the school of a folder.
#![tactic(auto)]

mod lines;
mod school;

pub use school::stats;
