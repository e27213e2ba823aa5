//! The command that makes a large school in memory.
#![tactic(auto)]

mod bulk_school;

pub use bulk_school::bulk;
