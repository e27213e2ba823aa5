//! One slot's steps followed one at a time, for the behaviours without numbered tries: deferred and immediate feedback, both
//! also with certainty, a teacher's marking, and information.
#![tactic(auto)]

mod grades;
mod machine;

pub use machine::Machine;
