//! That a step of a job finds its target's slot in the job's plan.
#![tactic(auto)]

pub mod laws;
