//! What a refused request leaves.
#![tactic(auto)]

pub mod laws;
