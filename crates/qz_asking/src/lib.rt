//! Requests to a desk, one after the other.
#![tactic(auto)]

pub mod laws;
