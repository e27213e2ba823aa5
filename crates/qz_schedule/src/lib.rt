//! Every schedule: worlds of lists and callers, what events in any order make of them, and what holds of each. All of it stands in
//! `specs/` and `proofs/`, and nothing that runs stands on it.
#![tactic(auto)]

pub mod laws;
