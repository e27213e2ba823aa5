//! That the answers of one student depend on nobody else.
#![tactic(auto)]

pub mod laws;
