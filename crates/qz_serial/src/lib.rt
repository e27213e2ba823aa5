//! What one request does to the lists of a school, from what single calls did to single lists.
#![tactic(auto)]

pub mod laws;
