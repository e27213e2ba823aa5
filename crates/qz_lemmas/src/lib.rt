//! Small facts of tests, options, numbers and lists, which proofs of several crates use. It has no code.
#![tactic(auto)]
