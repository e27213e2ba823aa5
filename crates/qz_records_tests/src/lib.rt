//! Tests of access and the gradebook. In a crate of their own, so that they are proved without proving what they test
//! once more.
#![tactic(auto)]

#[cfg(test)]
mod access;
#[cfg(test)]
mod gradebook;
