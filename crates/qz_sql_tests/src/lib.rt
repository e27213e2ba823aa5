//! Tests of a school in databases in memory. In a crate of their own, so that they are proved without proving what they
//! test once more.
#![tactic(auto)]

#[cfg(test)]
mod quiet;
