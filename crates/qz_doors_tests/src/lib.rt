//! Tests of links in memory that are served over a desk, and of a door at which they come. In a crate of their own, so that
//! they are proved without proving what they test once more.
#![tactic(auto)]

#[cfg(test)]
mod doors;
