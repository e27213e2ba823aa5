//! Tests of a school that is polled, over links and doors in memory that wait. In a crate of their own, so that they are
//! proved without proving what they test once more.
#![tactic(auto)]

#[cfg(test)]
mod desks;
#[cfg(test)]
mod lines;
#[cfg(test)]
mod polls;
#[cfg(test)]
mod schools;
