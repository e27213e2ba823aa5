//! Tests of a school that is asked by several threads. In a crate of their own, so that they are proved without proving what
//! they test once more.
#![tactic(auto)]

#[cfg(test)]
mod hands;
#[cfg(test)]
mod starts;
