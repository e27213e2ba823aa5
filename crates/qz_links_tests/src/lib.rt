//! Tests of sockets, clocks and threads. In a crate of their own, so that they are proved without proving what they test
//! once more.
#![tactic(auto)]

#[cfg(test)]
mod links;
#[cfg(test)]
mod turns;
