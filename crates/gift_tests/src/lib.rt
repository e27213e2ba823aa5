//! Tests of reading and writing GIFT. In a crate of their own, so that they are proved without proving what they test
//! once more.
#![tactic(auto)]

#[cfg(test)]
mod reading;
#[cfg(test)]
mod reading_back;
