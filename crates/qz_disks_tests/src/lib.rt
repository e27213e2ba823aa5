//! Tests of files as disks, of a folder as a shelf, and of journals on disks in memory. In a crate of their own, so that
//! they are proved without proving what they test once more.
#![tactic(auto)]

#[cfg(test)]
mod disks;
#[cfg(test)]
mod journals;
