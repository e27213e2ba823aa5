//! Tests of an audit, and of what is gathered where notes are left out, over schools in memory. In a crate of their own, so that they are proved
//! without proving what they test once more.
#![tactic(auto)]

#[cfg(test)]
mod audits;
#[cfg(test)]
mod clerks;
#[cfg(test)]
mod gaps;
#[cfg(test)]
mod schools;
