//! Tests of pages, the heads of requests and commands. In a crate of their own, so that they are proved without proving
//! what they test once more.
#![tactic(auto)]

#[cfg(test)]
mod commands;
#[cfg(test)]
mod heads;
#[cfg(test)]
mod pages;
