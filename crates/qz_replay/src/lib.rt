//! The replay of one slot: its text is read, its steps are taken or refused, and what comes of each is written.
#![tactic(auto)]

mod asked;
mod played;
mod questions;
mod reading;
mod replaying;
mod saying;
mod slot;

pub use replaying::replay;
