//! How a command ends: why it ended before its work was done, with an exit status for each cause, and what a text that is read
//! whole before anything is written means.
#![tactic(auto)]

mod stop;

pub use stop::Stop;
