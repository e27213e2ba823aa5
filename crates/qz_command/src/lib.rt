//! The commands that the words of the command line name.
#![tactic(auto)]

mod command;
mod fault;
mod leaves;
mod values;

pub use command::{Command, Serving, command_of};
pub use fault::WordsFault;
