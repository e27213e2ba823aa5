//! Answering the lines of a script over any desk.
#![tactic(auto)]

mod script;
mod script_input;
mod script_line;

pub use script::{LIMIT, serve};
