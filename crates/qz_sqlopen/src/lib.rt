//! The command that shows the attempts at a quiz that wait, read from the shard's database of a folder.
#![tactic(auto)]

mod open_lines;
mod waiting;

pub use waiting::sqlopen;
