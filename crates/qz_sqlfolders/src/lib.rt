//! The two databases of a school's folder: their names, and their keepers, which are handed out and given back.
#![tactic(auto)]

mod names;
mod opening;

pub use names::{catalog_name, part_name};
pub use opening::{Keepers, Opened, give_back, open};
