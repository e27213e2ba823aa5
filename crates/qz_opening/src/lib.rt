//! The school of a folder, as a command opens it: its lists, or what is said of why they aren't loaded.
#![tactic(auto)]

mod opening;
mod saying;

pub use opening::open_school;
pub use saying::tell;
