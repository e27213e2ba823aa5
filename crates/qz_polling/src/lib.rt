//! The school of a folder, served on one thread to many links that mostly wait.
#![tactic(auto)]

mod folder;
mod school;
mod seats;

pub use folder::poll_folder;
pub use school::poll_school;
