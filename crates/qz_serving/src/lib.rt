//! The command that serves doors side by side over the school of a folder.
#![tactic(auto)]

mod folders;
mod saying;

pub use folders::serve_folder;
