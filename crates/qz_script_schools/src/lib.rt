//! The command that answers the lines of a script, over a school in memory or over that of a folder; and that what was given back to a
//! folder is loaded again.
#![tactic(auto)]

mod folder;
pub mod laws;
mod memory;

pub use folder::script_folder;
pub use memory::script;
