//! The command that founds a school in a folder.
#![tactic(auto)]

mod founding;

pub use founding::found_folder;
