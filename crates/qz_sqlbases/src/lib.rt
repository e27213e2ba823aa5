//! Databases by folder and name, each of which holds the list of a keeper: in memory, and in the files of folders.
#![tactic(auto)]

mod bases;
mod folder_bases;
mod memory_bases;

pub use bases::{Bases, Returned};
pub use folder_bases::FolderBases;
pub use memory_bases::MemoryBases;
