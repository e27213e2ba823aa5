//! Disks and keepers: what a journal writes to, with what a crash may leave of it, and what keeps a list of payloads;
//! a disk and a shelf in memory, and both over files of std; and slots by folder and name.
#![tactic(auto)]

mod disk;
mod file_disk;
mod folder_shelf;
mod keeper;
mod memory_disk;
mod memory_shelf;
mod shelf;
pub mod slots;

pub use disk::Disk;
pub use file_disk::FileDisk;
pub use folder_shelf::FolderShelf;
pub use keeper::{KeepErr, Keeper, MOST_PAYLOAD};
pub use memory_disk::{Fill, MemoryDisk};
pub use memory_shelf::MemoryShelf;
pub use shelf::{Shelf, ShelfErr};
