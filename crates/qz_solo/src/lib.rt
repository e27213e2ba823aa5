//! A school whose lists keepers keep, asked by one alone.
#![tactic(auto)]

mod answering;
mod folders;
mod founding;
mod marking;
mod marks;
mod memory;
mod report;
mod solo;
mod telling;
mod unkept;
mod workers;
mod working;

pub use folders::{close, load};
pub use memory::MemorySchool;
pub use solo::Solo;
pub use unkept::Unkept;
