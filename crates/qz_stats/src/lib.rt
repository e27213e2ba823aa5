//! Item analysis: how each slot of a quiz was answered, told from the records of all shards. Several workers replay the records at
//! once, and what is told doesn't depend on how many they are.
#![tactic(auto)]

mod analysis;
mod marks;
mod numbers;
mod picks;
mod replaying;
mod rows;
mod sampling;
mod slots;

pub use analysis::analyse;
pub use rows::{PickRow, SlotRow};
