//! The notes of all who asked a school are gathered, and each new record of its lists is looked for among them.
#![tactic(auto)]

mod gathering;
mod looking;
mod marks;
mod owners;

pub use gathering::{GatherFault, gather};
