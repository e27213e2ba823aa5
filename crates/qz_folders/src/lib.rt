//! The journals of a school's folder: opened, given back, and founded.
#![tactic(auto)]

mod fault;
mod founding;
pub mod laws;
mod names;
mod opening;

pub use fault::{FoundFault, OpenFault};
pub use founding::{found, founding_payload};
pub use names::{catalog_name, part_name};
pub use opening::{give_back, open};
