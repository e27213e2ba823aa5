//! The bytes of a record, both ways.
#![tactic(auto)]

mod events;
mod fault;
mod keeping;
pub mod laws;
mod lengths;
mod list_fault;
mod numbers;
mod part;
mod questions;
mod record;
mod requests;
mod settings;
mod steps;
mod texts;
mod writing;

pub use fault::RecordFault;
pub use list_fault::ListFault;
pub use record::{parse, spell};
