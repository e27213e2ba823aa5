//! What a list of records keeps them with: a keeper of their spellings, and the record in doubt.
#![tactic(auto)]

pub mod laws;
mod record_keeper;
mod recorder;
mod refusals;

pub use record_keeper::RecordKeeper;
pub use recorder::{Recorder, Unrecorded};
pub use refusals::{refusal_of, reply_of};
