//! The catalogue of a school behind a lock that threads take in turn. Each call is one turn: the list is mended first, and what is told is
//! said over the list that was found.
#![tactic(auto)]

mod answering;
mod looking;
mod questions;
mod records;
mod replied;

pub use answering::answer;
pub use looking::{heading, job, job_again, plan, user};
pub use questions::Heading;
pub use records::Records;
pub use replied::{OwnRecord, Replied};
