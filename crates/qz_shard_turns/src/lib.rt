//! A shard of a school behind a lock that threads take in turn. Each call is one turn: the list is mended first, and what is told is said
//! over the list that was found.
#![tactic(auto)]

mod answering;
mod finding;
mod looking;
mod part;
mod working;

pub use answering::answer;
pub use finding::quiz_of;
pub use looking::{live, rows};
pub use part::{Part, Place};
pub use working::work;
