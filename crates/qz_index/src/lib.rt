//! Maps beside a shard's list of records: what a request looks up by a plain key, found without walking the list.
//!
//! `Index` and `Keys` are two, since the reply that is kept with a key is said of a list that has its record already: first the
//! index takes a record, and last, once the reply is made, the keys.
#![tactic(auto)]

mod attempts;
mod done;
mod events;
mod floors;
mod index;
mod keys;
mod order;
mod orders;
mod owners;
mod skips;
mod takers;
mod texts;
mod versions;

pub use events::learned_by;
pub use index::Index;
pub use keys::{Keys, Replied};
