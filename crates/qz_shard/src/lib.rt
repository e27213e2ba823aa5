//! One shard: what is asked of the records of its users' attempts, and what is answered. A request is decided, the record that it makes is
//! put, and what is said of it is kept with its key.
#![tactic(auto)]

mod decision;
mod fates;
mod keys;
pub mod laws;
mod looking;
mod putting;
mod shard;
mod shard_core;
mod starting;
mod stepping;
mod working;

pub use shard::{Older, Shard};
pub use shard_core::ShardCore;
