//! The attempts of a shard, as its records leave them: what each has come to is kept, and no record is read again.
#![tactic(auto)]

mod live;
mod lives;
mod prepared;
mod rows;
mod versions;

pub use live::{Begun, Ending, Live};
pub use lives::Lives;
pub use prepared::Prepared;
pub use versions::Versions;
