//! A school of one shard whose two lists stand in databases: it is read of what their keepers keep, loaded of a folder's databases, and given
//! back to them.
#![tactic(auto)]

mod catalog_list;
mod keepers;
mod loading;
mod part_list;
mod reading;
mod telling;

pub use keepers::into_keepers;
pub use loading::{close, load};
pub use reading::read_school;
