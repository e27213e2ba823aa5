//! A keeper of payloads in the tables of a SQLite database, which an administrator can query.
#![tactic(auto)]

mod base;
mod entries;
mod fill;
mod refusals;
mod sql_keeper;

pub use base::Base;
pub use sql_keeper::SqlKeeper;
