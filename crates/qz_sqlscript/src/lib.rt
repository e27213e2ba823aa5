//! The command that answers the lines of a script over the school in a folder's two databases.
#![tactic(auto)]

mod script;

pub use script::sql;
