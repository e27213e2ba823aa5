//! Requests and replies as JSON: a request is read from the body that asks it, and a reply is written as one object.
#![tactic(auto)]

mod arguments;
mod bodies;
mod replies;

pub use bodies::ask_of_json;
pub use replies::json_of;
