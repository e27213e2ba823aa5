//! Links that are served over a desk: each request is answered before the next bytes are read; and doors, whose links are served one after
//! the other.
#![tactic(auto)]

mod door;
mod halt;
mod link;

pub use door::{DoorEnd, serve_door};
pub use link::{has_response, reply_to, serve_link};
