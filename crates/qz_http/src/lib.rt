//! The bytes of one link: the requests that they ask, read as they come in pieces, and the responses.
#![tactic(auto)]

mod ends;
mod fields;
mod fronts;
mod heads;
mod items;
pub mod laws;
mod links;
mod responses;
mod routes;
mod targets;

pub use ends::end_of;
pub use heads::ROOM;
pub use items::{Item, LinkEnd};
pub use links::LinkCore;
