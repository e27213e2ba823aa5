//! What a command says of the links that it served.
#![tactic(auto)]

mod saying;

pub use saying::{Served, say_served, served_line};
