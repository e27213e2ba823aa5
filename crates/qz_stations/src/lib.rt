//! A school that is served and regraded side by side: a worker at each door, and others that regrade, on a thread of its own each where one can
//! be started.
#![tactic(auto)]

mod ends;
mod last;
mod noting;
mod seat;
mod serve;
mod sides;
mod station;
mod turns;

pub use ends::ServeEnd;
pub use last::{regrade_last, serve_school};
pub use noting::{Noted, serve_noting};
pub use serve::Crew;
