//! A lock that threads take in turn, in the order of the tickets that they draw. The value behind it tells a list, which
//! only grows. What one holder of a pass has seen of it is always a beginning of what it sees next, and of what any
//! other holder sees later: one history for everybody.
#![tactic(auto)]

mod board;
mod pass;
mod room;
mod rule;
mod told;
mod turns;
mod view;

pub use pass::Pass;
pub use told::{Errand, Told};
pub use turns::Turns;
pub use view::Tale;
