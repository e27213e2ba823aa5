//! The words of replies: what is said of a request that was answered, as a line of a script and one by one.
#![tactic(auto)]

mod lines;
mod said;

pub use lines::line_of;
pub use said::done_onto;
