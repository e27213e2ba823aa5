//! When an attempt may start, be answered and be finished. Moodle's manual pages "Quiz settings" and "Quiz overrides"
//! describe the settings. No call here takes memory.
#![tactic(auto)]

mod ends;
mod leave;
mod lenient;

pub use ends::{due, expired};
pub use leave::{may_answer, may_finish, may_start};
pub use lenient::effective;
