//! One slot that is played under any behaviour, with a teacher's marks, and the slots of an attempt.
#![tactic(auto)]

mod player;
mod slot_run;
mod usage;

pub use slot_run::SlotRun;
pub use usage::Usage;
