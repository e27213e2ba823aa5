//! A school whose lists stand behind locks, asked by many at once: each request takes a turn at one list after the other.
#![tactic(auto)]

mod at_shard;
mod attempts;
mod closing;
mod last;
mod opening;
mod passes;
mod reports;
mod school;
mod splitting;
mod steps;
mod tokens;
mod visit;
mod workers;

pub use last::Last;
pub use passes::Passes;
pub use school::School;
pub use visit::Visit;
