//! The gradebook: the totals of finished attempts, and the grade that a quiz's method makes of them.
#![tactic(auto)]

mod finished;
mod methods;
mod rows;

pub use rows::Rows;
