//! Slots with more than one try: interactive with hints, and adaptive with and without penalties.
#![tactic(auto)]

mod adaptive;
mod fractions;
mod interactive;
mod machine;
mod places;

pub use machine::TryMachine;
