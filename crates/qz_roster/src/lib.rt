//! What the records of a catalogue tell, found by number, by token and by key, beside their list.
#![tactic(auto)]

mod counts;
mod members;
mod overrides;
mod people;
mod quizzes;
mod roster;
mod texts;
mod told;

pub use counts::Counts;
pub use members::Members;
pub use overrides::Overrides;
pub use people::{Owner, People};
pub use quizzes::{Quiz, Quizzes, Slot};
pub use roster::Roster;
pub use told::{Named, regrade_by};
