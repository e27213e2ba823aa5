//! What is shown of a shard's records: slots, attempts, pages and grades, what is said of a record that was put, and what isn't there.
//! Nothing is put and nothing is graded.
#![tactic(auto)]

mod feedback;
mod grades;
mod missing;
mod pages;
mod replies;
mod review;
mod viewing;

pub use grades::rows;
pub use missing::missing_here;
pub use pages::page;
pub use replies::said;
pub use review::{shown_grade, shown_state, shows_grade};
pub use viewing::{sees_marks, standing_of, viewed};
