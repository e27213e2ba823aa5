//! What is asked of a school is noted, so that an audit can tell whose each of its new records is.
#![tactic(auto)]

mod book;
mod clerk;
mod note;

pub use book::Book;
pub use clerk::Clerk;
pub use note::Note;
