//! What is asked of a quiz server, what it answers, and the records that it keeps.
#![tactic(auto)]

mod access;
mod ask;
mod callers;
mod desk;
mod grades;
mod keys;
pub mod laws;
mod limits;
mod people;
mod plan;
mod record;
mod reply;
mod request;
mod room;
mod routes;
mod sameness;

pub use access::{Handling, Override, Review, Settings};
pub use ask::{Ask, copy_of_text};
pub use callers::{forbidden, is_anothers, is_student};
pub use desk::Desk;
pub use grades::{Method, Policy};
pub use keys::place_of;
pub use limits::{
    GREATEST_MOMENT, LONGEST_DURATION, LONGEST_KEY, MOST_ALLOWED, MOST_ATTEMPTS, MOST_ENTRIES,
    MOST_GROUPS, MOST_JOBS, MOST_OVERRIDES, MOST_QUIZZES, MOST_RECORD, MOST_SHARDS, MOST_SLOTS,
    MOST_USERS, MOST_VERSIONS,
};
pub use people::{Caller, Role, User};
pub use plan::{Bound, Job, Plan, Planned};
pub use record::{Event, How, Learned, Record, Terms};
pub use reply::{Done, Part, Reply, Row, Shown, Status};
pub use request::{Request, Whom};
pub use room::make_room;
pub use routes::{asks_catalog, attempt_named, named_user};
pub use sameness::same_request;
