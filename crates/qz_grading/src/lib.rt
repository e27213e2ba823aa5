//! One question and the steps taken on it: types, spellings, and what grading and behaviours mean.
#![tactic(auto)]

mod counting;
mod fitting;
mod grading;
mod limits;
mod matching;
mod outcome;
mod question;
mod refusal;
mod response;
mod room;
mod sameness;
mod shape;
mod sound;
mod spelled;
mod steps;
mod weights;
mod words;
mod written;

pub use counting::Steps;
pub use fitting::{complete, fits, gradable};
pub use grading::{grade, same, same_answer};
pub use limits::{
    MOST_ANSWERING, MOST_HINT, MOST_HINTS, MOST_MARKS, MOST_PARTS, MOST_TEXT, MOST_TOGETHER,
};
pub use outcome::{Behaviour, Moved, Outcome, State};
pub use question::{
    Bank, Choice, Extent, Format, Item, Kind, Num, Pair, Question, Rich, Shape, Short,
};
pub use refusal::{AttemptId, Refusal, Thing};
pub use response::{Answer, Response, Step};
pub use room::canonical_size_is_at_most;
pub use sameness::{same_bank, same_question, same_texts};
pub use shape::shape_of;
pub use sound::{has_no_blank, has_right_choice, has_stem, is_sound, least_parts, parts};
pub use spelled::{Spelled, attempt_onto};
pub use steps::{last_submitted, moved, response_at};
pub use weights::first_taking;
