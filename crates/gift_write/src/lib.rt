//! The canonical text of questions in GIFT, Moodle's text format for question banks, laid out as Moodle's writer does.
#![tactic(auto)]

mod answer_lines;
mod answers;
mod bank;
mod categories;
mod escaping;
mod numbers;
mod question;
mod rich;

pub use bank::{WriteErr, spell, write};
pub use question::question_onto;
