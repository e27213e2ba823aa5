//! The words of lines: what the words of a request, an answer or a response spell, read from their bytes, and the words of refusals,
//! spelled onto a text or one by one.
#![tactic(auto)]

mod answers;
mod arguments;
mod asking;
mod attempt_requests;
mod bank_words;
mod catalog_requests;
mod escapes;
mod lines;
mod listed;
mod refusals;
mod verbs;
mod words;

pub use arguments::{answer_at, certainty_at, end, mark_at, penalty_at};
pub use asking::{ask_of_line, request};
pub use bank_words::{behaviour_in, only_question, penalty_in};
pub use escapes::{text_in, text_word_onto};
pub use lines::{after, number, split_line};
pub use listed::{attempt_onto, behind_onto, number_onto, word_onto};
pub use refusals::{refusal_number, refusal_onto, refused_onto, shape_onto};
pub use verbs::{Verb, takes_key, verb_in};
pub use words::{WordFault, attempt_in, cut, first_word, next_word, token_in};
