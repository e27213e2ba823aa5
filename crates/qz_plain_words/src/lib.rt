//! That the words of a reply, but a question's text and a page, have nothing to escape.
#![tactic(auto)]

pub mod laws;
