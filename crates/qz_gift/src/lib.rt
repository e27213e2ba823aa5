//! The commands that check a GIFT text, and lay it out anew.
#![tactic(auto)]

mod gift_text;

pub use gift_text::gift;
