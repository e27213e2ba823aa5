//! Texts, bytes and lists that contracts see as plain lists, typed texts and the patterns that they fit, copies
//! that may want memory, and the error of that want.
#![tactic(auto)]

mod bytes;
mod copy;
mod escaping;
mod folding;
mod gaps;
mod listed;
mod matching;
mod memory;
mod pattern;
mod text;
mod typed;

pub use bytes::Bytes;
pub use copy::TryCopy;
pub use escaping::escape;
pub use listed::Listed;
pub use memory::NoMemory;
pub use pattern::Pattern;
pub use text::Text;
pub use typed::Typed;
