//! How long the texts of a question may be, how many parts it may have, and how many steps a slot takes.

/// The most choices, pairs or answers.
pub const MOST_PARTS: usize = 64;

/// The most bytes of a text: of one in a question, or of one typed as a response.
pub const MOST_TEXT: usize = 65_536;

/// The most bytes of a hint.
pub const MOST_HINT: usize = 4_096;

/// The most hints.
pub const MOST_HINTS: usize = 20;

/// The most bytes of a question: of its texts and its hints, and of its canonical text and its hints.
pub const MOST_TOGETHER: usize = 262_144;

/// The most Save, Submit and Again steps of a slot.
pub const MOST_ANSWERING: u32 = 10_000;

/// The most Mark steps of a slot.
pub const MOST_MARKS: u32 = 1_000;
