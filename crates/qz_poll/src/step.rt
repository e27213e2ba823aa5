//! What came of serving a link a little further.

use qz_http::LinkEnd;

/// So many requests of one link are answered at once, before others have their turn.
pub const MOST_AT_ONCE: u32 = 64;

/// What came of one step.
#[derive(Clone, Copy, PartialEq, Eq)]
pub enum Step {
    /// A request has its reply, and its response is to be written.
    Answered,
    /// A piece was read, or the link's last response is to be written.
    On,
    /// The link isn't ready to go on.
    NotYet,
    /// The link is over.
    Over(LinkEnd),
}

/// What came of the steps of one poll.
#[derive(Clone, Copy, PartialEq, Eq)]
pub enum Advance {
    /// The link isn't ready to go on.
    NotYet,
    /// As many requests have their replies as are answered at once.
    Enough,
    /// The link is over.
    Over(LinkEnd),
}
