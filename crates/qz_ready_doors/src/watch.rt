//! What tells which links have become ready.

use qz_outside::Failed;

/// What tells which links, and whether a door, may have become ready: by their keys.
pub trait Watch {
    /// Looks what has become ready since the latest look. It may wait for something first, where told so. `Failed` means that it
    /// can't tell, and that anything may be ready.
    fn look(&mut self, may_wait: bool) -> Result<(), Failed>;

    /// The key of one of what the latest look found, until all were given.
    fn next(&mut self) -> Option<u64>;
}

/// A watch over nothing, which can never tell: for links in memory.
#[derive(Clone, Copy, Debug, PartialEq, Eq)]
pub struct Unwatched;

impl Watch for Unwatched {
    fn look(&mut self, _may_wait: bool) -> Result<(), Failed> {
        Err(Failed)
    }

    fn next(&mut self) -> Option<u64> {
        None
    }
}
