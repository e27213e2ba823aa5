//! How the loop of a worker ends.

/// What the last pass of a worker came to.
#[derive(Clone, Copy, Debug, PartialEq, Eq)]
pub enum LoopEnd {
    /// Each job of the catalogue is done in each shard.
    Done,
    /// A keeper of the lists failed in so many requests, at least one.
    Left { faults: u64 },
    /// Memory was wanting, and no keeper failed.
    Short,
}
