//! How serving a door ended.

/// Why no more links were taken.
#[derive(Clone, Copy, Debug, PartialEq, Eq)]
pub enum PollWhy {
    /// None is left.
    Over,
    /// As many were taken as were asked for.
    Enough,
    /// The door failed: its count of faults rose.
    DoorFault,
    /// Memory was wanting for the run.
    Memory,
}

/// How serving a door ended, and what it was served with.
#[derive(Drop)]
pub struct PollEnd<D, C> {
    /// So many links were taken, and given back.
    pub links: u64,
    /// So many of them ended for want of memory.
    pub short: u64,
    /// The desks with their clocks, in their order.
    pub desks: Vec<(D, C)>,
    /// Why no more were taken.
    pub why: PollWhy,
}
