// What is known of a value behind a lock, and what a seat at the lock's table knows. Contracts alone see these:
// no value of them is made.
use std::collections::LinkedList;

/// What a value tells: its list, its record in doubt if there is one, and how many faults there were.
pub struct Tale<I> {
    pub list: LinkedList<I>,
    pub doubt: Option<I>,
    pub faults: u64,
}

/// What one turn did: what the value told as it began, and as it ended.
pub struct Turn<I> {
    pub found: Tale<I>,
    pub left: Tale<I>,
}

/// A seat waits with a ticket until its turn has come, and serves until it gives the turn on.
pub enum Stage {
    Resting,
    Waiting(u64),
    Serving(u64),
}

/// What one seat knows. A seat that was joined into another has no key, no numbers, tales of nothing and no turns.
pub struct View<I, K> {
    pub key: Option<K>,
    pub numbers: LinkedList<u64>,
    pub stage: Stage,
    /// What the value told as the last turn began, and as it ended.
    pub found: Tale<I>,
    pub seen: Tale<I>,
    /// Each turn that it took, in order, with those of the seats that were joined in. They go with its last number.
    pub turns: LinkedList<Turn<I>>,
    /// What the seat that was joined in last had seen.
    pub beside: Tale<I>,
}
