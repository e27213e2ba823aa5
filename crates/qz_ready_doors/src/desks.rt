//! The desks before a door.

ghost use Rattle.std.specs.Prelude.{◌≡◌, ◌<◌, true, length, slice_get, IfSome, IsSomeAnd, None};
ghost use Rattle.qz_ready_doors.specs.Slots.{is_free};

use crate::slot::Slot;
use std::marker::PhantomData;

/// Why the door isn't tried any more.
#[derive(Clone, Copy, PartialEq, Eq)]
pub enum Shut {
    /// None is left.
    Over,
    /// The door failed.
    Fault,
}

/// The desks before a door, and what was taken there.
#[derive(Drop)]
pub struct Desks<D, L, C, K> {
    pub slots: Vec<Slot<D, L, C>>,
    /// So many links are taken at most.
    pub most: u64,
    /// So many links were taken.
    pub taken: u64,
    /// So many of them have ended for want of memory.
    pub short: u64,
    pub shut: Option<Shut>,
    /// What only clauses know: how it began.
    pub began: PhantomData<K>,
}

impl<D, L, C, K> Desks<D, L, C, K> {
    /// A desk to which the next link may be taken, if one may come.
    pub fn next_free(&self) -> Option<usize>
        ensures free { IfSome result (λ at. IsSomeAnd (slice_get self.now.slots.items at)
            (λ slot. is_free slot ≡ true)) }
        ensures more { IfSome result (λ _. (self.now.taken < self.now.most) × (self.now.shut ≡ None)) }
    {
        if self.shut.is_some() || self.taken >= self.most {
            return None;
        }
        for at in 0..self.slots.len() {
            if self.slots[at].is_free() {
                return Some(at);
            }
        }
        None
    }
}
