//! A door in memory at a pace.

ghost use Rattle.std.specs.Prelude.{◌≡◌};

use crate::{Arrival, Pace, ReadyDoor, ReadyLink};
use qz_links::Door;
use qz_outside::Failed;
use std::marker::Model;

/// A door that has its links at hand, as one in memory, at a pace: every call takes the next link, or finds none yet.
#[derive(Drop)]
pub struct PacedDoor<R> {
    key: u64,
    door: R,
    arrivals: Pace,
}

impl<R> Model for PacedDoor<R> {
    ghost use Rattle.qz_ready.specs.Paces.{PacedEntrance};

    ghost Value = { PacedEntrance R };

    ghost view = { λ d. record { key = d.key; door = d.door; arrivals = d.arrivals } };
}

impl<R> PacedDoor<R> {
    /// This door at this pace, under a key.
    pub fn new(key: u64, door: R, arrivals: Pace) -> PacedDoor<R>
        ensures { result ≡ record { key = key; door = door; arrivals = arrivals } }
    {
        PacedDoor {
            key,
            door,
            arrivals,
        }
    }

    /// The door itself.
    pub fn door(&self) -> &R
        ensures { result.now ≡ self.now.door }
    {
        &self.door
    }
}

impl<R: Door<Link: ReadyLink>> ReadyDoor for PacedDoor<R> {
    type Link = R::Link;

    ghost left = { λ d. R.left d.door };

    ghost returned = { λ d. R.returned d.door };

    ghost returns = { λ d. R.returns d.door };

    ghost out = { λ d. R.out d.door };

    ghost faults = { λ d. R.faults d.door };

    ghost waits = { λ d. d.arrivals.waits };

    ghost key = { λ d. d.key };

    fn key(&self) -> u64 {
        self.key
    }

    fn try_next(&mut self) -> Result<Arrival<R::Link>, Failed> {
        if self.arrivals.begin().is_none() {
            return Ok(Arrival::NotYet);
        }
        match self.door.next()? {
            Some(link) => Ok(Arrival::Link(link)),
            None => Ok(Arrival::Over),
        }
    }

    fn back(&mut self, link: R::Link) {
        self.door.back(link);
    }
}
