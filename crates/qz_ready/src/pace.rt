//! When the calls of an object in memory move something, and when they wait.

ghost use Rattle.std.specs.Prelude.{◌≡◌, ◌<◌, ◌≤◌, is_none, IfNone, IfSome};
ghost use Rattle.qz_outside.specs.Causes.{HasRisen};
ghost use Rattle.qz_ready.specs.Paces.{paced, waits_next};

use qz_text::Listed;
use std::collections::VecDeque;
use std::marker::Model;

/// What one call does.
#[derive(Clone, Copy, Debug, PartialEq, Eq)]
pub enum Turn {
    /// It moves so many bytes at most, or a link. One that is to move no byte waits.
    Moves(usize),
    /// It finds nothing yet.
    Waits,
}

/// The turns of the calls to come, in order, and how many calls have waited. Calls behind the last turn don't wait.
#[derive(Drop)]
pub struct Pace {
    turns: VecDeque<Turn>,
    waits: u64,
}

impl Model for Pace {
    ghost use Rattle.qz_ready.specs.Paces.{Pacing};

    ghost Value = { Pacing };

    ghost view = { λ p. record { turns = p.turns.items; waits = p.waits } };
}

impl Pace {
    /// A pace of these turns.
    pub fn new(turns: Listed<Turn>) -> Pace
        ensures { result ≡ record { turns = turns; waits = 0 } }
    {
        Pace {
            turns: VecDeque::from_vec(turns.items),
            waits: 0,
        }
    }

    /// Begins a call: how much it moves at most, which is more than 0, or `None` where it waits.
    pub fn begin(&mut self) -> Option<usize>
        ensures after { self.new ≡ paced self.old }
        ensures waits { is_none result ≡ waits_next self.old.turns }
        ensures some { IfSome result (λ most. 0 < most) }
        ensures later { self.old.waits ≤ self.new.waits }
        ensures risen { IfNone result (HasRisen self.old.waits self.new.waits) }
    {
        match self.turns.pop_front() {
            None => Some(usize::MAX),
            Some(Turn::Moves(most)) if most > 0 => Some(most),
            Some(Turn::Moves(_) | Turn::Waits) => {
                self.waits = self.waits.saturating_add(1);
                None
            }
        }
    }
}
