//! The calls of an object in memory.

ghost use Rattle.std.specs.Prelude.{◌≡◌, ◌↔◌, ◌≤◌, IsErr, OnOk, OnErr, Contains};
ghost use Rattle.qz_outside.specs.Causes.{HasCause, HasRisen, counted};

use crate::Failed;
use qz_text::Listed;

/// Which calls of an object in memory are to fail, by their numbers from 1, and how many calls and faults there were.
#[derive(Drop)]
pub struct Calls {
    pub failing: Listed<u64>,
    pub made: u64,
    pub faults: u64,
}

impl Calls {
    /// Before the first call.
    pub fn new(failing: Listed<u64>) -> Calls
        ensures { result ≡ record { failing = failing; made = 0; faults = 0 } }
    {
        Calls {
            failing,
            made: 0,
            faults: 0,
        }
    }

    /// Counts a call, which fails where its number is listed.
    pub fn begin(&mut self) -> Result<(), Failed>
        ensures cause { HasCause self.old.faults self.new.faults result }
        ensures listed { IsErr result ↔ Contains self.old.failing (counted self.old.made) }
        ensures ok { OnOk result (self.new ≡ record self.old { made = counted self.old.made }) }
        ensures err { OnErr result (self.new
            ≡ record self.old { made = counted self.old.made; faults = counted self.old.faults }) }
    {
        self.made = self.made.saturating_add(1);
        if self.failing.as_slice().contains(&self.made) {
            self.count_fault();
            return Err(Failed);
        }
        Ok(())
    }

    /// Counts a fault.
    pub fn count_fault(&mut self)
        ensures counts { self.new ≡ record self.old { faults = counted self.old.faults } }
        ensures later { self.old.faults ≤ self.new.faults }
        ensures risen { HasRisen self.old.faults self.new.faults }
    {
        self.faults = self.faults.saturating_add(1);
    }
}
