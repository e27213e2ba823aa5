//! What a pass has met.

ghost use Rattle.std.specs.Prelude.{◌≡◌, false, true};
ghost use Rattle.qz_regrading.specs.Passes.{met_with, MetEnds};

use crate::LoopEnd;
use qz_grading::Refusal;

/// In how many requests of a pass a keeper failed, and whether anything else left it short.
#[derive(Clone, Copy)]
pub struct Met {
    pub faults: u64,
    pub short: bool,
}

impl Met {
    /// Nothing was met yet.
    pub fn nothing() -> Met
        ensures { result ≡ record { faults = 0; short = false } }
    {
        Met {
            faults: 0,
            short: false,
        }
    }

    /// A request was refused. Any refusal but that of a keeper counts as want of memory.
    pub fn refuse(&mut self, why: Refusal)
        ensures { self.new ≡ met_with self.old why }
    {
        match why {
            Refusal::KeepFault => self.faults = self.faults.saturating_add(1),
            _ => self.short = true,
        }
    }

    /// The pass stays short of what it was to do.
    pub fn fall_short(&mut self)
        ensures { self.new ≡ record self.old { short = true } }
    {
        self.short = true;
    }

    /// What a pass came to that met this.
    pub fn end(self) -> LoopEnd
        ensures { MetEnds self result }
    {
        if self.faults > 0 {
            return LoopEnd::Left {
                faults: self.faults,
            };
        }
        if self.short {
            return LoopEnd::Short;
        }
        LoopEnd::Done
    }
}
