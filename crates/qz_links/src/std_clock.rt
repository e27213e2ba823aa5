//! The system's clock.

ghost use Rattle.std.specs.Prelude.{◌≡◌, ◌≤◌};
ghost use Rattle.qz_links.specs.Clocks.{TellsKept};

use crate::Clock;
use std::marker::Model;
use std::time;

/// The greatest moment that is told: the last second of the year 2099.
const GREATEST_MOMENT: u64 = 4_102_444_799;

/// The clock of the runtime. Where it can't be read, the clock tells again what it told last, at first 0. A moment
/// past 4,102,444,799 is told as that one.
#[derive(Drop)]
pub struct StdClock<R> {
    runtime: R,
    last: u64,
}

impl<R> Model for StdClock<R> {
    ghost use Rattle.std.specs.Prelude.{ℕ, ◌≤◌};
    ghost use Rattle.qz_links.specs.declared.std_clock.TheConstants.{GREATEST_MOMENT};

    ghost Value = { ℕ };

    ghost view = { λ c. c.last };

    ghost invariant = { λ c. c.last ≤ GREATEST_MOMENT };
}

impl<R: time::Clock> StdClock<R> {
    /// The runtime's clock, not yet read.
    pub fn new(runtime: R) -> StdClock<R>
        ensures { result ≡ 0 }
    {
        StdClock { runtime, last: 0 }
    }
}

impl<R: time::Clock> Clock for StdClock<R> {
    ghost tells = { λ _ moment kept. TellsKept moment kept };

    fn now(&mut self) -> u64
        ensures { TellsKept result self.new }
    {
        if let Ok(since) = self.runtime.since_1970() {
            self.last = since.as_secs().min(GREATEST_MOMENT);
        }
        self.last
    }
}
