//! A clock in memory.

ghost use Rattle.std.specs.Prelude.{◌≡◌};
ghost use Rattle.qz_links.specs.Clocks.{TellsFirst};

use crate::Clock;
use qz_text::Listed;
use std::marker::Model;

/// Some moments, which are told in order, and the last of them again and again. A clock without any tells 0.
#[derive(Drop)]
pub struct MemoryClock {
    moments: Listed<u64>,
    at: usize,
}

impl Model for MemoryClock {
    ghost use Rattle.std.specs.Prelude.{◌≤◌, ℕ, List, length, drop};

    ghost Value = { List ℕ };

    ghost view = { λ c. drop c.at c.moments };

    ghost invariant = { λ c. c.at ≤ length c.moments };
}

impl MemoryClock {
    /// A clock that tells these moments.
    pub fn new(moments: Listed<u64>) -> MemoryClock
        ensures { result ≡ moments }
    {
        MemoryClock { moments, at: 0 }
    }
}

impl Clock for MemoryClock {
    ghost tells = { TellsFirst };

    fn now(&mut self) -> u64
        ensures { TellsFirst self.old result self.new }
    {
        let left = &self.moments.as_slice()[self.at..];
        let moment = left.first().copied().unwrap_or(0);
        if left.len() > 1 {
            self.at += 1;
        }
        moment
    }
}
