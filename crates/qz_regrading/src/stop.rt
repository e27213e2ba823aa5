//! When workers stop.

ghost use Rattle.std.specs.Prelude.{◌≡◌, true};

use std::sync::Wait;
use std::sync::atomic::{AtomicU64, Ordering};
use std::time::Duration;

/// How long a worker rests between two passes at most, in milliseconds.
const REST: u64 = 50;

/// A word by which workers are told to stop.
pub trait Signal {
    // That it was seen set: who is given any signal knows it by nothing but the signal's own answer.
    ghost seen_set: { Self → Type 0 };

    /// Whether it is set.
    fn is_set(&self) -> bool
        ensures { result ≡ true → seen_set self.now };

    /// Rests between two passes, for 50 milliseconds at most. Who sets it may end the rest.
    fn rest<W: Wait>(&self, rt: &W);
}

/// How many of the workers have left: a word that threads may share. It is set when all of them have.
#[derive(Drop)]
pub struct Stop {
    left: AtomicU64,
    workers: u32,
}

impl Stop {
    /// No worker of so many has left.
    pub fn new(workers: u32) -> Stop {
        Stop {
            left: AtomicU64::new(0),
            workers,
        }
    }

    /// One worker more has left. Whoever rests goes on.
    pub fn leave(&self) {
        self.left.fetch_add(1, Ordering::SeqCst);
        self.left.wake_all();
    }
}

impl Signal for Stop {
    // Threads share it, so nothing is known of its word.
    ghost seen_set = { λ _. Unit {0} };

    /// Whether as many have left as there are.
    fn is_set(&self) -> bool {
        self.left.load(Ordering::SeqCst) >= u64::from(self.workers)
    }

    /// Waits until one worker more leaves, 50 milliseconds at most, unless all have left.
    fn rest<W: Wait>(&self, rt: &W) {
        let left = self.left.load(Ordering::SeqCst);
        if left < u64::from(self.workers) {
            let seen = (left & 0xffff_ffff) as u32;
            self.left
                .park_timeout(rt, seen, Duration::from_millis(REST));
        }
    }
}
