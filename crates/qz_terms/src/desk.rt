//! What answers requests.

ghost use Rattle.std.specs.Prelude.{ℕ};
ghost use Rattle.qz_terms.specs.declared.ask.Ask.{Ask};
ghost use Rattle.qz_terms.specs.declared.reply.Reply.{Reply};
ghost use Rattle.qz_terms.specs.Serial.{Lists};

use crate::{Ask, Reply};
use std::alloc::Global;

/// A school that answers requests, one after the other.
pub trait Desk {
    /// The records of its catalogue and of its shards, so far as it has seen them.
    ghost lists: { Self → Lists };

    /// How many requests were refused because a keeper of its lists failed: a count that never falls.
    ghost faults: { Self → ℕ };

    // What it may be asked at a moment.
    ghost takes: { ℕ → Ask → Type 0 };

    // How it answers: the desk before and after a request at a moment, and the reply.
    ghost answers: { Self → Self → ℕ → Ask → Reply → Type 0 };

    /// Answers a request at this moment by the clock, in seconds since 1970.
    fn ask(&mut self, alloc: Global, ask: &Ask, moment: u64) -> Reply
        requires { takes moment ask.now }
        ensures { answers self.old self.new moment ask.now result };
}
