//! What time it is.

ghost use Rattle.std.specs.Prelude.{ℕ};

/// A clock. Its call never fails, and takes no memory.
pub trait Clock {
    /// What a call does: of the clock before it, the moment told, and the clock after it.
    ghost tells: { Self → ℕ → Self → Type 0 };

    /// Tells the moment, in whole seconds since 1970-01-01 in UTC.
    fn now(&mut self) -> u64
        ensures { tells self.old result self.new };
}
