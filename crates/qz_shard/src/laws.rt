//! What the answers of a shard mean for its callers.

ghost use Rattle.std.specs.Prelude.{ℕ};
ghost use Rattle.qz_shard.specs.Holdings.{IsAnsweredAgain};

/// A request that stands in a shard's list, with its caller and its key, is answered again by what was said of its own record,
/// whatever came since, and adds nothing.
pub fn answered_again()
    ensures { (index count : ℕ) → IsAnsweredAgain index count }
{}
