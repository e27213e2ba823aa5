//! What a refused request leaves of the lists of a school.

ghost use Rattle.qz_refused.specs.Refusing.{RefusedLeavesAll};

/// A request that is refused leaves each list of the school as it was, but for a record that was in doubt there: one that the request
/// reads was looked for before, and is adopted or dropped. Where the refusal is that a keeper failed, the record of the request may be
/// in doubt besides.
pub fn refused_leaves_all()
    ensures { RefusedLeavesAll }
{}
