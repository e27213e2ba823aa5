//! The one failure of the outside.

/// A call of the outside failed. It is told only where the object's count of faults rose in that call.
#[derive(Clone, Copy, Debug, PartialEq, Eq)]
pub struct Failed;
