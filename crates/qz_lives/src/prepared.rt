//! What is made before a record is put.

use crate::Live;
use qz_grading::Step;

/// What is made before a record is put, so that putting it takes no memory.
#[derive(Drop)]
pub enum Prepared {
    /// The attempt that a record starts.
    Attempt(Live),
    /// A step that a record takes.
    Step(Step),
    /// Any other record needs nothing.
    Nothing,
}
