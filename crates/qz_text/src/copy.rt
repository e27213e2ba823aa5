//! Copies that may want memory.

ghost use Rattle.std.specs.Prelude.{◌≡◌, IfOk};

use crate::NoMemory;
use std::alloc::Global;

/// A value of which a copy can be made, where there is memory for it.
pub trait TryCopy {
    /// A copy, equal to its source as a value.
    fn try_copy(&self, alloc: Global) -> Result<Self, NoMemory>
        ensures { IfOk result (λ copy. copy ≡ self.now) };
}

impl TryCopy for u8 {
    fn try_copy(&self, _alloc: Global) -> Result<u8, NoMemory> {
        Ok(*self)
    }
}
