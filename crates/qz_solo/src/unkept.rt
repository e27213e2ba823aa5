//! A keeper that keeps nothing.

use qz_disks::{KeepErr, Keeper};
use qz_text::{Bytes, Listed};
use std::alloc::Global;

/// A keeper of nothing, for lists in memory: it takes each payload, keeps none of it, and fails no call.
#[derive(Drop)]
pub struct Unkept;

impl Keeper for Unkept {
    ghost use Rattle.std.specs.Prelude.{None};

    ghost kept = { λ _. None };

    ghost doubt = { λ _. None };

    ghost faults = { λ _. 0 };

    ghost sound = { λ _. Unit {0} };

    fn append(&mut self, _alloc: Global, _payload: &[u8]) -> Result<(), KeepErr> {
        Ok(())
    }

    fn reopen(&mut self, alloc: Global) -> Result<Listed<Bytes>, KeepErr> {
        Ok(Listed::empty(alloc))
    }
}
