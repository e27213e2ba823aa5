//! Bytes of its own.

ghost use Rattle.std.specs.Prelude.{◌≡◌, List, ℕ, IfOk};

use crate::{NoMemory, TryCopy};
use std::alloc::Global;
use std::marker::Model;

/// Bytes, seen as their list.
#[derive(Debug, Drop)]
pub struct Bytes {
    pub items: Vec<u8>,
}

impl Model for Bytes {
    ghost Value = { List ℕ };

    ghost view = { λ b. b.items.items };
}

impl Bytes {
    /// A copy of these bytes.
    pub fn of(alloc: Global, bytes: &[u8]) -> Result<Bytes, NoMemory>
        ensures { IfOk result (λ made. made ≡ bytes.now) }
    {
        Ok(Bytes {
            items: Vec::from_slice(alloc, bytes)?,
        })
    }

    pub fn as_slice(&self) -> &[u8]
        ensures { result.now ≡ self.now }
    {
        &self.items
    }
}
