//! A list of its own.

ghost use Rattle.std.specs.Prelude.{◌≡◌, List, [], IfOk};

use crate::{NoMemory, TryCopy};
use std::alloc::Global;
use std::marker::Model;

/// A list, seen as the list of its items.
#[derive(Debug, Drop)]
pub struct Listed<T> {
    pub items: Vec<T>,
}

impl<T> Model for Listed<T> {
    ghost Value = { List T };

    ghost view = { λ l. l.items.items };
}

impl<T> Listed<T> {
    /// The empty list. It takes no memory.
    pub fn empty(alloc: Global) -> Listed<T>
        ensures { result ≡ [] }
    {
        Listed {
            items: Vec::new(alloc),
        }
    }

    pub fn as_slice(&self) -> &[T]
        ensures { result.now ≡ self.now }
    {
        &self.items
    }
}

impl<T: TryCopy + Drop> TryCopy for Listed<T> {
    fn try_copy(&self, alloc: Global) -> Result<Listed<T>, NoMemory> {
        let mut items = Vec::with_capacity(alloc, self.items.len())?;
        for item in &self.items {
            items.push(item.try_copy(alloc)?)?;
        }
        Ok(Listed { items })
    }
}
