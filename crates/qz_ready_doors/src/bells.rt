//! The bells of the links that are open.

ghost use Rattle.futures.specs.Task.{Keeps};

use futures::task::{Bell, Context};
use qz_text::NoMemory;
use std::alloc::Global;
use std::cell::Cell;
use std::collections::BTreeMap;

/// The bells of a door and of the links that are open, by their keys. Who serves the links hangs them, and who hears that a
/// link has become ready rings them, so they are shared.
#[derive(Drop)]
pub struct Bells {
    alloc: Global,
    hung: Cell<Option<BTreeMap<u64, Bell>>>,
}

impl Bells {
    /// No bells. It takes no memory.
    pub fn new(alloc: Global) -> Bells {
        Bells {
            alloc,
            hung: Cell::new(None),
        }
    }

    fn taken(&self) -> BTreeMap<u64, Bell> {
        match self.hung.replace(None) {
            Some(hung) => hung,
            None => BTreeMap::new(self.alloc),
        }
    }

    /// Hangs a bell, to be rung where what has this key has become ready.
    pub fn hang(&self, key: u64, bell: Bell) -> Result<(), NoMemory> {
        let mut hung = self.taken();
        let is_hung = hung.insert(key, bell).is_ok();
        self.hung.set(Some(hung));
        if is_hung { Ok(()) } else { Err(NoMemory) }
    }

    /// Takes down the bell of a link that has ended.
    pub fn take_down(&self, key: u64) {
        let mut hung = self.taken();
        hung.remove(&key);
        self.hung.set(Some(hung));
    }

    /// Rings the bell of what has this key, if one hangs.
    pub fn ring(&self, key: u64, cx: &mut Context<'_>)
        ensures kept { Keeps cx.old cx.new }
    {
        let hung = self.taken();
        if let Some(bell) = hung.get(&key) {
            cx.ring(*bell, false);
        }
        self.hung.set(Some(hung));
    }

    /// Rings all bells.
    pub fn ring_all(&self, cx: &mut Context<'_>)
        ensures kept { Keeps cx.old cx.new }
    {
        let hung = self.taken();
        for (_, bell) in &hung {
            cx.ring(*bell, false);
        }
        self.hung.set(Some(hung));
    }
}
