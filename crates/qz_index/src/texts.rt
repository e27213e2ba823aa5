//! The keys of one caller.

ghost use Rattle.std.specs.Prelude.{◌≡◌, ℕ, List, None, IfOk, IsSome, OnOk, Some, bytes_eq, if◌then◌else◌, option_copied};
ghost use Rattle.std.specs.Option.{option_or};
ghost use Rattle.std.specs.BTreeMap.{get_by_text};
ghost use Rattle.qz_index.specs.Keys.{HasText, replied, replied_at};

use crate::keys::Replied;
use qz_terms::Reply;
use qz_text::{NoMemory, Text};
use std::alloc::Global;
use std::collections::BTreeMap;

/// What stands under each key of a caller. A key that is made for a record to come has nothing.
#[derive(Drop)]
pub(crate) struct Texts {
    pub(crate) replied: BTreeMap<String, Option<Replied>>,
}

impl Texts {
    pub(crate) fn new(alloc: Global) -> Texts
        ensures { (key : List ℕ) → replied_at result key ≡ None }
    {
        Texts {
            replied: BTreeMap::new(alloc),
        }
    }

    pub(crate) fn look(&self, key: &Text) -> Option<&Replied>
        ensures { option_copied result ≡ replied_at self.now key.now }
    {
        match self.replied.get(key.as_str()) {
            Some(replied) => replied.as_ref(),
            None => None,
        }
    }

    pub(crate) fn grow(&mut self, alloc: Global, key: &Text) -> Result<(), NoMemory>
        ensures room { OnOk result (HasText self.new key.now) }
        ensures same { (text : List ℕ) → replied_at self.new text ≡ replied_at self.old text }
    {
        if !self.replied.contains_key(key.as_str()) {
            let copy = String::from_str(alloc, key.as_str())?;
            self.replied.insert(copy, None)?;
        }
        Ok(())
    }

    /// Keeps what stands under a key, if nothing does. It takes no memory.
    pub(crate) fn put(&mut self, key: &Text, at: usize, reply: Reply)
        requires { HasText self.old key.now }
        ensures { (text : List ℕ) → replied_at self.new text ≡ option_or (replied_at self.old text) (if bytes_eq key.now text then Some (replied at reply) else None) }
    {
        match self.replied.get_mut(key.as_str()) {
            Some(entry) => keep(entry, Replied { at, reply }),
            None => unreachable!(),
        }
    }
}

/// Fills an entry that is empty.
fn keep(entry: &mut Option<Replied>, replied: Replied)
    ensures { entry.new ≡ option_or entry.old (Some replied) }
{
    if entry.is_none() {
        *entry = Some(replied);
    }
}
