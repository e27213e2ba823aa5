//! Keys of requests, and the replies that they got.

ghost use Rattle.std.specs.Prelude.{◌≡◌, ◌++◌, ◌∷◌, ◌&&◌, ◌==◌, ℕ, List, [], Some, None, OnOk, bytes_eq, if◌then◌else◌, option_copied, option_map, position};
ghost use Rattle.std.specs.Option.{option_or};
ghost use Rattle.qz_terms.specs.Answer.{said};
ghost use Rattle.qz_terms.specs.Cause.{has_key};
ghost use Rattle.qz_terms.specs.declared.record.Record.{Record};
ghost use Rattle.qz_index.specs.Keys.{AreKeys, HasKey, HasKeyRoom, kept_at, replied, said_under};

use crate::texts::Texts;
use qz_room::make;
use qz_terms::{Record, Reply};
use qz_text::{NoMemory, Text};
use std::alloc::Global;
use std::collections::BTreeMap;

/// What stands under a key: the place in the list, from 0, of the first record with it, and what was said of that record.
#[derive(Drop)]
pub struct Replied {
    pub at: usize,
    pub reply: Reply,
}

/// The keys of each caller. No request is graded or answered anew to be repeated.
#[derive(Drop)]
pub struct Keys {
    pub(crate) callers: BTreeMap<u32, Texts>,
}

impl Keys {
    /// Of no record. It takes no memory.
    pub fn new(alloc: Global) -> Keys
        ensures { AreKeys result [] }
    {
        Keys {
            callers: BTreeMap::new(alloc),
        }
    }

    /// What stands under a key of a caller, if a record has it. It takes no memory.
    pub fn look(&self, caller: u32, key: &Text) -> Option<&Replied>
        ensures at { (h : List Record) → AreKeys self.now h → option_map (λ r. r.at) (option_copied result) ≡ position (has_key caller key.now) h }
        ensures reply { (h : List Record) → AreKeys self.now h → option_map (λ r. r.reply) (option_copied result) ≡ said_under h caller key.now }
    {
        match self.callers.get(&caller) {
            Some(texts) => texts.look(key),
            None => None,
        }
    }

    /// Makes the room that the putting of a record takes. It copies the key's text. What the keys tell stays, also where memory is
    /// wanting.
    pub fn grow(&mut self, alloc: Global, record: &Record) -> Result<(), NoMemory>
        ensures room { OnOk result (HasKeyRoom self.new «record».now) }
        ensures kept { (h : List Record) → AreKeys self.old h → AreKeys self.new h }
    {
        match &record.key {
            Some(key) => self.make(alloc, record.caller, key),
            None => Ok(()),
        }
    }

    fn make(&mut self, alloc: Global, caller: u32, key: &Text) -> Result<(), NoMemory>
        ensures room { OnOk result (HasKey self.new caller key.now) }
        ensures same { (c : ℕ) (text : List ℕ) → kept_at self.new c text ≡ kept_at self.old c text }
    {
        make(&mut self.callers, caller, Texts::new(alloc))?;
        match self.callers.get_mut(&caller) {
            Some(texts) => texts.grow(alloc, key),
            None => unreachable!(),
        }
    }

    /// Puts a record behind these, with the reply that is said of it. A record without a key leaves all as it was, and so does one
    /// whose caller and key stand already. It takes no memory.
    pub fn put(&mut self, records: &[Record], record: &Record, reply: Reply)
        requires keys { AreKeys self.old records.now }
        requires room { HasKeyRoom self.old «record».now }
        requires said { reply ≡ said (records.now ++ «record».now ∷ []) «record».now }
        ensures { AreKeys self.new (records.now ++ «record».now ∷ []) }
    {
        if let Some(key) = &record.key {
            self.keep(record.caller, key, records.len(), reply);
        }
    }

    fn keep(&mut self, caller: u32, key: &Text, at: usize, reply: Reply)
        requires { HasKey self.old caller key.now }
        ensures { (c : ℕ) (text : List ℕ) → kept_at self.new c text ≡ option_or (kept_at self.old c text) (if (caller == c) && bytes_eq key.now text then Some (replied at reply) else None) }
    {
        match self.callers.get_mut(&caller) {
            Some(texts) => texts.put(key, at, reply),
            None => unreachable!(),
        }
    }
}
