//! Who is a member of which group.

ghost use Rattle.std.specs.Prelude.{◌≡◌, ℕ, List, [], ◌∷◌, ◌++◌, OnOk};
ghost use Rattle.qz_terms.specs.declared.record.Record.{Record};
ghost use Rattle.qz_terms.specs.Catalog.{asked, is_member};
ghost use Rattle.qz_roster.specs.Members.{AreMembers, HasMemberRoom, is_joined};

use crate::told::joined;
use qz_room::{fill, make};
use qz_terms::Record;
use qz_text::NoMemory;
use std::alloc::Global;
use std::collections::BTreeMap;

/// Whether a user is a member of a group, by group and user.
#[derive(Drop)]
pub struct Members {
    pub(crate) joined: BTreeMap<(u32, u32), bool>,
}

impl Members {
    /// No members. It takes no memory.
    pub(crate) fn new(alloc: Global) -> Members
        ensures { AreMembers [] result }
    {
        Members {
            joined: BTreeMap::new(alloc),
        }
    }

    /// Whether a user is a member of a group.
    pub fn is_member(&self, group: u32, user: u32) -> bool
        ensures { (c : List Record) → AreMembers c self.now → result ≡ is_member c group user }
    {
        self.joined.get(&(group, user)).copied().unwrap_or(false)
    }

    /// Makes room for what a record tells.
    pub(crate) fn make_room(&mut self, record: &Record) -> Result<(), NoMemory>
        ensures room { OnOk result (HasMemberRoom self.new (asked «record».now)) }
        ensures unchanged { (g u : ℕ) → is_joined self.new g u ≡ is_joined self.old g u }
    {
        match joined(record) {
            Some(member) => make(&mut self.joined, member, false),
            None => Ok(()),
        }
    }

    /// Keeps what a record tells that stands behind these. It takes no memory.
    pub(crate) fn keep(&mut self, records: &[Record], record: &Record)
        requires members { AreMembers records.now self.old }
        requires room { HasMemberRoom self.old (asked «record».now) }
        ensures { AreMembers (records.now ++ «record».now ∷ []) self.new }
    {
        if let Some(member) = joined(record) {
            fill(&mut self.joined, member, true);
        }
    }
}
