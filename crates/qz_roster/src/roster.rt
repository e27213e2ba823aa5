//! What the records of a catalogue tell, beside their list.

ghost use Rattle.std.specs.Prelude.{◌≡◌, ◌-◌, ◌<◌, ◌≤◌, ◌^◌, [], ◌∷◌, ◌++◌, length, OnOk};
ghost use Rattle.qz_terms.specs.Catalog as catalog;

use crate::{Counts, Members, Overrides, People, Quizzes};
use qz_terms::Record;
use qz_text::NoMemory;
use std::alloc::Global;

/// Users by token and by number, the keys of their requests, the members of groups, quizzes by number, what is set otherwise at
/// them, and how many there are of the rest.
#[derive(Drop)]
pub struct Roster {
    pub people: People,
    pub quizzes: Quizzes,
    pub counts: Counts,
    pub members: Members,
    pub overrides: Overrides,
}

impl Roster {
    ghost use Rattle.qz_roster.specs.Roster.{HasRoom, IsNext, IsRosterOf};

    /// Of no records. It takes no memory.
    pub fn new(alloc: Global) -> Roster
        ensures { IsRosterOf [] result }
    {
        Roster {
            people: People::new(alloc),
            quizzes: Quizzes::new(alloc),
            counts: Counts::new(alloc),
            members: Members::new(alloc),
            overrides: Overrides::new(alloc),
        }
    }

    /// Makes room for a record that is to stand behind these.
    pub fn make_room(
        &mut self,
        alloc: Global,
        records: &[Record],
        record: &Record,
    ) -> Result<(), NoMemory>
        requires roster { IsRosterOf records.now self.old }
        requires next { IsNext records.now «record».now }
        ensures room { OnOk result (HasRoom self.new «record».now) }
        ensures roster { IsRosterOf records.now self.new }
    {
        self.people.make_room(alloc, record)?;
        self.quizzes.make_room(record)?;
        self.counts.make_room(record)?;
        self.members.make_room(record)?;
        self.overrides.make_room(record)
    }

    /// Keeps what a record tells that is to stand behind these. It takes no memory.
    pub fn keep(&mut self, alloc: Global, records: &[Record], record: &Record)
        requires roster { IsRosterOf records.now self.old }
        requires next { IsNext records.now «record».now }
        requires few { length records.now < 2 ^ 32 - 1 }
        requires entries { length (catalog.entries records.now) ≤ 20000 }
        requires room { HasRoom self.old «record».now }
        ensures { IsRosterOf (records.now ++ «record».now ∷ []) self.new }
    {
        self.people.keep(alloc, records, record);
        self.quizzes.keep(alloc, records, record);
        self.counts.keep(records, record);
        self.members.keep(records, record);
        self.overrides.keep(records, record);
    }
}
