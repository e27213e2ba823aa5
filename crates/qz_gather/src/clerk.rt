//! One who asks a school and notes it.

ghost use Rattle.std.specs.Prelude.{◌≡◌, []};
ghost use Rattle.qz_visit.specs.Visits.{AreOf, seen_in};
ghost use Rattle.qz_gather.specs.Clerks.{CountsEach};
ghost use Rattle.qz_gather.specs.Notes.{AreTrueOf};

use crate::book::Book;
use crate::note::{Note, make_room};
use qz_disks::Keeper;
use qz_grading::Refusal;
use qz_terms::{Ask, Desk, Reply};
use qz_text::{Listed, NoMemory};
use qz_visit::Visit;
use std::alloc::Global;
use std::marker::Model;
use std::sync::Wait;

/// One who asks a school, and a note of each request, the first one first. To who answers links it is a desk as any other.
///
/// Room for a note comes before its request: where memory is wanting for it nothing is asked, so that nothing that was asked goes unnoted.
#[derive(Drop)]
pub struct Clerk<'s, 'r, K: Keeper, R: Wait> {
    visit: Visit<'s, 'r, K, R>,
    notes: Vec<Note>,
}

impl<'s, 'r, K: Keeper, R: Wait> Model for Clerk<'s, 'r, K, R> {
    ghost use Rattle.qz_gather.specs.Clerks.{Clerk, IsKept};

    ghost Value = { Clerk };

    ghost view = { λ c. record { visit = c.visit; notes = c.notes.items } };

    ghost invariant = { λ c. IsKept c.visit c.notes.items };
}

impl<'s, 'r, K: Keeper, R: Wait> Clerk<'s, 'r, K, R> {
    /// One who asks with these passes, which keep a number for each shard, and has noted nothing yet. It takes no memory.
    pub fn new(alloc: Global, visit: Visit<'s, 'r, K, R>) -> Clerk<'s, 'r, K, R>
        requires { CountsEach visit }
        ensures visit { result.visit ≡ visit.entry }
        ensures none { result.notes ≡ [] }
    {
        Clerk {
            visit,
            notes: Vec::new(alloc),
        }
    }

    /// The notes, each of which is true of what the passes have seen.
    pub fn notes(&self) -> &[Note]
        ensures notes { result.now ≡ self.now.notes }
        ensures true_of { AreTrueOf (seen_in self.now.visit.passes) result.now }
    {
        &self.notes
    }

    /// The passes, with the notes. It takes no memory.
    pub fn into_book(self) -> Book<K>
        ensures seats { result.passes.seats ≡ self.entry.visit.passes }
        ensures last { result.passes.last ≡ self.entry.visit.last }
        ensures notes { result.notes ≡ self.entry.notes }
        ensures own { AreOf self.entry.visit.school result.passes.seats }
    {
        let Clerk { visit, notes } = self;
        Book {
            passes: visit.into_passes(),
            notes: Listed { items: notes },
        }
    }
}

impl<'s, 'r, K: Keeper, R: Wait> Desk for Clerk<'s, 'r, K, R> {
    ghost use Rattle.qz_school.specs.Answering.{MayBeAsked};
    ghost use Rattle.qz_visit.specs.Visits.{faults_seen, lists_told, seen_in};
    ghost use Rattle.qz_gather.specs.Clerks.{Answers};

    ghost lists = { λ c. lists_told (seen_in c.visit.passes) };

    ghost faults = { λ c. faults_seen c.visit.passes };

    ghost takes = { λ moment ask. MayBeAsked ask moment };

    ghost answers = { Answers };

    fn ask(&mut self, alloc: Global, ask: &Ask, moment: u64) -> Reply {
        let count = self.visit.passes().last().parts.as_slice().len();
        let room = match make_room(alloc, &mut self.notes, ask, count) {
            Ok(room) => room,
            Err(NoMemory) => return Reply::Refused(Refusal::Memory),
        };
        let reply = self.visit.ask(alloc, ask, moment);
        let last = self.visit.passes().last();
        self.notes
            .push_reserved(Note::of(alloc, room, moment, &reply, last));
        reply
    }
}
