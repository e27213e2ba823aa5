//! A school in memory.

ghost use Rattle.std.specs.Prelude.{◌≡◌, ◌<◌, ◌≤◌, ◌++◌, ◌∷◌, ◌%◌, [], length, IfOk, OnOk, None};
ghost use Rattle.qz_terms.specs.declared.limits.TheConstants.{LONGEST_KEY, MOST_SHARDS};
ghost use Rattle.qz_school.specs.Answering.{MayBeAsked};
ghost use Rattle.qz_solo.specs.Marks.{marks_of};
ghost use Rattle.qz_solo.specs.Memory.{AreClear, founded_lists, is_memory};
ghost use Rattle.qz_terms.specs.Serial.{lists_over, part_list};
ghost use Rattle.qz_serial.specs.Once.{AskedOnce};

use crate::Solo;
use crate::founding::{founded, fresh};
use crate::unkept::Unkept;
use qz_decimal::Mark;
use qz_grading::{AttemptId, Refusal};
use qz_terms::{Ask, Desk, Reply};
use qz_text::{Listed, NoMemory, Text};
use std::alloc::Global;
use std::marker::Model;

/// A school in memory, seen as its lists. Nothing keeps them, so that no keeper fails and no record is ever in doubt.
#[derive(Drop)]
pub struct MemorySchool {
    school: Solo<Unkept>,
}

impl Model for MemorySchool {
    ghost use Rattle.qz_terms.specs.Serial.{Lists};
    ghost use Rattle.qz_solo.specs.Memory.{AreClear};
    ghost use Rattle.qz_school.specs.Solos.{lists_in};

    ghost Value = { Lists };

    ghost view = { λ m. lists_in m.school };

    ghost invariant = { λ m. AreClear (lists_in m.school) };
}

/// Whether memory was wanting for an answer.
pub(crate) fn is_memory(reply: &Reply) -> bool
    ensures { result ≡ is_memory reply.now }
{
    matches!(reply, Reply::Refused(Refusal::Memory))
}

impl MemorySchool {
    /// A school that was just founded with so many shards, from 1 to 64, and this token of its manager, of at most 64 bytes.
    pub fn founded(alloc: Global, shards: u8, token: &str) -> Result<MemorySchool, NoMemory>
        requires some { 1 ≤ shards }
        requires few { shards ≤ MOST_SHARDS }
        requires short { length token.now ≤ LONGEST_KEY }
        ensures { IfOk result (λ school. school ≡ founded_lists shards token.now) }
    {
        let token = Text::of(alloc, token)?;
        let catalog = founded(alloc, shards, &token)?;
        let shards = fresh(alloc, shards)?;
        Ok(MemorySchool {
            school: Solo::of(catalog, shards),
        })
    }

    /// How many records the catalogue has. Whatever was asked, no record is in doubt.
    pub fn len(&self) -> u64
        ensures count { result ≡ length self.now.records.list }
        ensures clear { AreClear self.now }
        ensures some { 0 < length self.now.parts }
    {
        self.school.len()
    }

    /// How many records a shard has.
    pub fn shard_len(&self, shard: u8) -> u64
        requires { shard < length self.now.parts }
        ensures { result ≡ length (part_list self.now shard) }
    {
        self.school.shard_len(shard)
    }

    /// Adds the marks of an attempt's slots to others, in order. An attempt that isn't there has none.
    pub fn marks_onto(
        &mut self,
        alloc: Global,
        attempt: AttemptId,
        marks: &mut Listed<Mark>,
    ) -> Result<(), NoMemory>
        ensures marks { OnOk result (marks.new ≡ marks.old
            ++ marks_of (part_list self.old (attempt.user % length self.old.parts)) attempt) }
        ensures unchanged { self.new ≡ self.old }
    {
        let _length = self.len();
        self.school.marks_onto(alloc, attempt, marks)
    }

    /// Answers a request as `ask` does, and tells want of memory apart; then nothing has changed.
    pub fn follow(&mut self, alloc: Global, ask: &Ask, moment: u64) -> Result<(), NoMemory>
        requires { MayBeAsked ask.now moment }
        ensures { OnOk result (self.new ≡ lists_over self.old moment ask.now) }
    {
        let _length = self.len();
        let reply = self.ask(alloc, ask, moment);
        if is_memory(&reply) {
            return Err(NoMemory);
        }
        Ok(())
    }
}

impl Desk for MemorySchool {
    ghost lists = { λ m. m };

    ghost faults = { λ _. 0 };

    ghost takes = { λ moment ask. MayBeAsked ask moment };

    ghost answers = { AskedOnce ⊥ };

    fn ask(&mut self, alloc: Global, ask: &Ask, moment: u64) -> Reply {
        self.school.ask(alloc, ask, moment)
    }
}
