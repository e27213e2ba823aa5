//! Passes are split.

ghost use Rattle.std.specs.Prelude.{◌≡◌, ◌≤◌, [], map, IfOk, IfErr, vec_len, vec_capacity};
ghost use Rattle.qz_turn.specs.Turns.{left_of, split_off};
ghost use Rattle.qz_visit.specs.Closing.{AreLocked, ArePasses};
ghost use Rattle.qz_visit.specs.Opening.{Splits};
ghost use Rattle.qz_visit.specs.Visits.{IsUnasked};

use crate::passes::{Passes, Seats, zeros};
use crate::school::School;
use qz_disks::Keeper;
use qz_shard_turns::Part;
use qz_text::NoMemory;
use qz_turn::{Pass, Turns};
use std::alloc::Global;

/// Gives each pass's first number to a new one, in order.
fn split_parts<K: Keeper>(
    parts: &Vec<Turns<Part<K>>>,
    passes: &mut Vec<Pass<Part<K>>>,
    mut given: Vec<Pass<Part<K>>>,
) -> Vec<Pass<Part<K>>>
    requires own { AreLocked parts.now.items passes.old.items }
    requires none { given.items ≡ [] }
    requires room { vec_len passes.old ≤ vec_capacity given }
    ensures left { passes.new.items ≡ map left_of passes.old.items }
    ensures given { result.items ≡ map split_off passes.old.items }
{
    for index in 0..passes.len() {
        given.push_reserved(parts[index].split(&mut passes[index]));
    }
    given
}

impl<K: Keeper> School<K> {
    fn split_seats(&self, alloc: Global, seats: &mut Seats<K>) -> Result<Seats<K>, NoMemory>
        requires own { ArePasses self.now seats.old }
        ensures given { IfOk result (λ given. Splits seats.old seats.new given) }
        ensures kept { IfErr result (λ _. seats.new ≡ seats.old) }
    {
        let room = Vec::with_capacity(alloc, seats.parts.len())?;
        let parts = split_parts(&self.parts, &mut seats.parts, room);
        let records = self.records.split(&mut seats.records);
        Ok(Seats { records, parts })
    }

    /// Gives the first number of each of these passes to new ones, which have seen the same, and by which nothing was asked yet. Where memory
    /// is short nothing is given.
    pub fn split(&self, alloc: Global, passes: &mut Passes<K>) -> Result<Passes<K>, NoMemory>
        requires own { ArePasses self.now passes.old.seats }
        ensures given { IfOk result (λ given.
            Splits passes.old.seats passes.new.seats given.seats) }
        ensures unasked { IfOk result (λ given. IsUnasked given.seats given.last) }
        ensures kept { IfErr result (λ _. passes.new ≡ passes.old) }
        ensures last { passes.new.last ≡ passes.old.last }
    {
        let counts = zeros(alloc, passes.seats.parts.len())?;
        let given = self.split_seats(alloc, &mut passes.seats)?;
        Ok(Passes::unasked(given, counts))
    }
}
