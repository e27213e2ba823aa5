//! Passes are joined, and a school is closed.

ghost use Rattle.std.specs.Prelude.{◌≡◌, ◌+◌, ◌<◌, ◌≤◌, Some, length, reverse, vec_len, vec_capacity};
ghost use Rattle.qz_school.specs.Solos.{IsSolo, school_of};
ghost use Rattle.qz_terms.specs.Catalog as catalog;
ghost use Rattle.qz_turn.specs.Rule.{HasEvery};
ghost use Rattle.qz_visit.specs.Closing.{AllJoin, AreClosed, AreLocked, ArePasses, ArePlaced, Closes, ClosesBefore, HasFounding, HasGrown, HasGrownBy, HaveEach, HaveEvery, HaveGrown, JoinsAll, KeepsAll};
ghost use Rattle.qz_visit.specs.Opening.{half_told, tales};
ghost use Rattle.qz_visit.specs.Visits.{seen_by, seen_in};

use crate::passes::{Passes, Seats};
use crate::school::School;
use qz_catalog::Catalog;
use qz_catalog_turns::Records;
use qz_disks::Keeper;
use qz_shard::Shard;
use qz_shard_turns::Part;
use qz_turn::{Pass, Turns};

/// Joins passes into others, each into the one at its place.
fn join_parts<K: Keeper>(
    parts: &Vec<Turns<Part<K>>>,
    passes: &mut Vec<Pass<Part<K>>>,
    mut others: Vec<Pass<Part<K>>>,
)
    requires own { AreLocked parts.now.items passes.old.items }
    requires others { AreLocked parts.now.items others.items }
    ensures { AllJoin passes.old.items others.items passes.new.items }
{
    while let Some(other) = others.pop() {
        let index = others.len();
        parts[index].join(&mut passes[index], other);
    }
}

/// Closes the locks of the first shards, and joins what they saw of the catalogue into its pass, which has its own turns alone. The other shards
/// stand with the last one first. All shards come back in order, the first ones with what the turns of their passes put.
fn close_parts<K: Keeper>(
    records: &Turns<Records<K>>,
    seen: &mut Pass<Records<K>>,
    mut parts: Vec<Turns<Part<K>>>,
    mut passes: Vec<Pass<Part<K>>>,
    mut shards: Vec<Shard<K>>,
) -> Vec<Shard<K>>
    requires seen { seen.old.lock ≡ records.now.lock }
    requires placed { ArePlaced records.now.lock (length passes.items + length shards.items)
        parts.items }
    requires own { AreLocked parts.items passes.items }
    requires every { HaveEach parts.items passes.items }
    requires room { vec_len parts + vec_len shards ≤ vec_capacity shards }
    ensures closed { ClosesBefore K.faults seen.new.seen.list (seen_by passes.items)
        shards.items result.items }
    ensures grown { HaveGrown parts.items passes.items result.items }
    ensures seen { KeepsAll seen.old seen.new }
    ensures turns { seen.new.turns ≡ seen.old.turns }
{
    while let Some(turns) = parts.pop() {
        let Some(pass) = passes.pop() else {
            unreachable!()
        };
        let (shard, mut note) = turns.close(pass).into_parts();
        // A note has no turns, whatever is known of the one that it is made from.
        let bare = records.note(&mut note);
        records.join(seen, bare);
        shards.push_reserved(shard);
    }
    parts.destroy_empty();
    shards.reverse();
    shards
}

/// The catalogue and the shards in order, of which the first are behind locks. The others stand with the last one first. Nobody put a record
/// behind a lock but the turns of these passes.
pub(crate) fn close_all<K: Keeper>(
    records: Turns<Records<K>>,
    mut seen: Pass<Records<K>>,
    shards: Vec<Shard<K>>,
    parts: Vec<Turns<Part<K>>>,
    passes: Vec<Pass<Part<K>>>,
) -> (Catalog<K>, Vec<Shard<K>>)
    requires seen { seen.lock ≡ records.lock }
    requires numbers { HasEvery records.seats seen.numbers }
    requires placed { ArePlaced records.lock (length passes.items + length shards.items)
        parts.items }
    requires own { AreLocked parts.items passes.items }
    requires every { HaveEach parts.items passes.items }
    requires room { vec_len parts + vec_len shards ≤ vec_capacity shards }
    requires some { 0 < length passes.items + length shards.items }
    requires founded { catalog.shards seen.seen.list ≡ Some (length passes.items + length shards.items) }
    requires left { AreClosed K.faults seen.seen.list (length passes.items + length shards.items)
        (length passes.items) (tales K.faults (reverse shards.items)) (reverse shards.items) }
    ensures closes { Closes K.faults (half_told K.faults seen passes.items shards.items)
        (school_of result.0 result.1.items) }
    ensures solo { IsSolo result.0 result.1.items }
    ensures grown { HasGrown records seen result.0.held.list }
    ensures parts_grown { HaveGrown parts.items passes.items result.1.items }
{
    let shards = close_parts(&records, &mut seen, parts, passes, shards);
    let catalog = records.close(seen).into_catalog();
    (catalog, shards)
}

impl<K: Keeper> School<K> {
    fn join_seats(&self, seats: &mut Seats<K>, other: Seats<K>)
        requires own { ArePasses self.now seats.old }
        requires other { ArePasses self.now other }
        ensures { JoinsAll seats.old other seats.new }
    {
        let Seats { records, parts } = other;
        self.records.join(&mut seats.records, records);
        join_parts(&self.parts, &mut seats.parts, parts);
    }

    /// Adds the numbers of other passes of this school, and what they have seen: of each two lists one begins the other, and the longer is
    /// kept. It takes no memory.
    pub fn join(&self, passes: &mut Passes<K>, other: Passes<K>)
        requires own { ArePasses self.now passes.old.seats }
        requires other { ArePasses self.now other.seats }
        ensures seats { JoinsAll passes.old.seats other.seats passes.new.seats }
        ensures last { passes.new.last ≡ passes.old.last }
    {
        self.join_seats(&mut passes.seats, other.seats);
    }

    fn close_seats(self, seats: Seats<K>) -> (Catalog<K>, Vec<Shard<K>>)
        requires own { ArePasses self seats }
        requires every { HaveEvery self seats }
        requires founded { HasFounding self seats }
        ensures closes { Closes K.faults (seen_in seats) (school_of result.0 result.1.items) }
        ensures solo { IsSolo result.0 result.1.items }
        ensures grown { HasGrownBy self seats (school_of result.0 result.1.items) }
    {
        let School {
            records,
            parts,
            room,
        } = self;
        let Seats {
            records: seen,
            parts: passes,
        } = seats;
        close_all(records, seen, room, parts, passes)
    }

    /// The catalogue and the shards in order, from the passes that have every number. Each list goes on from what they have seen, and has as
    /// many records as when the school was opened and as the turns of its pass put: nobody else put any. It takes no memory.
    pub fn close(self, passes: Passes<K>) -> (Catalog<K>, Vec<Shard<K>>)
        requires own { ArePasses self passes.seats }
        requires every { HaveEvery self passes.seats }
        requires founded { HasFounding self passes.seats }
        ensures closes { Closes K.faults (seen_in passes.seats)
            (school_of result.0 result.1.items) }
        ensures solo { IsSolo result.0 result.1.items }
        ensures grown { HasGrownBy self passes.seats (school_of result.0 result.1.items) }
    {
        self.close_seats(passes.seats)
    }
}
