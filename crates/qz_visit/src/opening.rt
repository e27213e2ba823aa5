//! A school is put behind locks.

ghost use Rattle.std.specs.Prelude.{◌≡◌, ◌+◌, ◌≤◌, [], length, reverse, IfOk, IfErr, vec_len, vec_capacity};
ghost use Rattle.qz_terms.specs.declared.limits.TheConstants.{MOST_SHARDS};
ghost use Rattle.qz_keeper.specs.Lists.{EachMayStand};
ghost use Rattle.qz_school.specs.Solos.{AgreeAll, ArePlaced, IsSolo, school_of};
ghost use Rattle.qz_terms.specs.Legal.{AllAgree, IsLegalCatalog};
ghost use Rattle.qz_visit.specs.Closing.{Closes};
ghost use Rattle.qz_visit.specs.Opening.{HalfOpens, IsOpened, Opens, told_by};
ghost use Rattle.qz_visit.specs.Visits.{IsUnasked};

use crate::closing::close_all;
use crate::passes::{Passes, Seats, zeros};
use crate::school::School;
use qz_catalog::Catalog;
use qz_catalog_turns::Records;
use qz_disks::Keeper;
use qz_shard::Shard;
use qz_shard_turns::{Part, Place};
use qz_text::NoMemory;
use qz_turn::{Pass, Turns};
use std::alloc::Global;

/// Puts the shard with this index, of so many, behind a lock that is tied to the catalogue's. Where memory is short it comes back.
fn open_part<K: Keeper>(
    alloc: Global,
    records: &Turns<Records<K>>,
    seen: &mut Pass<Records<K>>,
    shard: Shard<K>,
    index: usize,
    count: usize,
    seats: u32,
) -> Result<(Turns<Part<K>>, Pass<Part<K>>), Shard<K>>
    requires seen { seen.old.lock ≡ records.now.lock }
    requires place { (shard.index ≡ index) × (shard.count ≡ count) }
    requires legal { IsLegalCatalog seen.old.seen.list }
    requires agree { EachMayStand (AllAgree seen.old.seen.list) shard.held }
    ensures opened { IfOk result (λ made. IsOpened K.faults records.now.lock seats count index
        shard made.0 made.1) }
    ensures refused { IfErr result (λ back. back ≡ shard) }
    ensures seen { seen.new ≡ seen.old }
{
    let place = Place::new(records.note(seen), index, count);
    let part = Part::new(shard, records.note(seen));
    match Turns::open(alloc, part, &place, seats) {
        Ok(made) => Ok(made),
        Err((part, NoMemory)) => {
            let (shard, _) = part.into_parts();
            Err(shard)
        }
    }
}

/// Puts shards behind locks, which stand with the last one first. Where memory is short, the others are left.
fn open_parts<K: Keeper>(
    alloc: Global,
    records: &Turns<Records<K>>,
    seen: &mut Pass<Records<K>>,
    shards: &mut Vec<Shard<K>>,
    locks: &mut Vec<Turns<Part<K>>>,
    passes: &mut Vec<Pass<Part<K>>>,
    seats: u32,
) -> Result<(), NoMemory>
    requires seen { seen.old.lock ≡ records.now.lock }
    requires legal { IsLegalCatalog seen.old.seen.list }
    requires placed { ArePlaced (reverse shards.old.items) }
    requires agree { AgreeAll seen.old.seen.list (reverse shards.old.items) }
    requires none { (locks.old.items ≡ []) × (passes.old.items ≡ []) }
    requires room { (vec_len shards.old ≤ vec_capacity locks.old)
        × (vec_len shards.old ≤ vec_capacity passes.old) }
    ensures opened { HalfOpens K.faults records.now.lock seats (reverse shards.old.items)
        shards.new.items locks.new.items passes.new.items }
    ensures all { IfOk result (λ _. shards.new.items ≡ []) }
    ensures room { vec_len locks.new + vec_len shards.new ≤ vec_capacity shards.new }
    ensures seen { seen.new ≡ seen.old }
{
    let count = shards.len();
    while let Some(shard) = shards.pop() {
        match open_part(alloc, records, seen, shard, locks.len(), count, seats) {
            Ok((turns, pass)) => {
                locks.push_reserved(turns);
                passes.push_reserved(pass);
            }
            Err(shard) => {
                shards.push_reserved(shard);
                return Err(NoMemory);
            }
        }
    }
    Ok(())
}

/// Puts a catalogue and its shards behind locks, where there is room for the locks and for their passes.
fn open_all<K: Keeper>(
    alloc: Global,
    catalog: Catalog<K>,
    mut shards: Vec<Shard<K>>,
    mut locks: Vec<Turns<Part<K>>>,
    mut passes: Vec<Pass<Part<K>>>,
    seats: u32,
) -> Result<(School<K>, Seats<K>), (Catalog<K>, Vec<Shard<K>>)>
    requires solo { IsSolo catalog shards.items }
    requires few { length shards.items ≤ MOST_SHARDS }
    requires legal { EachMayStand IsLegalCatalog catalog.held }
    requires none { (locks.items ≡ []) × (passes.items ≡ []) }
    requires room { (vec_len shards ≤ vec_capacity locks) × (vec_len shards ≤ vec_capacity passes) }
    ensures opened { IfOk result (λ made. Opens K.faults seats
        (school_of catalog shards.items) made.0 made.1) }
    ensures refused { IfErr result (λ back. Closes K.faults
        (told_by K.faults (school_of catalog shards.items)) (school_of back.0 back.1.items)) }
    ensures solo { IfErr result (λ back. IsSolo back.0 back.1.items) }
{
    match Turns::open(alloc, Records::new(catalog), &(), seats) {
        Ok((records, mut seen)) => {
            shards.reverse();
            let opened = open_parts(
                alloc,
                &records,
                &mut seen,
                &mut shards,
                &mut locks,
                &mut passes,
                seats,
            );
            match opened {
                Ok(()) => Ok((
                    School {
                        records,
                        parts: locks,
                        room: shards,
                    },
                    Seats {
                        records: seen,
                        parts: passes,
                    },
                )),
                Err(NoMemory) => Err(close_all(records, seen, shards, locks, passes)),
            }
        }
        Err((records, NoMemory)) => {
            locks.destroy_empty();
            Err((records.into_catalog(), shards))
        }
    }
}

impl<K: Keeper> School<K> {
    /// A school behind locks, each with this many seats, and its first passes, which have every number, took no turn and have seen all of it: of
    /// a catalogue and the shards in order that it was founded with, each of which agrees with it. Each lock tells how long its list is now
    /// (`start`). Where memory is short they come back, and each list goes on from what it was.
    pub fn open(
        alloc: Global,
        catalog: Catalog<K>,
        shards: Vec<Shard<K>>,
        seats: u32,
    ) -> Result<(School<K>, Passes<K>), (Catalog<K>, Vec<Shard<K>>)>
        requires { IsSolo catalog shards.items }
        ensures opened { IfOk result (λ made. Opens K.faults seats
            (school_of catalog shards.items) made.0 made.1.seats) }
        ensures unasked { IfOk result (λ made. IsUnasked made.1.seats made.1.last) }
        ensures refused { IfErr result (λ back. Closes K.faults
            (told_by K.faults (school_of catalog shards.items)) (school_of back.0 back.1.items)) }
        ensures solo { IfErr result (λ back. IsSolo back.0 back.1.items) }
    {
        // Whatever a catalogue holds is legal.
        let _records = catalog.len();
        // There are 64 at most.
        let _first = shards[0].len();
        let Ok(counts) = zeros(alloc, shards.len()) else {
            return Err((catalog, shards));
        };
        let Ok(locks) = Vec::with_capacity(alloc, shards.len()) else {
            return Err((catalog, shards));
        };
        let Ok(passes) = Vec::with_capacity(alloc, shards.len()) else {
            locks.destroy_empty();
            return Err((catalog, shards));
        };
        let (school, seats) = open_all(alloc, catalog, shards, locks, passes, seats)?;
        Ok((school, Passes::unasked(seats, counts)))
    }
}
