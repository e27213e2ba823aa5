//! Stations are taken up and left.

ghost use Rattle.std.specs.Prelude.{◌≡◌, ◌+◌, ◌≤◌, ◌++◌, [], length, map, IfOk, vec_len, vec_capacity};
ghost use Rattle.qz_visit.specs.Visits.{seen_in};
ghost use Rattle.qz_stations.specs.Posts.{AreManned, AreUnnoted, HoldTheirs, NoneTurned, NoteTruly, PutsAlso, TakesIn, TakesUp, passes_of};
ghost use Rattle.qz_stations.specs.Stations.{AreUnturned, all_ends, at_place, notes_at};

use crate::ends::{both_ends, no_end};
use crate::station::Station;
use qz_disks::Keeper;
use qz_doors::DoorEnd;
use qz_gather::Note;
use qz_text::{Listed, NoMemory};
use qz_visit::{Passes, School, Visit};
use std::alloc::Global;
use std::sync::Wait;

/// Puts a station at each of the first places, so many, with passes of its own, and with a clerk where notes are taken. Where memory is short
/// some stand already.
pub(crate) fn take_up<'s, 'r, K: Keeper, W: Wait, P>(
    rt: &'r W,
    alloc: Global,
    school: &'s School<K>,
    passes: &mut Passes<K>,
    count: usize,
    noting: bool,
    places: &mut Vec<P>,
    stations: &mut Vec<Station<'s, 'r, K, W, P>>,
) -> Result<(), NoMemory>
    requires own { HoldTheirs school.now passes.old.seats }
    requires unturned { AreUnturned passes.old.seats }
    requires enough { count ≤ length passes.old.seats.records.numbers }
    requires places { count ≤ length places.old.items }
    requires none { stations.old.items ≡ [] }
    requires room { count ≤ vec_capacity stations.old }
    ensures taken { TakesUp school.now (seen_in passes.old.seats) passes.old.seats.records.numbers
        places.old.items places.new.items passes.new.seats stations.new.items }
    ensures unturned { NoneTurned passes.new.seats stations.new.items }
    ensures unnoted { AreUnnoted noting stations.new.items }
    ensures few { length stations.new.items ≤ count }
    ensures all { IfOk result (λ _. length stations.new.items ≡ count) }
    ensures room { length stations.new.items + vec_len places.new ≤ vec_capacity places.new }
{
    for _ in 0..count {
        let given = school.split(alloc, passes)?;
        let at = places.remove(0);
        stations.push_reserved(Station::new(rt, alloc, at, Visit::new(school, rt, given), noting));
    }
    Ok(())
}

/// Gives the places of stations back, and joins their passes. The notes of each come behind the others, in order. How serving ended at all of
/// them.
pub(crate) fn leave<K: Keeper, W: Wait, P>(
    alloc: Global,
    school: &School<K>,
    passes: &mut Passes<K>,
    mut stations: Vec<Station<K, W, P>>,
    places: &mut Vec<P>,
    books: &mut Vec<Listed<Note>>,
) -> DoorEnd
    requires manned { AreManned school.now passes.old.seats stations.items }
    requires room { length stations.items + vec_len places.old ≤ vec_capacity places.old }
    requires shelf { length stations.items + vec_len books.old ≤ vec_capacity books.old }
    ensures places { places.new.items ≡ map at_place stations.entry.items ++ places.old.items }
    ensures end { result ≡ all_ends (map (λ p. p.end) stations.entry.items) }
    ensures passes { TakesIn school.now passes.old.seats passes.new.seats
        stations.entry.items }
    ensures put { PutsAlso passes.old.seats passes.new.seats
        (map passes_of stations.entry.items) }
    ensures last { passes.new.last ≡ passes.old.last }
    ensures books { books.new.items ≡ books.old.items ++ map notes_at stations.entry.items }
    ensures true_of { NoteTruly stations.entry.items }
    ensures shelf { vec_capacity books.old ≤ vec_capacity books.new }
{
    let behind = books.len();
    let mut end = no_end();
    while let Some(station) = stations.pop() {
        let (at, given, notes, last) = station.into_parts(alloc);
        match places.insert(0, at) {
            Ok(()) => {}
            Err(_) => unreachable!(),
        }
        match books.insert(behind, notes) {
            Ok(()) => {}
            Err(_) => unreachable!(),
        }
        school.join(passes, given);
        end = both_ends(last, end);
    }
    stations.destroy_empty();
    end
}
