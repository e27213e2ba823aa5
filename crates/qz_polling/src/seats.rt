//! Visitors of a school take their seats, and leave them.

ghost use Rattle.std.specs.Prelude.{◌≡◌, ◌≤◌, [], length, map, IfOk, vec_len, vec_capacity};
ghost use Rattle.qz_polling.specs.Polling.{HaveSeats, post_of, visitor_passes};
ghost use Rattle.qz_stations.specs.Posts.{AreManned, HoldTheirs, PutsAlso, TakesIn};
ghost use Rattle.qz_stations.specs.Stations.{AreUnturned};
ghost use Rattle.qz_visit.specs.Visits.{seen_in};

use qz_disks::Keeper;
use qz_text::NoMemory;
use qz_visit::{Passes, School, Visit};
use std::alloc::Global;
use std::collections::VecDeque;
use std::sync::Wait;

/// A visitor with passes of its own for each of these clocks. Where memory is short some stand already.
pub(crate) fn take_seats<'s, 'r, K: Keeper, W: Wait, C: Drop>(
    rt: &'r W,
    alloc: Global,
    school: &'s School<K>,
    passes: &mut Passes<K>,
    clocks: Vec<C>,
    desks: &mut Vec<(Visit<'s, 'r, K, W>, C)>,
) -> Result<(), NoMemory>
    requires own { HoldTheirs school.now passes.old.seats }
    requires unturned { AreUnturned passes.old.seats }
    requires enough { length clocks.items ≤ length passes.old.seats.records.numbers }
    requires none { desks.old.items ≡ [] }
    requires room { vec_len clocks ≤ vec_capacity desks.old }
    ensures seated { HaveSeats school.now (seen_in passes.old.seats)
        passes.old.seats.records.numbers clocks.items passes.new.seats desks.new.items }
    ensures all { IfOk result (λ _. length desks.new.items ≡ length clocks.items) }
{
    let mut rest = VecDeque::from_vec(clocks);
    while let Some(clock) = rest.pop_front() {
        let given = school.split(alloc, passes)?;
        desks.push_reserved((Visit::new(school, rt, given), clock));
    }
    Ok(())
}

/// Joins the passes of all visitors into these.
pub(crate) fn leave_seats<K: Keeper, W: Wait, C: Drop>(
    school: &School<K>,
    passes: &mut Passes<K>,
    mut desks: Vec<(Visit<K, W>, C)>,
)
    requires manned { AreManned school.now passes.old.seats (map post_of desks.items) }
    ensures passes { TakesIn school.now passes.old.seats passes.new.seats
        (map post_of desks.entry.items) }
    ensures put { PutsAlso passes.old.seats passes.new.seats
        (map visitor_passes desks.entry.items) }
{
    while let Some(desk) = desks.pop() {
        school.join(passes, desk.0.into_passes());
    }
}
