//! The links of a door are served over a school.

ghost use Rattle.std.specs.Prelude.{◌≡◌, ◌^◌, ◌<◌, ◌≤◌, length, MatchResult};
ghost use Rattle.qz_polling.specs.Polling.{VisitorsServe, served_of};
ghost use Rattle.qz_ready_doors.specs.Halls.{entrance_by};
ghost use Rattle.qz_ready_doors.specs.Kept.{peer_of};
ghost use Rattle.qz_stations.specs.Posts.{HoldsEvery, PutsAlso};
ghost use Rattle.qz_stations.specs.Stations.{AreUnturned, GrowsWith};
ghost use Rattle.qz_visit.specs.Closing.{Closes};
ghost use Rattle.qz_visit.specs.Opening.{told_by};
ghost use Rattle.qz_visit.specs.Seeing.{FollowAll};
ghost use Rattle.qz_visit.specs.Visits.{seen_in};

use crate::seats::{leave_seats, take_seats};
use qz_disks::Keeper;
use qz_links::Clock;
use qz_ready::ReadyDoor;
use qz_ready_doors::{PollEnd, PollWhy, Watch, serve_ready};
use qz_served::Served;
use qz_solo::Solo;
use qz_text::NoMemory;
use qz_visit::{Passes, School};
use std::alloc::{AllocGlobal, Global};
use std::random::RandomSource;
use std::sync::Wait;

/// How serving a door ended, as it is said: the links taken, whether the door failed, and whether memory was wanting for a link or for the run.
fn served_of(taken: u64, short: u64, why: PollWhy) -> Served
    ensures { result ≡ served_of taken short why }
{
    Served {
        taken,
        fault: why == PollWhy::DoorFault,
        short: short > 0 || why == PollWhy::Memory,
    }
}

/// Serves a door for visitors of a school, one a clock, whose passes are joined again. Where memory is short no link is taken.
fn poll_seats<R, W, K, P, C>(
    rt: &R,
    watch: &mut W,
    alloc: Global,
    school: &School<K>,
    mut passes: Passes<K>,
    links: u32,
    door: &mut P,
    clocks: Vec<C>,
) -> (Passes<K>, Result<Served, NoMemory>)
where
    R: Wait + RandomSource + AllocGlobal,
    W: Watch,
    K: Keeper,
    P: ReadyDoor<Link: Drop>,
    C: Clock + Drop,
    requires every { HoldsEvery school.now passes.seats }
    requires unturned { AreUnturned passes.seats }
    requires enough { length clocks.items ≤ length passes.seats.records.numbers }
    requires few { length clocks.items < 2 ^ 32 }
    ensures every { HoldsEvery school.now result.0.seats }
    ensures follows { FollowAll (seen_in passes.seats) (seen_in result.0.seats) }
    ensures served { MatchResult result.1
        (VisitorsServe C.tells (peer_of P.Link.ReadyLink) links clocks.items
        (entrance_by P.left P.returned P.returns P.out P.faults door.old)
        (entrance_by P.left P.returned P.returns P.out P.faults door.new)
        (seen_in passes.seats) (λ seen. FollowAll seen (seen_in result.0.seats))
        (PutsAlso passes.seats result.0.seats))
        (λ _. door.new ≡ door.old) }
{
    let Ok(mut desks) = Vec::with_capacity(alloc, clocks.len()) else {
        return (passes, Err(NoMemory));
    };
    if let Err(NoMemory) = take_seats(rt, alloc, school, &mut passes, clocks, &mut desks) {
        leave_seats(school, &mut passes, desks);
        return (passes, Err(NoMemory));
    }
    let PollEnd {
        links: taken,
        short,
        desks,
        why,
    } = serve_ready(rt, watch, desks, door, u64::from(links));
    leave_seats(school, &mut passes, desks);
    (passes, Ok(served_of(taken, short, why)))
}

/// Serves the links of a door over a school by one visitor a clock: at most as many links are open at once. Each list of the school that comes
/// back goes on from what it was, and from all that any visitor saw of it, and is longer by as many records as the visitors' requests put there.
///
/// # Errors
///
/// `NoMemory`: memory was short before any link was taken. The door stays as it is.
pub fn poll_school<R, W, K, P, C>(
    rt: &R,
    watch: &mut W,
    alloc: Global,
    solo: Solo<K>,
    links: u32,
    door: &mut P,
    clocks: Vec<C>,
) -> (Solo<K>, Result<Served, NoMemory>)
where
    R: Wait + RandomSource + AllocGlobal,
    W: Watch,
    K: Keeper,
    P: ReadyDoor<Link: Drop>,
    C: Clock + Drop,
    requires few { length clocks.items < 2 ^ 32 }
    ensures closes { Closes K.faults (told_by K.faults solo) result.0 }
    ensures served { MatchResult result.1
        (VisitorsServe C.tells (peer_of P.Link.ReadyLink) links clocks.items
        (entrance_by P.left P.returned P.returns P.out P.faults door.old)
        (entrance_by P.left P.returned P.returns P.out P.faults door.new)
        (told_by K.faults solo) (λ seen. Closes K.faults seen result.0)
        (λ passes. GrowsWith passes solo result.0))
        (λ _. door.new ≡ door.old) }
{
    let seats = clocks.len() as u32;
    let (catalog, shards) = solo.into_parts();
    match School::open(alloc, catalog, shards, seats) {
        Ok((school, passes)) => {
            let (passes, served) = poll_seats(
                rt, watch, alloc, &school, passes, links, door, clocks,
            );
            let (catalog, shards) = school.close(passes);
            (Solo::of(catalog, shards), served)
        }
        Err((catalog, shards)) => (Solo::of(catalog, shards), Err(NoMemory)),
    }
}
