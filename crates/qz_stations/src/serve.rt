//! The doors of a school are served side by side, while others regrade.

ghost use Rattle.std.specs.Prelude.{◌≡◌, ◌+◌, ◌^◌, ◌<◌, ◌≤◌, true, [], length, IfOk, MatchResult, vec_len, vec_capacity};
ghost use Rattle.qz_visit.specs.Closing.{Closes};
ghost use Rattle.qz_visit.specs.Opening.{told_by};
ghost use Rattle.qz_visit.specs.Seeing.{FollowAll};
ghost use Rattle.qz_visit.specs.Visits.{seen_in};
ghost use Rattle.qz_stations.specs.Noting.{AreBooksOf, NotesBeside, NotesWorks};
ghost use Rattle.qz_stations.specs.Posts.{AreAmong, AreEach, HasGoneOn, HasRegraded, HoldTheirs, HoldsEvery, IsServed, PutsAlso, ServesFirst};
ghost use Rattle.qz_stations.specs.Stations.{AreUnturned, GrowsWith, ServesCrew, end_of, entrance_by, peer_by, serving_by};

use crate::sides::at_both;
use crate::station::{Station, regrade, serve};
use crate::turns::{leave, take_up};
use qz_disks::Keeper;
use qz_doors::DoorEnd;
use qz_gather::Note;
use qz_links::{Clock, Door};
use qz_regrading::Stop;
use qz_solo::Solo;
use qz_text::{Listed, NoMemory};
use qz_visit::{Passes, School};
use std::alloc::Global;
use std::sync::Wait;
use std::thread::Threads;

/// Who serves a school.
#[derive(Clone, Copy)]
pub struct Crew {
    /// So many workers, each at a door of its own.
    pub workers: u8,
    /// Each takes so many links at most.
    pub links: u32,
    /// So many regrade beside them.
    pub regraders: u8,
}

/// Serves each station, while those that regrade make passes until all of them are served. Each is on a thread of its own, or where none can be
/// started one comes after the other, those that regrade last.
fn serve_all<
    K: Keeper + Send + Sync,
    W: Threads + Wait + Sync,
    R: Door + Send,
    C: Clock + Send + Drop,
>(
    rt: &W,
    alloc: Global,
    links: u32,
    stations: &mut [Station<K, W, (R, C)>],
    regraders: &mut [Station<K, W, C>],
)
where
    R::Link: Send,
    requires { length stations.old < 2 ^ 32 }
    ensures served { AreEach (IsServed
        (serving_by C.tells (peer_by R.Link.left R.Link.holds R.Link.faults)
        (entrance_by R.left R.returned R.returns R.out R.faults) links)) stations.old stations.new }
    ensures regraded { AreEach (HasRegraded C.tells) regraders.old regraders.new }
{
    let stop = Stop::new(stations.len() as u32);
    at_both(
        rt,
        stations,
        &|_: usize, station: &mut Station<K, W, (R, C)>|
            ensures { IsServed (serving_by C.tells (peer_by R.Link.left R.Link.holds R.Link.faults)
                (entrance_by R.left R.returned R.returns R.out R.faults) links)
                station.entry.now station.exit.now }
        {
            serve(station, alloc, links);
            stop.leave();
        },
        regraders,
        &|_: usize, station: &mut Station<K, W, C>|
            ensures { HasRegraded C.tells station.entry.now station.exit.now }
        { regrade(station, alloc, &stop) },
    );
}

/// Serves the first doors over a school, so many, each for passes of its own, which are joined again, while the others regrade. What is noted
/// at each comes into a book at its place. Where memory is short no door is served.
fn serve_first<
    K: Keeper + Send + Sync,
    W: Threads + Wait + Sync,
    R: Door + Send,
    C: Clock + Send + Drop,
>(
    rt: &W,
    alloc: Global,
    school: &School<K>,
    passes: &mut Passes<K>,
    crew: Crew,
    noting: bool,
    doors: &mut Vec<(R, C)>,
    regraders: &mut [Station<K, W, C>],
    books: &mut Vec<Listed<Note>>,
) -> Result<DoorEnd, NoMemory>
where
    R::Link: Send,
    requires own { HoldTheirs school.now passes.old.seats }
    requires unturned { AreUnturned passes.old.seats }
    requires enough { crew.workers ≤ length passes.old.seats.records.numbers }
    requires doors { crew.workers ≤ length doors.old.items }
    requires none { books.old.items ≡ [] }
    requires shelf { crew.workers ≤ vec_capacity books.old }
    ensures own { HoldTheirs school.now passes.new.seats }
    ensures kept { AreAmong passes.old.seats.records.numbers passes.new.seats.records.numbers }
    ensures follows { FollowAll (seen_in passes.old.seats) (seen_in passes.new.seats) }
    ensures served { MatchResult result
        (ServesFirst (serving_by C.tells (peer_by R.Link.left R.Link.holds R.Link.faults)
        (entrance_by R.left R.returned R.returns R.out R.faults) crew.links)
        passes.old.seats passes.new.seats crew.workers doors.old.items doors.new.items)
        (λ _. doors.new.items ≡ doors.old.items) }
    ensures gone_on { AreEach HasGoneOn regraders.old regraders.new }
    ensures regraded { IfOk result
        (λ _. AreEach (HasRegraded C.tells) regraders.old regraders.new) }
    ensures noted { noting ≡ true → IfOk result
        (λ end. NotesBeside (serving_by C.tells (peer_by R.Link.left R.Link.holds R.Link.faults)
        (entrance_by R.left R.returned R.returns R.out R.faults) crew.links)
        (seen_in passes.old.seats) (λ seen. FollowAll seen (seen_in passes.new.seats))
        crew.workers doors.old.items doors.new.items end books.new.items) }
    ensures books { AreBooksOf (seen_in passes.new.seats) books.new.items }
    ensures few { length books.new.items ≤ crew.workers }
    ensures many { IfOk result (λ _. length books.new.items ≡ crew.workers) }
    ensures shelf { vec_capacity books.old ≤ vec_capacity books.new }
{
    let count = usize::from(crew.workers);
    let Ok(mut stations) = Vec::with_capacity(alloc, count) else {
        return Err(NoMemory);
    };
    if let Err(NoMemory) = take_up(
        rt,
        alloc,
        school,
        passes,
        count,
        noting,
        doors,
        &mut stations,
    ) {
        leave(alloc, school, passes, stations, doors, books);
        return Err(NoMemory);
    }
    serve_all(rt, alloc, crew.links, &mut stations, regraders);
    let end = leave(alloc, school, passes, stations, doors, books);
    Ok(end)
}

/// The same with passes for those that regrade, which are joined again too. What each of them noted comes into a book behind those of the
/// doors.
pub(crate) fn serve_beside<
    K: Keeper + Send + Sync,
    W: Threads + Wait + Sync,
    R: Door + Send,
    C: Clock + Send + Drop,
>(
    rt: &W,
    alloc: Global,
    school: &School<K>,
    mut passes: Passes<K>,
    crew: Crew,
    noting: bool,
    doors: &mut Vec<(R, C)>,
    mut clocks: Vec<C>,
) -> (Passes<K>, Result<(DoorEnd, Vec<Listed<Note>>), NoMemory>)
where
    R::Link: Send,
    requires every { HoldsEvery school.now passes.seats }
    requires unturned { AreUnturned passes.seats }
    requires enough { crew.workers + crew.regraders ≤ length passes.seats.records.numbers }
    requires doors { crew.workers ≤ length doors.old.items }
    requires clocks { crew.regraders ≤ length clocks.items }
    ensures every { HoldsEvery school.now result.0.seats }
    ensures follows { FollowAll (seen_in passes.seats) (seen_in result.0.seats) }
    ensures served { MatchResult result.1
        (λ sat. ServesCrew (serving_by C.tells (peer_by R.Link.left R.Link.holds R.Link.faults)
        (entrance_by R.left R.returned R.returns R.out R.faults) crew.links)
        (seen_in passes.seats) (λ seen. FollowAll seen (seen_in result.0.seats))
        (PutsAlso passes.seats result.0.seats)
        crew.workers crew.regraders doors.old.items doors.new.items sat.0)
        (λ _. doors.new.items ≡ doors.old.items) }
    ensures noted { noting ≡ true → IfOk result.1
        (λ sat. NotesBeside (serving_by C.tells (peer_by R.Link.left R.Link.holds R.Link.faults)
        (entrance_by R.left R.returned R.returns R.out R.faults) crew.links)
        (seen_in passes.seats) (λ seen. FollowAll seen (seen_in result.0.seats))
        crew.workers doors.old.items doors.new.items sat.0 sat.1.items) }
    ensures worked { noting ≡ true → IfOk result.1
        (λ sat. NotesWorks C.tells (seen_in passes.seats)
        (λ seen. FollowAll seen (seen_in result.0.seats))
        crew.workers crew.regraders sat.1.items) }
    ensures books { IfOk result.1 (λ sat. AreBooksOf (seen_in result.0.seats) sat.1.items) }
    ensures many { IfOk result.1 (λ sat. length sat.1.items ≡ crew.workers + crew.regraders) }
{
    let count = usize::from(crew.regraders);
    let Ok(mut books) = Vec::with_capacity(alloc, usize::from(crew.workers) + count) else {
        return (passes, Err(NoMemory));
    };
    let Ok(mut stations) = Vec::with_capacity(alloc, count) else {
        return (passes, Err(NoMemory));
    };
    if let Err(NoMemory) = take_up(
        rt,
        alloc,
        school,
        &mut passes,
        count,
        noting,
        &mut clocks,
        &mut stations,
    ) {
        leave(
            alloc,
            school,
            &mut passes,
            stations,
            &mut clocks,
            &mut books,
        );
        return (passes, Err(NoMemory));
    }
    let served = serve_first(
        rt,
        alloc,
        school,
        &mut passes,
        crew,
        noting,
        doors,
        &mut stations,
        &mut books,
    );
    leave(
        alloc,
        school,
        &mut passes,
        stations,
        &mut clocks,
        &mut books,
    );
    match served {
        Ok(end) => (passes, Ok((end, books))),
        Err(NoMemory) => (passes, Err(NoMemory)),
    }
}

/// How serving ended, without what was noted.
fn end_of(served: Result<(DoorEnd, Vec<Listed<Note>>), NoMemory>) -> Result<DoorEnd, NoMemory>
    ensures { result ≡ end_of served }
{
    match served {
        Ok((end, _)) => Ok(end),
        Err(why) => Err(why),
    }
}

/// Serves the first doors over a school, one a worker, side by side, while others regrade by clocks of their own. The school comes back: each of
/// its lists goes on from what it was, and from all that was seen at each door, and is longer by what was put there and by those that regrade.
/// Where memory is short before any door is served, the doors stay as they are.
pub(crate) fn serve_doors<
    K: Keeper + Send + Sync,
    W: Threads + Wait + Sync,
    R: Door + Send,
    C: Clock + Send + Drop,
>(
    rt: &W,
    alloc: Global,
    solo: Solo<K>,
    crew: Crew,
    doors: &mut Vec<(R, C)>,
    clocks: Vec<C>,
) -> (Solo<K>, Result<DoorEnd, NoMemory>)
where
    R::Link: Send,
    requires doors { crew.workers ≤ length doors.old.items }
    requires clocks { crew.regraders ≤ length clocks.items }
    ensures closes { Closes K.faults (told_by K.faults solo) result.0 }
    ensures served { MatchResult result.1
        (ServesCrew (serving_by C.tells (peer_by R.Link.left R.Link.holds R.Link.faults)
        (entrance_by R.left R.returned R.returns R.out R.faults) crew.links)
        (told_by K.faults solo) (λ seen. Closes K.faults seen result.0)
        (λ passes. GrowsWith passes solo result.0)
        crew.workers crew.regraders doors.old.items doors.new.items)
        (λ _. doors.new.items ≡ doors.old.items) }
{
    let seats = u32::from(crew.workers) + u32::from(crew.regraders);
    let (catalog, shards) = solo.into_parts();
    match School::open(alloc, catalog, shards, seats) {
        Ok((school, passes)) => {
            let (passes, served) = serve_beside(
                rt, alloc, &school, passes, crew, false, doors, clocks,
            );
            let (catalog, shards) = school.close(passes);
            (Solo::of(catalog, shards), end_of(served))
        }
        Err((catalog, shards)) => (Solo::of(catalog, shards), Err(NoMemory)),
    }
}
