//! Who sits at a station.

ghost use Rattle.std.specs.Prelude.{◌≡◌, [], unwrap_or};
ghost use Rattle.qz_gather.specs.Clerks.{CountsEach};
ghost use Rattle.qz_gather.specs.Notes.{AreTrueOf};
ghost use Rattle.qz_visit.specs.Visits.{seen_in};
ghost use Rattle.qz_stations.specs.Noting.{none_yet};
ghost use Rattle.qz_stations.specs.Posts.{HasRegraded, IsServed};
ghost use Rattle.qz_stations.specs.Seats.{notes_of, visit_of};
ghost use Rattle.qz_stations.specs.Stations.{entrance_by, no_end, peer_by, serving_by};

use qz_disks::Keeper;
use qz_doors::{DoorEnd, serve_door};
use qz_gather::{Book, Clerk, Note};
use qz_links::{Clock, Door};
use qz_regrading::{Signal, regrade_loop};
use qz_text::Listed;
use qz_visit::{Passes, Visit};
use std::alloc::Global;
use std::sync::Wait;

/// One who asks a school: a clerk notes what is asked, a visit doesn't.
#[derive(Drop)]
pub(crate) enum Seat<'s, 'r, K: Keeper, W: Wait> {
    Visit(Visit<'s, 'r, K, W>),
    Clerk(Clerk<'s, 'r, K, W>),
}

impl<'s, 'r, K: Keeper, W: Wait> Seat<'s, 'r, K, W> {
    /// Seats a visit, as a clerk where notes are taken. It takes no memory.
    pub(crate) fn new(alloc: Global, visit: Visit<'s, 'r, K, W>, noting: bool) -> Seat<'s, 'r, K, W>
        requires { CountsEach visit }
        ensures visit { visit_of result ≡ visit.entry }
        ensures notes { notes_of result ≡ none_yet noting }
    {
        if noting {
            Seat::Clerk(Clerk::new(alloc, visit))
        } else {
            Seat::Visit(visit)
        }
    }

    /// The passes and the notes, which are true of what the passes have seen. It takes no memory.
    pub(crate) fn into_parts(self, alloc: Global) -> (Passes<K>, Listed<Note>)
        ensures passes { result.0.seats ≡ (visit_of self.entry).passes }
        ensures notes { result.1 ≡ unwrap_or (notes_of self.entry) [] }
        ensures true_of { AreTrueOf (seen_in result.0.seats) result.1 }
    {
        match self {
            Seat::Visit(visit) => (visit.into_passes(), Listed::empty(alloc)),
            Seat::Clerk(clerk) => {
                let Book { passes, notes } = clerk.into_book();
                (passes, notes)
            }
        }
    }

    /// Serves a door until so many links were taken, none comes or the door fails.
    pub(crate) fn serve<R: Door, C: Clock>(
        &mut self,
        alloc: Global,
        door: &mut R,
        clock: &mut C,
        links: u32,
    ) -> DoorEnd
        ensures { IsServed (serving_by C.tells (peer_by R.Link.left R.Link.holds R.Link.faults)
            (entrance_by R.left R.returned R.returns R.out R.faults) links)
            (record { place = (door.old, clock.old); visit = visit_of self.old; notes = notes_of self.old; end = no_end })
            (record { place = (door.new, clock.new); visit = visit_of self.new; notes = notes_of self.new; end = result }) }
    {
        match self {
            Seat::Visit(visit) => serve_door(alloc, visit, door, clock, u64::from(links)),
            Seat::Clerk(clerk) => serve_door(alloc, clerk, door, clock, u64::from(links)),
        }
    }

    /// Makes passes of a worker that regrades until `stop` is seen set, and one more.
    pub(crate) fn regrade<C: Clock, S: Signal>(
        &mut self,
        rt: &W,
        alloc: Global,
        clock: &mut C,
        stop: &S,
    )
        ensures regraded { HasRegraded C.tells
            (record { place = clock.old; visit = visit_of self.old; notes = notes_of self.old; end = no_end })
            (record { place = clock.new; visit = visit_of self.new; notes = notes_of self.new; end = no_end }) }
        ensures stopped { S.seen_set stop.now }
    {
        match self {
            Seat::Visit(visit) => regrade_loop(rt, alloc, visit, clock, stop),
            Seat::Clerk(clerk) => regrade_loop(rt, alloc, clerk, clock, stop),
        };
    }
}
