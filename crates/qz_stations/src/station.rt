//! Places at which a school is asked.

ghost use Rattle.std.specs.Prelude.{◌≡◌};
ghost use Rattle.qz_gather.specs.Clerks.{CountsEach};
ghost use Rattle.qz_gather.specs.Notes.{AreTrueOf};
ghost use Rattle.qz_visit.specs.Visits.{seen_in};
ghost use Rattle.qz_stations.specs.Noting.{none_yet};
ghost use Rattle.qz_stations.specs.Posts.{HasRegraded, IsServed};
ghost use Rattle.qz_stations.specs.Stations.{entrance_by, no_end, notes_at, peer_by, serving_by};

use crate::ends::no_end;
use crate::seat::Seat;
use qz_disks::Keeper;
use qz_doors::DoorEnd;
use qz_gather::Note;
use qz_links::{Clock, Door};
use qz_regrading::Signal;
use qz_text::Listed;
use qz_visit::{Passes, Visit};
use std::alloc::Global;
use std::marker::Model;
use std::sync::Wait;

/// A place, who asks the school there, and how serving ended. A worker's place is a door with its clock, that of one who regrades is a clock.
#[derive(Drop)]
pub(crate) struct Station<'s, 'r, K: Keeper, W: Wait, P> {
    rt: &'r W,
    place: P,
    seat: Seat<'s, 'r, K, W>,
    end: DoorEnd,
}

impl<'s, 'r, K: Keeper, W: Wait, P> Model for Station<'s, 'r, K, W, P> {
    ghost use Rattle.qz_stations.specs.Stations.{Post};

    ghost Value = { Post P };

    ghost use Rattle.qz_stations.specs.Seats.{notes_of, visit_of};

    ghost view = { λ s. record {
      place = s.place;
      visit = visit_of s.seat;
      notes = notes_of s.seat;
      end = s.end;
    } };
}

impl<'s, 'r, K: Keeper, W: Wait, P> Station<'s, 'r, K, W, P> {
    /// A station at a place where nobody was served yet, with a clerk where notes are taken.
    pub(crate) fn new(
        rt: &'r W,
        alloc: Global,
        place: P,
        visit: Visit<'s, 'r, K, W>,
        noting: bool,
    ) -> Station<'s, 'r, K, W, P>
        requires { CountsEach visit }
        ensures { result ≡ record {
          place = place;
          visit = visit.entry;
          notes = none_yet noting;
          end = no_end;
        } }
    {
        Station {
            rt,
            place,
            seat: Seat::new(alloc, visit, noting),
            end: no_end(),
        }
    }

    /// The place, the passes, the notes, and how serving ended. It takes no memory.
    pub(crate) fn into_parts(self, alloc: Global) -> (P, Passes<K>, Listed<Note>, DoorEnd)
        ensures place { result.0 ≡ self.entry.place }
        ensures passes { result.1.seats ≡ self.entry.visit.passes }
        ensures notes { result.2 ≡ notes_at self.entry }
        ensures true_of { AreTrueOf (seen_in result.1.seats) result.2 }
        ensures end { result.3 ≡ self.entry.end }
    {
        let Station {
            rt: _,
            place,
            seat,
            end,
        } = self;
        let (passes, notes) = seat.into_parts(alloc);
        (place, passes, notes, end)
    }
}

/// Serves the door of a station until so many links were taken, none comes or the door fails.
pub(crate) fn serve<K: Keeper, W: Wait, R: Door, C: Clock>(
    station: &mut Station<K, W, (R, C)>,
    alloc: Global,
    links: u32,
)
    ensures { IsServed (serving_by C.tells (peer_by R.Link.left R.Link.holds R.Link.faults)
        (entrance_by R.left R.returned R.returns R.out R.faults) links) station.old station.new }
{
    let (door, clock) = &mut station.place;
    station.end = station.seat.serve(alloc, door, clock, links);
}

/// Makes passes of a worker that regrades until `stop` is seen set, and one more.
pub(crate) fn regrade<K: Keeper, W: Wait, C: Clock, S: Signal>(
    station: &mut Station<K, W, C>,
    alloc: Global,
    stop: &S,
)
    ensures regraded { HasRegraded C.tells station.old station.new }
    ensures stopped { S.seen_set stop.now }
{
    station
        .seat
        .regrade(station.rt, alloc, &mut station.place, stop);
}
