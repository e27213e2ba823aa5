//! A school that is served by clerks, who note what is asked.

ghost use Rattle.std.specs.Prelude.{◌≡◌, ◌<◌, ◌≤◌, length, IfOk, MatchResult};
ghost use Rattle.qz_visit.specs.Closing.{ArePasses, Closes, HasFounding, HaveEvery};
ghost use Rattle.qz_visit.specs.Visits.{seen_in};
ghost use Rattle.qz_stations.specs.Noting.{ServesNoting};
ghost use Rattle.qz_stations.specs.Passing.{ServesNone};
ghost use Rattle.qz_stations.specs.Stations.{entrance_by, peer_by, serving_by};

use crate::serve::{Crew, serve_beside};
use qz_disks::Keeper;
use qz_doors::DoorEnd;
use qz_gather::Note;
use qz_links::{Clock, Door};
use qz_solo::Solo;
use qz_text::{Listed, NoMemory};
use qz_visit::{Last, Passes, School};
use std::alloc::Global;
use std::sync::Wait;
use std::thread::Threads;

/// A school that was served by clerks, all of whom have left.
#[derive(Drop)]
pub struct Noted<K: Keeper> {
    pub school: School<K>,
    /// They may close the school.
    pub passes: Passes<K>,
    /// How long its lists were before anything was asked.
    pub base: Last,
    /// What each noted, the workers in the order of their doors, and then those that regraded.
    pub books: Vec<Listed<Note>>,
    /// At all doors: the links taken and those that were short, and whether a door failed.
    pub end: DoorEnd,
}

/// How long these lists are, told once more.
fn copy_of_base(base: &Last) -> Result<Last, NoMemory>
    ensures catalog { IfOk result (λ copy. copy.catalog ≡ base.now.catalog) }
    ensures parts { IfOk result (λ copy. copy.parts ≡ base.now.parts) }
{
    Ok(Last {
        catalog: base.catalog,
        parts: Listed {
            items: base.parts.items.clone()?,
        },
        list: None,
        put: false,
        doubt: false,
    })
}

/// The school that all have left.
fn closed<K: Keeper>(school: School<K>, passes: Passes<K>) -> Solo<K>
    requires own { ArePasses school passes.seats }
    requires every { HaveEvery school passes.seats }
    requires founded { HasFounding school passes.seats }
    ensures { Closes K.faults (seen_in passes.seats) result }
{
    let (catalog, shards) = school.close(passes);
    Solo::of(catalog, shards)
}

/// Serves the first doors over a school as `serve_school` does, one a worker, while others regrade: each by a clerk, who notes what is asked.
/// The school stays open. Each note is true of what the passes have seen.
///
/// # Errors
///
/// The school comes back where memory was short before any door was served. The doors stay as they are.
pub fn serve_noting<
    K: Keeper + Send + Sync,
    W: Threads + Wait + Sync,
    R: Door + Send,
    C: Clock + Send + Drop,
>(
    rt: &W,
    alloc: Global,
    solo: Solo<K>,
    crew: Crew,
    doors: &mut Vec<(R, C)>,
    clocks: Vec<C>,
) -> Result<Noted<K>, Solo<K>>
where
    R::Link: Send,
    requires doors { crew.workers ≤ length doors.old.items }
    requires clocks { crew.regraders ≤ length clocks.items }
    ensures { MatchResult result
        (λ noted. ServesNoting K.faults
        (serving_by C.tells (peer_by R.Link.left R.Link.holds R.Link.faults)
        (entrance_by R.left R.returned R.returns R.out R.faults) crew.links)
        crew.workers crew.regraders solo noted.school noted.passes.seats noted.base
        doors.old.items doors.new.items noted.end noted.books.items)
        (λ back. ServesNone K.faults solo back doors.old.items doors.new.items) }
{
    let seats = u32::from(crew.workers) + u32::from(crew.regraders);
    let (catalog, shards) = solo.into_parts();
    match School::open(alloc, catalog, shards, seats) {
        Ok((school, passes)) => {
            let Ok(base) = copy_of_base(passes.last()) else {
                return Err(closed(school, passes));
            };
            let (passes, served) = serve_beside(
                rt, alloc, &school, passes, crew, true, doors, clocks,
            );
            match served {
                Ok((end, books)) => Ok(Noted {
                    school,
                    passes,
                    base,
                    books,
                    end,
                }),
                Err(NoMemory) => Err(closed(school, passes)),
            }
        }
        Err((catalog, shards)) => Err(Solo::of(catalog, shards)),
    }
}
