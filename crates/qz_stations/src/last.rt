//! A school is served and regraded side by side, and regraded once more when all have left.

ghost use Rattle.std.specs.Prelude.{◌≡◌, ◌<◌, ◌≤◌, length, MatchResult};
ghost use Rattle.qz_stations.specs.Passing.{Lasts, ServesNone, ServesSchool};
ghost use Rattle.qz_stations.specs.Stations.{entrance_by, peer_by, serving_by};

use crate::ServeEnd;
use crate::serve::{Crew, serve_doors};
use qz_disks::Keeper;
use qz_links::{Clock, Door};
use qz_regrading::{LoopEnd, Stop, regrade_loop};
use qz_solo::Solo;
use qz_text::NoMemory;
use std::alloc::Global;
use std::sync::Wait;
use std::thread::Threads;

/// Makes the last pass over a school that nobody else asks, by the clock of the first door, where anybody regrades. What it came to.
pub fn regrade_last<K: Keeper, W: Wait, R: Door, C: Clock>(
    rt: &W,
    alloc: Global,
    solo: &mut Solo<K>,
    regraders: u8,
    doors: &mut Vec<(R, C)>,
) -> Option<LoopEnd>
    requires { 0 < length doors.old.items }
    ensures { Lasts C.tells K.sound K.faults regraders solo.old solo.new doors.old.items doors.new.items result }
{
    if regraders == 0 {
        return None;
    }
    let stop = Stop::new(0);
    Some(regrade_loop(rt, alloc, solo, &mut doors[0].1, &stop))
}

/// Serves the first doors over a school, one a worker: side by side, each on a thread of its own, or where none can be started one after the
/// other. Each door is served until `links` links of the crew were taken there, none comes or it fails. So many others regrade beside them, by
/// these clocks, until all doors are served, and once more then. Where there are any, a last pass is made over the school that all have left.
///
/// The school comes back. Each of its lists goes on from what it was, and from all that was seen at each door, and when all have left it is longer
/// by as many records as the requests at the doors and those that regrade put there; and after a last pass that ended with `Done` each job of the
/// catalogue is done in each shard.
///
/// # Errors
///
/// `NoMemory`: memory was short before any door was served. The doors stay as they are, and there is no last pass.
pub fn serve_school<
    K: Keeper + Send + Sync,
    W: Threads + Wait + Sync,
    R: Door + Send,
    C: Clock + Send + Drop,
>(
    rt: &W,
    alloc: Global,
    solo: Solo<K>,
    crew: Crew,
    doors: &mut Vec<(R, C)>,
    clocks: Vec<C>,
) -> (Solo<K>, Result<ServeEnd, NoMemory>)
where
    R::Link: Send,
    requires some { 0 < crew.workers }
    requires doors { crew.workers ≤ length doors.old.items }
    requires clocks { crew.regraders ≤ length clocks.items }
    ensures { MatchResult result.1
        (ServesSchool K.sound K.faults
        (serving_by C.tells (peer_by R.Link.left R.Link.holds R.Link.faults)
        (entrance_by R.left R.returned R.returns R.out R.faults) crew.links)
        crew.workers crew.regraders solo result.0 doors.old.items doors.new.items)
        (λ _. ServesNone K.faults solo result.0 doors.old.items doors.new.items) }
{
    let (mut solo, served) = serve_doors(rt, alloc, solo, crew, doors, clocks);
    let end = match served {
        Ok(end) => end,
        Err(NoMemory) => return (solo, Err(NoMemory)),
    };
    let last = regrade_last(rt, alloc, &mut solo, crew.regraders, doors);
    (solo, Ok(ServeEnd { doors: end, last }))
}
