//! A school is served by clerks, and what they noted is gathered.

ghost use Rattle.std.specs.Prelude.{◌≡◌, ◌<◌, ◌≤◌, length, MatchResult};
ghost use Rattle.qz_audit.specs.Audits.{Audits, found_of};
ghost use Rattle.qz_stations.specs.Passing.{ServesNone};
ghost use Rattle.qz_stations.specs.Stations.{entrance_by, peer_by, serving_by};

use crate::counting::count_records;
use qz_disks::Keeper;
use qz_doors::DoorEnd;
use qz_gather::Note;
use qz_gathering::{GatherFault, gather};
use qz_links::{Clock, Door};
use qz_regrading::LoopEnd;
use qz_solo::Solo;
use qz_stations::{Crew, Noted, regrade_last, serve_noting};
use qz_text::{Listed, NoMemory};
use std::alloc::Global;
use std::sync::Wait;
use std::thread::Threads;

/// How auditing a school ended.
#[derive(Drop)]
pub struct AuditEnd {
    /// At all doors: the links taken and those that were short, and whether a door failed.
    pub doors: DoorEnd,
    /// How many records are new in all lists, for each of which a note speaks; or the first for which none does, or that memory was wanting.
    pub gathered: Result<u128, GatherFault>,
    /// What the last pass came to, where somebody regraded.
    pub last: Option<LoopEnd>,
}

/// What is told of so many new records, as their notes were gathered.
fn found(all: Result<Listed<Note>, GatherFault>, count: u128) -> Result<u128, GatherFault>
    ensures { result ≡ found_of all count }
{
    match all {
        Ok(_) => Ok(count),
        Err(why) => Err(why),
    }
}

/// Serves the first doors over a school by clerks, one a worker, while others regrade, and gathers what they noted. Where there are any who
/// regrade, a last pass is made then.
///
/// # Errors
///
/// `NoMemory`: memory was short before any door was served. The doors stay as they are, and there is no last pass.
pub(crate) fn audit_school<
    K: Keeper + Send + Sync,
    W: Threads + Wait + Sync,
    R: Door + Send,
    C: Clock + Send + Drop,
>(
    rt: &W,
    alloc: Global,
    solo: Solo<K>,
    crew: Crew,
    doors: &mut Vec<(R, C)>,
    clocks: Vec<C>,
) -> (Solo<K>, Result<AuditEnd, NoMemory>)
where
    R::Link: Send,
    requires some { 0 < crew.workers }
    requires doors { crew.workers ≤ length doors.old.items }
    requires clocks { crew.regraders ≤ length clocks.items }
    ensures { MatchResult result.1
        (Audits K.sound K.faults
        (serving_by C.tells (peer_by R.Link.left R.Link.holds R.Link.faults)
        (entrance_by R.left R.returned R.returns R.out R.faults) crew.links)
        crew.workers crew.regraders solo result.0 doors.old.items doors.new.items)
        (λ _. ServesNone K.faults solo result.0 doors.old.items doors.new.items) }
{
    let (loaded, before) = count_records(solo);
    let noted = match serve_noting(rt, alloc, loaded, crew, doors, clocks) {
        Ok(noted) => noted,
        Err(solo) => return (solo, Err(NoMemory)),
    };
    let Noted {
        school,
        passes,
        base,
        books,
        end,
    } = noted;
    let (closed, all) = gather(alloc, school, passes, books, &base);
    let (mut solo, after) = count_records(closed);
    let gathered = found(all, after - before);
    let last = regrade_last(rt, alloc, &mut solo, crew.regraders, doors);
    let audited = AuditEnd {
        doors: end,
        gathered,
        last,
    };
    (solo, Ok(audited))
}
