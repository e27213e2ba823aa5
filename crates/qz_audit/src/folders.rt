//! Serving doors by clerks over the school of a folder.

ghost use Rattle.std.specs.Prelude.{◌≡◌, ◌<◌, ◌≤◌, length};
ghost use Rattle.qz_audit.specs.Folders.{AuditFolderEnds, AuditsDoors};
ghost use Rattle.qz_disks.specs.Shelves.{NoneOutIn};
ghost use Rattle.qz_ending.specs.Endings.{Ended};
ghost use Rattle.qz_serving.specs.Saying.{NoDoorFails};
ghost use Rattle.qz_stations.specs.Stations.{entrance_by, peer_by, serving_by};

use crate::auditing::audit_school;
use crate::saying::say_audited;
use qz_disks::Shelf;
use qz_links::{Clock, Door};
use qz_opening::open_school;
use qz_outside::Sink;
use qz_solo::close;
use qz_stations::Crew;
use std::alloc::Global;
use std::sync::Wait;
use std::thread::Threads;

/// Serves the first doors, as many as there are workers, over the school of a folder, of which no file is out, as the command `serve` does; but each
/// worker and each regrader notes what it asks. When all have left, the notes are gathered, before the last pass of the regraders. Writes `served N`,
/// how many links were taken in all, and `gathered M`, how many records are new in all lists, where a note speaks for each; else `gap catalog PLACE`
/// or `gap SHARD PLACE`, the first place for which none speaks. Answers the exit status.
///
/// Where the files stand for the lists of a school it is the school of these, unless a fault or want of memory keeps it from being opened.
/// With status 7 the files don't give a school, and one line says why; with status 6 the shelf failed, or the disk of a file; no link was taken
/// then. With status 11 there is a gap. With status 10 a door failed, and the others were served. With status 8 memory was wanting, for the school,
/// for a link, which has ended then, for the notes, for the last pass of the regraders, or for the lines. Afterwards each file is given back, and
/// stands for its list. With status 0 and at least one regrader each job is done in each shard then, unless a file failed meanwhile.
/// The shelf's count rose at least as often as the replies at any one door say that a keeper failed.
pub fn audit_folder<
    W: Threads + Wait + Sync,
    O: Sink,
    R: Door + Send,
    C: Clock + Send + Drop,
    F: Shelf,
>(
    rt: &W,
    alloc: Global,
    folder: &[u8],
    crew: Crew,
    sink: &mut O,
    doors: &mut Vec<(R, C)>,
    clocks: Vec<C>,
    shelf: &mut F,
) -> u8
where
    F::Disk: Send + Sync,
    R::Link: Send,
    requires none_out { NoneOutIn folder.now (F.files shelf.old) }
    requires some { 0 < crew.workers }
    requires enough { crew.workers ≤ length doors.old.items }
    requires clocks { crew.regraders ≤ length clocks.items }
    ensures ended { Ended
        (AuditFolderEnds (record { moment = F.Disk.moment; left_at = F.Disk.left_at; sound = F.Disk.sound; faults = F.Disk.faults })
        folder.now crew.workers crew.regraders
        (serving_by C.tells (peer_by R.Link.left R.Link.holds R.Link.faults)
        (entrance_by R.left R.returned R.returns R.out R.faults) crew.links)
        doors.old.items doors.new.items
        (record { files = F.files shelf.old; faults = F.faults shelf.old })
        (record { files = F.files shelf.new; faults = F.faults shelf.new })
        (record { holds = O.holds sink.old; faults = O.faults sink.old })
        (record { holds = O.holds sink.new; faults = O.faults sink.new }))
        result }
    ensures complete { AuditsDoors (NoDoorFails R.faults doors.old.items doors.new.items)
        (record { files = F.files shelf.old; faults = F.faults shelf.old })
        (record { files = F.files shelf.new; faults = F.faults shelf.new })
        (record { holds = O.holds sink.old; faults = O.faults sink.old })
        (record { holds = O.holds sink.new; faults = O.faults sink.new })
        result }
    ensures doors { length doors.new.items ≡ length doors.old.items }
{
    match open_school(alloc, folder, sink, shelf) {
        Ok(school) => {
            let (school, audited) = audit_school(rt, alloc, school, crew, doors, clocks);
            close(shelf, folder, school);
            say_audited(alloc, sink, audited)
        }
        Err(stop) => stop.status(),
    }
}
