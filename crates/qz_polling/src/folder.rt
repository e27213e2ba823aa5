//! The links of a door are served over the school of a folder.

ghost use Rattle.std.specs.Prelude.{◌^◌, ◌<◌, length, MatchResult, None, Some};
ghost use Rattle.qz_disks.specs.Shelves.{NoneOutIn};
ghost use Rattle.qz_ending.specs.Endings.{Ended};
ghost use Rattle.qz_polling.specs.Endings.{PollFolderEnds, PollsAll, SaysOf};
ghost use Rattle.qz_ready_doors.specs.Halls.{entrance_by};
ghost use Rattle.qz_ready_doors.specs.Kept.{peer_of};

use crate::school::poll_school;
use qz_disks::Shelf;
use qz_ending::Stop;
use qz_links::Clock;
use qz_opening::open_school;
use qz_outside::Sink;
use qz_ready::ReadyDoor;
use qz_ready_doors::Watch;
use qz_served::{Served, say_served};
use qz_solo::close;
use qz_text::NoMemory;
use std::alloc::{AllocGlobal, Global};
use std::random::RandomSource;
use std::sync::Wait;

/// Writes how many links were taken, if any could be, and answers the exit status.
fn say<O: Sink>(alloc: Global, sink: &mut O, served: Result<Served, NoMemory>) -> u8
    ensures { Ended (SaysOf (O.holds sink.old) (O.holds sink.new)
        (O.faults sink.old) (O.faults sink.new) served) result }
{
    let Ok(served) = served else {
        return Stop::Memory.status();
    };
    match say_served(alloc, sink, served) {
        Ok(()) => 0,
        Err(stop) => stop.status(),
    }
}

/// Serves the links of a door over the school of a folder, of which no file is out, on this thread alone: at most as many are open at once as
/// there are clocks, and one that waits costs the others nothing. It ends when `links` of them were taken, none is left or the door fails, and
/// those that were taken have ended. Nobody regrades. Writes `served N`, how many links were taken, and answers the exit status.
///
/// Where the files stand for the lists of a school it is the school of these, unless a fault or want of memory keeps it from being opened.
/// With status 7 the files don't give a school, and one line says why; with status 6 the shelf failed, or the disk of a file; no link was
/// taken then. With status 8 memory was wanting: for the school, for a link, which has ended then, for the run, which took no more links then,
/// or for the line. With status 10 the door failed, with 5 the sink. Afterwards each file is given back, and stands for its list.
pub fn poll_folder<R, W, O, F, P, C>(
    rt: &R,
    watch: &mut W,
    alloc: Global,
    folder: &[u8],
    links: u32,
    sink: &mut O,
    shelf: &mut F,
    door: &mut P,
    clocks: Vec<C>,
) -> u8
where
    R: Wait + RandomSource + AllocGlobal,
    W: Watch,
    O: Sink,
    F: Shelf,
    P: ReadyDoor<Link: Drop>,
    C: Clock + Drop,
    requires none_out { NoneOutIn folder.now (F.files shelf.old) }
    requires few { length clocks.items < 2 ^ 32 }
    ensures ended { Ended
        (PollFolderEnds (record { moment = F.Disk.moment; left_at = F.Disk.left_at; sound = F.Disk.sound; faults = F.Disk.faults })
        folder.now C.tells (peer_of P.Link.ReadyLink) links clocks.items
        (record { door = door.old; entrance = entrance_by P.left P.returned P.returns P.out P.faults door.old })
        (record { door = door.new; entrance = entrance_by P.left P.returned P.returns P.out P.faults door.new })
        (record { files = F.files shelf.old; faults = F.faults shelf.old })
        (record { files = F.files shelf.new; faults = F.faults shelf.new })
        (record { holds = O.holds sink.old; faults = O.faults sink.old })
        (record { holds = O.holds sink.new; faults = O.faults sink.new }))
        result }
    ensures complete { PollsAll
        (record { door = door.old; entrance = entrance_by P.left P.returned P.returns P.out P.faults door.old })
        (record { door = door.new; entrance = entrance_by P.left P.returned P.returns P.out P.faults door.new })
        (record { files = F.files shelf.old; faults = F.faults shelf.old })
        (record { files = F.files shelf.new; faults = F.faults shelf.new })
        (record { holds = O.holds sink.old; faults = O.faults sink.old })
        (record { holds = O.holds sink.new; faults = O.faults sink.new })
        result }
{
    match open_school(alloc, folder, sink, shelf) {
        Ok(school) => {
            let (school, served) = poll_school(rt, watch, alloc, school, links, door, clocks);
            close(shelf, folder, school);
            say(alloc, sink, served)
        }
        Err(stop) => stop.status(),
    }
}
