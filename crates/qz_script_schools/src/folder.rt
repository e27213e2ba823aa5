//! A script over the school of a folder.

ghost use Rattle.qz_disks.specs.Shelves.{NoneOutIn};
ghost use Rattle.qz_ending.specs.Endings.{Ended};
ghost use Rattle.qz_script.specs.Scripts.{script_limit};
ghost use Rattle.qz_script_schools.specs.Folders.{ScriptFolderEnds, ServesFolder};

use qz_disks::Shelf;
use qz_opening::open_school;
use qz_outside::{Sink, Source};
use qz_script::{LIMIT, serve};
use qz_solo::close;
use std::alloc::Global;

/// Answers the lines of a script over the school of a folder, of which no file is out, and answers the exit status.
///
/// Each reply is written before the next line is read, and what it says is kept then: where a keeper of the lists failed the reply says so.
/// Where the files stand for the lists of a school it is the school of these, unless a fault or want of memory keeps it from being opened.
/// With status 7 the files don't give a school, and one line says why; with status 6 the shelf failed, or the disk of a file; nothing was
/// read then. Afterwards each file is given back, and stands for its list, also where the script ended early.
pub fn script_folder<S: Source, O: Sink, F: Shelf>(
    alloc: Global,
    folder: &[u8],
    source: &mut S,
    sink: &mut O,
    shelf: &mut F,
) -> u8
    requires { NoneOutIn folder.now (F.files shelf.old) }
    ensures ended { Ended
        (ScriptFolderEnds (record { moment = F.Disk.moment; left_at = F.Disk.left_at; sound = F.Disk.sound; faults = F.Disk.faults })
        folder.now script_limit
        (record { files = F.files shelf.old; faults = F.faults shelf.old })
        (record { files = F.files shelf.new; faults = F.faults shelf.new })
        (record { left = S.left source.old; source_faults = S.faults source.old; holds = O.holds sink.old; sink_faults = O.faults sink.old })
        (record { left = S.left source.new; source_faults = S.faults source.new; holds = O.holds sink.new; sink_faults = O.faults sink.new }))
        result }
    ensures complete { ServesFolder script_limit
        (record { files = F.files shelf.old; faults = F.faults shelf.old })
        (record { files = F.files shelf.new; faults = F.faults shelf.new })
        (record { left = S.left source.old; source_faults = S.faults source.old; holds = O.holds sink.old; sink_faults = O.faults sink.old })
        (record { left = S.left source.new; source_faults = S.faults source.new; holds = O.holds sink.new; sink_faults = O.faults sink.new })
        result }
{
    match open_school(alloc, folder, sink, shelf) {
        Ok(mut desk) => {
            let status = serve(alloc, LIMIT, &mut desk, source, sink);
            close(shelf, folder, desk);
            status
        }
        Err(stop) => stop.status(),
    }
}
