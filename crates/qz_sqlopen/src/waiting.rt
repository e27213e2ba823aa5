//! The command that shows the attempts at a quiz that wait.

ghost use Rattle.std.specs.Prelude.{◌≡◌, ◌≤◌, false, IfOk, IfErr};
ghost use Rattle.qz_ending.specs.Endings.{Ended};
ghost use Rattle.qz_sqlopen.specs.Open.{AreFoundLines, IsUnread, OpenEnds, ShowsAll, stop_of_bases, stop_of_keeper};
ghost use Rattle.qz_sqlbases.specs.Databases.{ChangesAt};
ghost use Rattle.qz_sqlfolders.specs.Folders.{Stays, part_place};

use crate::open_lines::open_lines;
use qz_disks::{KeepErr, ShelfErr};
use qz_ending::Stop;
use qz_outside::{Sink, write_all};
use qz_sqlbases::Bases;
use qz_sqlfolders::part_name;
use qz_text::Text;
use std::alloc::Global;

/// Why a command ends whose keeper didn't answer.
fn stop_of_keeper(fault: KeepErr) -> Stop
    ensures { result ≡ stop_of_keeper fault }
{
    match fault {
        KeepErr::Fault => Stop::ShelfFault,
        KeepErr::Memory => Stop::Memory,
    }
}

/// Why a command ends whose bases didn't hand a database out.
fn stop_of_bases(fault: ShelfErr) -> Stop
    ensures { result ≡ stop_of_bases fault }
{
    match fault {
        ShelfErr::Failed => Stop::ShelfFault,
        ShelfErr::Memory => Stop::Memory,
    }
}

/// Reads the lines of the attempts that wait from the shard's database, which is given back then.
fn read_lines<B: Bases>(
    alloc: Global,
    folder: &[u8],
    quiz: u32,
    bases: &mut B,
) -> Result<Text, Stop>
    requires { (B.lists bases.old).is_out (part_place folder.now) ≡ false }
    ensures lines { IfOk result (AreFoundLines B.Store.Base.tells B.Store.Store folder.now quiz
        (record { lists = B.lists bases.old; faults = B.faults bases.old })) }
    ensures why { IfErr result (IsUnread (B.faults bases.old) (B.faults bases.new)) }
    ensures back { (B.lists bases.new).is_out (part_place folder.now) ≡ false }
    ensures stays { Stays ((B.lists bases.old).list (part_place folder.now))
        ((B.lists bases.new).list (part_place folder.now)) }
    ensures others { ChangesAt (part_place folder.now) (B.lists bases.old) (B.lists bases.new) }
    ensures later { B.faults bases.old ≤ B.faults bases.new }
{
    let name = part_name().as_bytes();
    match bases.keeper(alloc, folder, name) {
        Ok((keeper, _)) => {
            let mut keeper = keeper;
            let lines = open_lines(alloc, &mut keeper, quiz);
            bases.back(folder, name, keeper);
            match lines {
                Ok(lines) => Ok(lines),
                Err(fault) => Err(stop_of_keeper(fault)),
            }
        }
        Err(fault) => Err(stop_of_bases(fault)),
    }
}

/// Writes the attempts at a quiz that wait in the shard's database of a folder, `part-00.db`, which isn't out: a line `USER.NTH STEPS` for
/// each, in order of user and number, STEPS being the number of its rows in `step`. Answers the exit status.
///
/// With status 6 the bases failed, or the keeper, and with 8 memory was wanting: nothing was written. With status 5 the sink failed behind a
/// front of the lines. Afterwards the database is given back, and its list is as it was found.
pub fn sqlopen<O: Sink, B: Bases>(
    alloc: Global,
    folder: &[u8],
    quiz: u32,
    sink: &mut O,
    bases: &mut B,
) -> u8
    requires { (B.lists bases.old).is_out (part_place folder.now) ≡ false }
    ensures ended { Ended
        (OpenEnds B.Store.Base.tells B.Store.Store folder.now quiz
        (record { lists = B.lists bases.old; faults = B.faults bases.old })
        (record { lists = B.lists bases.new; faults = B.faults bases.new })
        (record { holds = O.holds sink.old; faults = O.faults sink.old })
        (record { holds = O.holds sink.new; faults = O.faults sink.new }))
        result }
    ensures complete { ShowsAll
        (record { lists = B.lists bases.old; faults = B.faults bases.old })
        (record { lists = B.lists bases.new; faults = B.faults bases.new })
        (record { holds = O.holds sink.old; faults = O.faults sink.old })
        (record { holds = O.holds sink.new; faults = O.faults sink.new })
        result }
{
    match read_lines(alloc, folder, quiz, bases) {
        Ok(lines) => match write_all(sink, lines.as_bytes()) {
            Ok(()) => 0,
            Err(_) => Stop::SinkFault.status(),
        },
        Err(stop) => stop.status(),
    }
}
