//! Opening the school of a folder, as a command.

ghost use Rattle.std.specs.Prelude.{◌≡◌, ◌≤◌, length, IfOk, IfErr};
ghost use Rattle.qz_terms.specs.declared.limits.TheConstants.{MOST_SHARDS};
ghost use Rattle.qz_disks.specs.Shelves.{NoneOutIn};
ghost use Rattle.qz_folders.specs.Opening.{IsSoundOut};
ghost use Rattle.qz_loading.specs.Opening.{AreSoundOut, IsLoadedFrom};
ghost use Rattle.qz_loading.specs.Places.{IsOut, KeepsElsewhere, catalog_place};
ghost use Rattle.qz_opening.specs.Restarting.{Reopens};
ghost use Rattle.qz_opening.specs.Unloaded.{UnloadedBy};

use crate::saying::tell;
use qz_disks::Shelf;
use qz_ending::Stop;
use qz_journal::Journal;
use qz_outside::Sink;
use qz_solo::{Solo, load};
use std::alloc::Global;

/// Loads the school of a folder, of which no file is out. Its lists are those that the files stand for: where these are the lists of a school,
/// just a fault or want of memory keeps them from being loaded.
///
/// Where the files don't give a school, one line says why and the stop is `Refused`: `damaged NAME PLACE`, `not founded`, `behind SHARD
/// POSITION LENGTH` or `altered SHARD PLACE`. With `SinkFault` the sink failed under that line, behind a front of it. With `ShelfFault`
/// the shelf failed or the disk of a file, and with `Memory` memory was wanting; nothing was written. After each of these all files
/// are back, and stand for what they stood for; those of the shards behind the one that a line tells of weren't touched.
pub fn open_school<O: Sink, F: Shelf>(
    alloc: Global,
    folder: &[u8],
    sink: &mut O,
    shelf: &mut F,
) -> Result<Solo<Journal<F::Disk>>, Stop>
    requires { NoneOutIn folder.now (F.files shelf.old) }
    ensures loaded { IfOk result (λ made. IsLoadedFrom F.Disk.moment F.Disk.left_at folder.now
        (F.files shelf.old) made.catalog made.parts) }
    ensures restarts { Reopens folder.now (F.files shelf.old) result }
    ensures few { IfOk result (λ made. length made.parts ≤ MOST_SHARDS) }
    ensures out { IfOk result (λ made. IsOut folder.now (length made.parts) (F.files shelf.new)) }
    ensures others { IfOk result (λ made. KeepsElsewhere folder.now (length made.parts)
        (F.files shelf.old) (F.files shelf.new)) }
    ensures unwritten { IfOk result (λ _. sink.new ≡ sink.old) }
    ensures unloaded { IfErr result (UnloadedBy folder.now
        (record { files = F.files shelf.old; faults = F.faults shelf.old })
        (record { files = F.files shelf.new; faults = F.faults shelf.new })
        (record { holds = O.holds sink.old; faults = O.faults sink.old })
        (record { holds = O.holds sink.new; faults = O.faults sink.new })) }
    ensures later { F.faults shelf.old ≤ F.faults shelf.new }
    ensures sound_catalog { IfOk result (λ made. F.sound shelf.old
        → IsSoundOut F.Disk.sound F.Disk.faults
        ((F.files shelf.old).file (catalog_place folder.now)) made.catalog.keeper) }
    ensures sound_parts { IfOk result (λ made. F.sound shelf.old
        → AreSoundOut F.Disk.sound F.Disk.faults folder.now (F.files shelf.old) made.parts) }
{
    match load(alloc, shelf, folder) {
        Ok(school) => Ok(school),
        Err(fault) => Err(tell(alloc, sink, &fault)),
    }
}
