//! Founding a school in a folder, as a command.

ghost use Rattle.std.specs.Prelude.{◌≡◌, ◌≤◌, length, string_bytes, IfOk, MatchResult, None, Some};
ghost use Rattle.qz_terms.specs.declared.limits.TheConstants.{LONGEST_KEY, MOST_SHARDS};
ghost use Rattle.qz_disks.specs.Shelves.{place, ChangesAt, NoneOutIn};
ghost use Rattle.qz_ending.specs.Endings.{Ended};
ghost use Rattle.qz_folders.specs.Names.{catalog_name};
ghost use Rattle.qz_found.specs.FoundEndings.{FoundBy, FoundEnds, FoundsAll, damaged_line, founded_line};

use qz_disks::Shelf;
use qz_ending::Stop;
use qz_folders::{FoundFault, found};
use qz_outside::{Sink, write_all};
use qz_text::{NoMemory, Text};
use std::alloc::Global;

/// What is written where the catalogue's list isn't empty.
const ALREADY: &str = "founded already\n";

/// Founds a school in a folder, with 1 to 64 shards and a manager whose token has 1 to 64 bytes, and writes `founded SHARDS`. Answers
/// the exit status.
///
/// Status 7: `founded already` was written, since the catalogue's list isn't empty, or `damaged catalog.jnl PLACE`, since its file is
/// damaged there. Status 6: the shelf failed, or the file's disk; nothing was written, and the list is as it was or, where it was
/// empty, the founding may stand in it. Status 5: the sink failed under the line, behind a front of it. Status 8: memory was wanting;
/// nothing was written, and the list is as it was. Each file is given back, and no other changes.
pub fn found_folder<O: Sink, F: Shelf>(
    alloc: Global,
    folder: &[u8],
    shards: u8,
    token: &Text,
    sink: &mut O,
    shelf: &mut F,
) -> u8
    requires free { NoneOutIn folder.now (F.files shelf.old) }
    requires some { 1 ≤ shards }
    requires few { shards ≤ MOST_SHARDS }
    requires not_empty { 1 ≤ length token.now }
    requires short { length token.now ≤ LONGEST_KEY }
    ensures ended { Ended
        (FoundEnds (record { folder = folder.now; shards = shards; token = token.now })
        (record { files = F.files shelf.old; faults = F.faults shelf.old })
        (record { files = F.files shelf.new; faults = F.faults shelf.new })
        (record { holds = O.holds sink.old; faults = O.faults sink.old })
        (record { holds = O.holds sink.new; faults = O.faults sink.new }))
        result }
    ensures complete { FoundsAll
        (record { folder = folder.now; shards = shards; token = token.now })
        (record { files = F.files shelf.old; faults = F.faults shelf.old })
        (record { files = F.files shelf.new; faults = F.faults shelf.new })
        (record { holds = O.holds sink.old; faults = O.faults sink.old })
        (record { holds = O.holds sink.new; faults = O.faults sink.new })
        result }
{
    match found_or_stop(alloc, folder, shards, token, sink, shelf) {
        Ok(()) => 0,
        Err(stop) => stop.status(),
    }
}

// What is written where it is founded is made first, so that the school isn't founded where memory is wanting for it.
fn found_or_stop<O: Sink, F: Shelf>(
    alloc: Global,
    folder: &[u8],
    shards: u8,
    token: &Text,
    sink: &mut O,
    shelf: &mut F,
) -> Result<(), Stop>
    requires free { NoneOutIn folder.now (F.files shelf.old) }
    requires some { 1 ≤ shards }
    requires few { shards ≤ MOST_SHARDS }
    requires not_empty { 1 ≤ length token.now }
    requires short { length token.now ≤ LONGEST_KEY }
    ensures ends { let ends = FoundBy
        (record { folder = folder.now; shards = shards; token = token.now })
        (record { files = F.files shelf.old; faults = F.faults shelf.old })
        (record { files = F.files shelf.new; faults = F.faults shelf.new })
        (record { holds = O.holds sink.old; faults = O.faults sink.old })
        (record { holds = O.holds sink.new; faults = O.faults sink.new })
        in MatchResult result (λ _. ends None) (λ stop. ends (Some stop)) }
    ensures none_out { NoneOutIn folder.now (F.files shelf.new) }
    ensures others { ChangesAt (place folder.now catalog_name)
        (F.files shelf.old) (F.files shelf.new) }
{
    let line = founded_line(alloc, shards)?;
    match found(alloc, shelf, folder, shards, token) {
        Ok(()) => {
            if write_all(sink, line.as_bytes()).is_err() {
                return Err(Stop::SinkFault);
            }
            Ok(())
        }
        Err(FoundFault::Already) => {
            if write_all(sink, ALREADY.as_bytes()).is_err() {
                return Err(Stop::SinkFault);
            }
            Err(Stop::Refused)
        }
        Err(FoundFault::Damaged { place }) => {
            let line = damaged_line(alloc, place)?;
            if write_all(sink, line.as_bytes()).is_err() {
                return Err(Stop::SinkFault);
            }
            Err(Stop::Refused)
        }
        Err(FoundFault::Fault) => Err(Stop::ShelfFault),
        Err(FoundFault::Memory) => Err(Stop::Memory),
    }
}

fn founded_line(alloc: Global, shards: u8) -> Result<String, NoMemory>
    ensures { IfOk result (λ line. string_bytes line ≡ founded_line shards) }
{
    Ok(format!(in alloc; "founded {shards}\n")?)
}

fn damaged_line(alloc: Global, place: u64) -> Result<String, NoMemory>
    ensures { IfOk result (λ line. string_bytes line ≡ damaged_line place) }
{
    Ok(format!(in alloc; "damaged catalog.jnl {place}\n")?)
}
