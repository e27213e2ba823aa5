//! What is said of a school that isn't loaded.

ghost use Rattle.std.specs.Prelude.{◌≡◌, string_bytes, option_map, IfOk};
ghost use Rattle.qz_opening.specs.Unloaded.{Refuses, Tells, altered_line, behind_line, damaged_line, refusal_of, stop_of};

use qz_ending::Stop;
use qz_loading::LoadFault;
use qz_outside::{Sink, write_all};
use qz_text::{NoMemory, Text};
use std::alloc::Global;

/// What is written where the catalogue's list is empty.
const NOT_FOUNDED: &str = "not founded\n";

/// Writes, as one line, why the lists of a school aren't loaded, and tells why the command ends.
///
/// With `Refused` the line was written: `damaged NAME PLACE`, `not founded`, `behind SHARD POSITION LENGTH` or `altered SHARD PLACE`. With
/// `SinkFault` the sink failed under it, behind a front of it. A fault has no line, and is `ShelfFault`; with `Memory` memory was wanting,
/// for the lists or for the line. Nothing was written then.
pub fn tell<O: Sink>(alloc: Global, sink: &mut O, fault: &LoadFault) -> Stop
    ensures { Tells fault.now
        (record { holds = O.holds sink.old; faults = O.faults sink.old })
        (record { holds = O.holds sink.new; faults = O.faults sink.new }) result }
{
    match refusal(alloc, fault) {
        Ok(Some(line)) => refuse(sink, line.as_bytes()),
        Ok(None) => stop_of(fault),
        Err(NoMemory) => Stop::Memory,
    }
}

/// Why a command ends where no line says why its school isn't loaded.
fn stop_of(fault: &LoadFault) -> Stop
    ensures { result ≡ stop_of fault.now }
{
    match fault {
        LoadFault::Fault => Stop::ShelfFault,
        LoadFault::Memory => Stop::Memory,
        LoadFault::Damaged { .. }
        | LoadFault::Behind { .. }
        | LoadFault::Altered { .. }
        | LoadFault::NotFounded => Stop::Refused,
    }
}

/// The line that says why a school isn't loaded. A fault and want of memory have none.
fn refusal(alloc: Global, fault: &LoadFault) -> Result<Option<String>, NoMemory>
    ensures { IfOk result (λ line. option_map string_bytes line ≡ refusal_of fault.now) }
{
    match fault {
        LoadFault::Damaged { name, place } => Ok(Some(damaged_line(alloc, name, *place)?)),
        LoadFault::Behind {
            shard,
            position,
            length,
        } => Ok(Some(behind_line(alloc, *shard, *position, *length)?)),
        LoadFault::Altered { shard, place } => Ok(Some(altered_line(alloc, *shard, *place)?)),
        LoadFault::NotFounded => Ok(Some(String::from_str(alloc, NOT_FOUNDED)?)),
        LoadFault::Fault | LoadFault::Memory => Ok(None),
    }
}

/// Writes why a school isn't loaded.
fn refuse<O: Sink>(sink: &mut O, line: &[u8]) -> Stop
    ensures { Refuses line.now (O.holds sink.old) (O.holds sink.new)
        (O.faults sink.old) (O.faults sink.new) result }
{
    match write_all(sink, line) {
        Ok(()) => Stop::Refused,
        Err(_) => Stop::SinkFault,
    }
}

fn damaged_line(alloc: Global, name: &Text, place: u64) -> Result<String, NoMemory>
    ensures { IfOk result (λ line. string_bytes line ≡ damaged_line name.now place) }
{
    let name = name.as_str();
    Ok(format!(in alloc; "damaged {name} {place}\n")?)
}

fn behind_line(alloc: Global, shard: u8, position: u64, length: u64) -> Result<String, NoMemory>
    ensures { IfOk result (λ line. string_bytes line ≡ behind_line shard position «length») }
{
    Ok(format!(in alloc; "behind {shard} {position} {length}\n")?)
}

fn altered_line(alloc: Global, shard: u8, place: u64) -> Result<String, NoMemory>
    ensures { IfOk result (λ line. string_bytes line ≡ altered_line shard place) }
{
    Ok(format!(in alloc; "altered {shard} {place}\n")?)
}
