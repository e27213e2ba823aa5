//! What is said of a school that was served by clerks.

ghost use Rattle.std.specs.Prelude.{◌≡◌, IfOk, MatchResult, None, Some, string_bytes};
ghost use Rattle.qz_audit.specs.Saying.{SaysAudited, SaysOf, audited_text, found_line, gap_line, gathered_line, has_gap, is_short};
ghost use Rattle.qz_ending.specs.Endings.{Ended};

use crate::auditing::AuditEnd;
use qz_ending::Stop;
use qz_gathering::GatherFault;
use qz_outside::{Sink, write_all};
use qz_regrading::LoopEnd;
use qz_served::served_line;
use qz_text::NoMemory;
use std::alloc::Global;

fn gathered_line(alloc: Global, count: u128) -> Result<String, NoMemory>
    ensures { IfOk result (λ line. string_bytes line ≡ gathered_line count) }
{
    Ok(format!(in alloc; "gathered {count}\n")?)
}

fn gap_line(alloc: Global, list: Option<u8>, place: u64) -> Result<String, NoMemory>
    ensures { IfOk result (λ line. string_bytes line ≡ gap_line list place) }
{
    match list {
        None => Ok(format!(in alloc; "gap catalog {place}\n")?),
        Some(shard) => Ok(format!(in alloc; "gap {shard} {place}\n")?),
    }
}

/// What is said of the records that were looked for. Where memory was wanting to look it is nothing.
fn found_line(alloc: Global, found: &Result<u128, GatherFault>) -> Result<String, NoMemory>
    ensures { IfOk result (λ line. string_bytes line ≡ found_line found.now) }
{
    match found {
        Ok(count) => gathered_line(alloc, *count),
        Err(GatherFault::Gap { list, place }) => gap_line(alloc, *list, *place),
        Err(GatherFault::Memory) => Ok(String::new(alloc)),
    }
}

fn audited_text(alloc: Global, end: &AuditEnd) -> Result<String, NoMemory>
    ensures { IfOk result (λ text. string_bytes text ≡ audited_text end.now) }
{
    let mut text = served_line(alloc, end.doors.taken)?;
    let found = found_line(alloc, &end.gathered)?;
    text.push_str(&found)?;
    Ok(text)
}

fn has_gap(found: &Result<u128, GatherFault>) -> bool
    ensures { result ≡ has_gap found.now }
{
    matches!(found, Err(GatherFault::Gap { .. }))
}

/// Whether memory was wanting for a link, for the notes, or for the last pass.
fn is_short(end: &AuditEnd) -> bool
    ensures { result ≡ is_short end.now }
{
    end.doors.short > 0
        || matches!(end.last, Some(LoopEnd::Short))
        || matches!(end.gathered, Err(GatherFault::Memory))
}

/// Writes how many links were taken, and how many new records a note speaks for, or the first for which none does.
fn say<O: Sink>(alloc: Global, sink: &mut O, end: &AuditEnd) -> Result<(), Stop>
    ensures { let says = SaysAudited (O.holds sink.old) (O.holds sink.new)
        (O.faults sink.old) (O.faults sink.new) end.now
        in MatchResult result (λ _. says None) (λ stop. says (Some stop)) }
{
    let text = audited_text(alloc, end)?;
    if write_all(sink, text.as_bytes()).is_err() {
        return Err(Stop::SinkFault);
    }
    if has_gap(&end.gathered) {
        return Err(Stop::Gap);
    }
    if end.doors.fault {
        return Err(Stop::DoorFault);
    }
    if is_short(end) {
        return Err(Stop::Memory);
    }
    Ok(())
}

/// Writes `served N`, how many links were taken at doors that were served, and `gathered M`, how many records are new, or `gap catalog PLACE` or
/// `gap SHARD PLACE`, and answers the exit status.
///
/// Status 11: a gap was found. Status 10: a door failed. Status 8: memory was wanting for the lines, for a link, which has ended then, for the
/// notes, or for the last pass of the regraders; or before any door was served, and nothing is written.
pub(crate) fn say_audited<O: Sink>(
    alloc: Global,
    sink: &mut O,
    audited: Result<AuditEnd, NoMemory>,
) -> u8
    ensures { Ended
        (SaysOf (O.holds sink.old) (O.holds sink.new) (O.faults sink.old) (O.faults sink.new) audited)
        result }
{
    let Ok(end) = audited else {
        return Stop::Memory.status();
    };
    match say(alloc, sink, &end) {
        Ok(()) => 0,
        Err(stop) => stop.status(),
    }
}
