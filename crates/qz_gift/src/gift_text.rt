//! Checking a GIFT text, and laying it out anew.

ghost use Rattle.std.specs.Prelude.{MatchResult, Some, None};
ghost use Rattle.qz_ending.specs.Endings.{Ended};
ghost use Rattle.qz_gift.specs.GiftEndings.{GiftEnds, GiftsAll, bank_text, fault_text, Writes};

use gift_read::{GiftFault, read};
use gift_write::{WriteErr, write};
use qz_ending::Stop;
use qz_grading::Bank;
use qz_outside::{Sink, Source, read_all, write_all};
use qz_text::NoMemory;
use std::alloc::Global;

/// A GIFT text has at most so many bytes.
const LIMIT: usize = 8_388_608;

/// Reads a GIFT text to its end and writes how many questions it has, or, with `writes`, its canonical text. Answers the exit
/// status.
///
/// A text that has no reading is told by `malformed LINE RULE` alone and status 3. Nothing is written with the statuses 4 (the
/// source failed) and 9 (the text is longer than 8,388,608 bytes), and a front of the output with 5 (the sink failed) and 8 (memory
/// was wanting).
pub fn gift<S: Source, O: Sink>(alloc: Global, writes: bool, source: &mut S, sink: &mut O) -> u8
    ensures ended { Ended
        (GiftEnds writes
        (record { left = S.left source.old; source_faults = S.faults source.old; holds = O.holds sink.old; sink_faults = O.faults sink.old })
        (record { left = S.left source.new; source_faults = S.faults source.new; holds = O.holds sink.new; sink_faults = O.faults sink.new }))
        result }
    ensures complete { GiftsAll
        (record { left = S.left source.old; source_faults = S.faults source.old; holds = O.holds sink.old; sink_faults = O.faults sink.old })
        (record { left = S.left source.new; source_faults = S.faults source.new; holds = O.holds sink.new; sink_faults = O.faults sink.new })
        result }
{
    match gift_or_stop(alloc, writes, source, sink) {
        Ok(()) => 0,
        Err(stop) => stop.status(),
    }
}

fn gift_or_stop<S: Source, O: Sink>(
    alloc: Global,
    writes: bool,
    source: &mut S,
    sink: &mut O,
) -> Result<(), Stop>
    ensures { let ends = GiftEnds writes
        (record { left = S.left source.old; source_faults = S.faults source.old; holds = O.holds sink.old; sink_faults = O.faults sink.old })
        (record { left = S.left source.new; source_faults = S.faults source.new; holds = O.holds sink.new; sink_faults = O.faults sink.new })
        in MatchResult result (λ _. ends None) (λ stop. ends (Some stop)) }
{
    let text = read_all(alloc, source, LIMIT)?;
    match read(alloc, text.as_slice()) {
        Ok(bank) => tell(alloc, writes, &bank, sink),
        Err(GiftFault::Malformed { line, rule }) => tell_fault(alloc, line, rule, sink),
        Err(GiftFault::Memory) => Err(Stop::Memory),
    }
}

/// Writes what is said of a bank.
fn tell<O: Sink>(alloc: Global, writes: bool, bank: &Bank, sink: &mut O) -> Result<(), Stop>
    ensures { Writes (bank_text writes bank.now) None (O.holds sink.old) (O.holds sink.new) (O.faults sink.old) (O.faults sink.new) result }
{
    if writes {
        return match write(alloc, bank, sink) {
            Ok(()) => Ok(()),
            Err(WriteErr::Fault) => Err(Stop::SinkFault),
            Err(WriteErr::Memory) => Err(Stop::Memory),
        };
    }
    let count = bank.items.as_slice().len();
    let out = format!(in alloc; "questions {count}\n")?;
    if write_all(sink, out.as_bytes()).is_err() {
        return Err(Stop::SinkFault);
    }
    Ok(())
}

/// Writes the line and the rule of the first fault.
fn tell_fault<O: Sink>(alloc: Global, line: u32, rule: u8, sink: &mut O) -> Result<(), Stop>
    ensures { Writes (fault_text (record { line = line; rule = rule })) (Some (Stop.Unreadable line rule)) (O.holds sink.old) (O.holds sink.new) (O.faults sink.old) (O.faults sink.new) result }
{
    let out = format!(in alloc; "malformed {line} {rule}\n")?;
    if write_all(sink, out.as_bytes()).is_err() {
        return Err(Stop::SinkFault);
    }
    Err(Stop::Unreadable { line, rule })
}
