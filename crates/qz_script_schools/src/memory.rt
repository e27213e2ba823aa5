//! A script over the school in memory.

ghost use Rattle.qz_ending.specs.Endings.{Ended};
ghost use Rattle.qz_script.specs.Scripts.{ServesAll, script_limit};
ghost use Rattle.qz_script_schools.specs.Memory.{ScriptEnds, first_lists};

use qz_ending::Stop;
use qz_outside::{Sink, Source};
use qz_script::{LIMIT, serve};
use qz_solo::MemorySchool;
use qz_text::NoMemory;
use std::alloc::Global;

/// Answers the lines of a script over a school in memory that was just founded, with one shard and the manager's token `root`, and answers
/// the exit status.
///
/// Each reply is written before the next line is read, and the last line, which may lack its line feed, is answered at the end of the
/// source. With status 9 the source has more than 1,073,741,824 bytes.
pub fn script<S: Source, O: Sink>(alloc: Global, source: &mut S, sink: &mut O) -> u8
    ensures ended { Ended
        (ScriptEnds script_limit first_lists
        (record { left = S.left source.old; source_faults = S.faults source.old; holds = O.holds sink.old; sink_faults = O.faults sink.old })
        (record { left = S.left source.new; source_faults = S.faults source.new; holds = O.holds sink.new; sink_faults = O.faults sink.new }))
        result }
    ensures complete { ServesAll script_limit
        (record { left = S.left source.old; source_faults = S.faults source.old; holds = O.holds sink.old; sink_faults = O.faults sink.old })
        (record { left = S.left source.new; source_faults = S.faults source.new; holds = O.holds sink.new; sink_faults = O.faults sink.new })
        result }
{
    match MemorySchool::founded(alloc, 1, "root") {
        Ok(mut desk) => serve(alloc, LIMIT, &mut desk, source, sink),
        Err(NoMemory) => Stop::Memory.status(),
    }
}
