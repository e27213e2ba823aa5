//! What is said of the doors of a school that were served.

ghost use Rattle.std.specs.Prelude.{◌≡◌};
ghost use Rattle.qz_ending.specs.Endings.{Ended};
ghost use Rattle.qz_serving.specs.Saying.{SaysOf, is_short, served_by};

use qz_ending::Stop;
use qz_outside::Sink;
use qz_regrading::LoopEnd;
use qz_served::{Served, say_served};
use qz_stations::ServeEnd;
use qz_text::NoMemory;
use std::alloc::Global;

/// Writes `served N`, how many links were taken at doors that were served, and answers the exit status.
///
/// Status 10: one of them failed. Status 8: memory was wanting for the line, for a link, which has ended then, or for the last pass of the
/// regraders; or before any door was served, and nothing is written.
pub(crate) fn say_ended<O: Sink>(
    alloc: Global,
    sink: &mut O,
    served: Result<ServeEnd, NoMemory>,
) -> u8
    ensures { Ended
        (SaysOf (O.holds sink.old) (O.holds sink.new) (O.faults sink.old) (O.faults sink.new) served)
        result }
{
    let Ok(end) = served else {
        return Stop::Memory.status();
    };
    match say_served(alloc, sink, served_of(end)) {
        Ok(()) => 0,
        Err(stop) => stop.status(),
    }
}

/// How serving them ended.
fn served_of(end: ServeEnd) -> Served
    ensures { result ≡ served_by end }
{
    Served {
        taken: end.doors.taken,
        fault: end.doors.fault,
        short: is_short(end),
    }
}

/// Whether memory was wanting for a link, or for the last pass.
fn is_short(end: ServeEnd) -> bool
    ensures { result ≡ is_short end }
{
    end.doors.short > 0 || matches!(end.last, Some(LoopEnd::Short))
}
