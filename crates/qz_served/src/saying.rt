//! How many links were taken, and how serving them ended.

ghost use Rattle.std.specs.Prelude.{◌≡◌, IfOk, MatchResult, None, Some, string_bytes};
ghost use Rattle.qz_served.specs.Saying.{SaysServed, served_line};

use qz_ending::Stop;
use qz_outside::{Sink, write_all};
use qz_text::NoMemory;
use std::alloc::Global;

/// How serving links ended.
#[derive(Clone, Copy, Debug, PartialEq, Eq)]
pub struct Served {
    /// So many links were taken.
    pub taken: u64,
    /// Whether a door failed.
    pub fault: bool,
    /// Whether memory was wanting for a link, or for work beside the links.
    pub short: bool,
}

/// The line `served N`, with its line feed: so many links were taken.
pub fn served_line(alloc: Global, taken: u64) -> Result<String, NoMemory>
    ensures { IfOk result (λ line. string_bytes line ≡ served_line taken) }
{
    Ok(format!(in alloc; "served {taken}\n")?)
}

/// Writes how many links were taken.
///
/// # Errors
///
/// `SinkFault` where the sink failed under the line, behind a front of it; `DoorFault` where a door failed; `Memory` where
/// memory was wanting for the line, and nothing was written, or while they were served.
pub fn say_served<O: Sink>(alloc: Global, sink: &mut O, served: Served) -> Result<(), Stop>
    ensures { let says = SaysServed (O.holds sink.old) (O.holds sink.new)
        (O.faults sink.old) (O.faults sink.new) served
        in MatchResult result (λ _. says None) (λ stop. says (Some stop)) }
{
    let line = served_line(alloc, served.taken)?;
    if write_all(sink, line.as_bytes()).is_err() {
        return Err(Stop::SinkFault);
    }
    if served.fault {
        return Err(Stop::DoorFault);
    }
    if served.short {
        return Err(Stop::Memory);
    }
    Ok(())
}
