//! Answering the lines of a script.

ghost use Rattle.std.specs.Prelude.{◌≡◌, ◌<◌, ◌^◌, length, MatchResult, Some, None};
ghost use Rattle.qz_script.specs.ScriptLines.{kept_item};
ghost use Rattle.qz_asking.specs.Following.{Follows};
ghost use Rattle.qz_ending.specs.Endings.{Ended};
ghost use Rattle.qz_script.specs.Retries.{AnswersOnce, GoesOnce, TakesLines};
ghost use Rattle.qz_script.specs.Scripts.{AnswersLine, AnswerStops, Says, SayStops, ServeEnds, ServesAll};

use crate::script_input::{Given, ScriptInput};
use crate::script_line::ScriptLine;
use qz_ending::Stop;
use qz_grading::Refusal;
use qz_outside::{Sink, Source, write_all};
use qz_replies::line_of;
use qz_terms::{Desk, Reply};
use qz_text::NoMemory;
use std::alloc::Global;

/// So many bytes one call reads at most.
const CHUNK: usize = 65_536;

/// A script has at most so many bytes.
pub const LIMIT: usize = 1_073_741_824;

/// Answers the lines of a source over a desk, each before the next is read, and answers the exit status.
///
/// The desk takes whatever a line can ask, and what was accepted with its key is told again. Where a keeper of its lists fails the reply
/// says so, the desk's count of faults rises, and the next line is answered. Nothing but requests changes the desk.
/// With the statuses 4 (the source failed) and 9 (the source has more than `limit` bytes) the whole lines among what was read within the
/// limit are answered, and with 5 (the sink failed) and 8 (memory was wanting) the first of them, and a front of the replies is written.
pub fn serve<D: Desk, S: Source, O: Sink>(
    alloc: Global,
    limit: usize,
    desk: &mut D,
    source: &mut S,
    sink: &mut O,
) -> u8
    requires limit { limit < 2 ^ 32 }
    requires takes { TakesLines D.takes }
    requires answers { AnswersOnce D.lists D.faults D.answers }
    ensures ended { Ended
        (ServeEnds limit
        (record { lists = D.lists desk.old; faults = D.faults desk.old })
        (record { lists = D.lists desk.new; faults = D.faults desk.new })
        (record { left = S.left source.old; source_faults = S.faults source.old; holds = O.holds sink.old; sink_faults = O.faults sink.old })
        (record { left = S.left source.new; source_faults = S.faults source.new; holds = O.holds sink.new; sink_faults = O.faults sink.new }))
        result }
    ensures follows { Follows D.answers desk.old desk.new }
    ensures complete { ServesAll limit
        (record { left = S.left source.old; source_faults = S.faults source.old; holds = O.holds sink.old; sink_faults = O.faults sink.old })
        (record { left = S.left source.new; source_faults = S.faults source.new; holds = O.holds sink.new; sink_faults = O.faults sink.new })
        result }
{
    match serve_or_stop(alloc, limit, desk, source, sink) {
        Ok(()) => 0,
        Err(stop) => stop.status(),
    }
}

fn serve_or_stop<D: Desk, S: Source, O: Sink>(
    alloc: Global,
    limit: usize,
    desk: &mut D,
    source: &mut S,
    sink: &mut O,
) -> Result<(), Stop>
    requires limit { limit < 2 ^ 32 }
    requires takes { TakesLines D.takes }
    requires answers { AnswersOnce D.lists D.faults D.answers }
    ensures ended { let ends = ServeEnds limit
        (record { lists = D.lists desk.old; faults = D.faults desk.old })
        (record { lists = D.lists desk.new; faults = D.faults desk.new })
        (record { left = S.left source.old; source_faults = S.faults source.old; holds = O.holds sink.old; sink_faults = O.faults sink.old })
        (record { left = S.left source.new; source_faults = S.faults source.new; holds = O.holds sink.new; sink_faults = O.faults sink.new })
        in MatchResult result (λ _. ends None) (λ stop. ends (Some stop)) }
    ensures follows { Follows D.answers desk.old desk.new }
{
    let Ok(mut room) = vec![in alloc; 0u8; CHUNK] else {
        return Err(Stop::Memory);
    };
    serve_through(alloc, limit, desk, source, sink, &mut room)
}

/// Answers the lines of a source that is read through a room.
fn serve_through<D: Desk, S: Source, O: Sink>(
    alloc: Global,
    limit: usize,
    desk: &mut D,
    source: &mut S,
    sink: &mut O,
    room: &mut [u8],
) -> Result<(), Stop>
    requires limit { limit < 2 ^ 32 }
    requires takes { TakesLines D.takes }
    requires answers { AnswersOnce D.lists D.faults D.answers }
    requires room { 0 < length room.old }
    ensures ended { let ends = ServeEnds limit
        (record { lists = D.lists desk.old; faults = D.faults desk.old })
        (record { lists = D.lists desk.new; faults = D.faults desk.new })
        (record { left = S.left source.old; source_faults = S.faults source.old; holds = O.holds sink.old; sink_faults = O.faults sink.old })
        (record { left = S.left source.new; source_faults = S.faults source.new; holds = O.holds sink.new; sink_faults = O.faults sink.new })
        in MatchResult result (λ _. ends None) (λ stop. ends (Some stop)) }
    ensures follows { Follows D.answers desk.old desk.new }
{
    let mut input = ScriptInput::new(alloc, limit);
    loop {
        match input.next(alloc, source, room)? {
            Given::Line(line) => answer(alloc, desk, sink, &line)?,
            Given::Last(line) => return answer(alloc, desk, sink, &line),
            Given::End => return Ok(()),
        }
    }
}

/// Answers a line, and writes its reply.
fn answer<D: Desk, O: Sink>(
    alloc: Global,
    desk: &mut D,
    sink: &mut O,
    line: &ScriptLine,
) -> Result<(), Stop>
    requires takes { TakesLines D.takes }
    requires answers { AnswersOnce D.lists D.faults D.answers }
    ensures answered { MatchResult result
        (λ _. AnswersLine
        (record { lists = D.lists desk.old; faults = D.faults desk.old })
        (record { lists = D.lists desk.new; faults = D.faults desk.new })
        (O.holds sink.old) (O.holds sink.new) (O.faults sink.old) (O.faults sink.new) line.now)
        (AnswerStops
        (record { lists = D.lists desk.old; faults = D.faults desk.old })
        (record { lists = D.lists desk.new; faults = D.faults desk.new })
        (O.holds sink.old) (O.holds sink.new) (O.faults sink.old) (O.faults sink.new) line.now) }
    ensures follows { Follows D.answers desk.old desk.new }
{
    match reply_to(alloc, desk, line) {
        Ok(reply) => say(alloc, sink, &reply),
        Err(NoMemory) => Err(Stop::Memory),
    }
}

/// The reply to a line.
fn reply_to<D: Desk>(alloc: Global, desk: &mut D, line: &ScriptLine) -> Result<Reply, NoMemory>
    requires takes { TakesLines D.takes }
    requires answers { AnswersOnce D.lists D.faults D.answers }
    ensures goes { MatchResult result
        (GoesOnce
        (record { lists = D.lists desk.old; faults = D.faults desk.old })
        (record { lists = D.lists desk.new; faults = D.faults desk.new })
        (kept_item line.now))
        (λ _. desk.new ≡ desk.old) }
    ensures follows { Follows D.answers desk.old desk.new }
{
    match line.item(alloc) {
        Ok((moment, ask)) => Ok(desk.ask(alloc, &ask, moment)),
        Err(Refusal::Malformed { place, rule }) => {
            Ok(Reply::Refused(Refusal::Malformed { place, rule }))
        }
        Err(Refusal::Memory) => Err(NoMemory),
        Err(_) => unreachable!(),
    }
}

/// Writes a reply.
fn say<O: Sink>(alloc: Global, sink: &mut O, reply: &Reply) -> Result<(), Stop>
    ensures { MatchResult result (λ _. Says (O.holds sink.old) (O.holds sink.new) (O.faults sink.old) (O.faults sink.new) reply.now)
        (SayStops (O.holds sink.old) (O.holds sink.new) (O.faults sink.old) (O.faults sink.new) reply.now) }
{
    let Ok(said) = line_of(alloc, reply) else {
        return Err(Stop::Memory);
    };
    if write_all(sink, said.as_bytes()).is_err() {
        return Err(Stop::SinkFault);
    }
    Ok(())
}
