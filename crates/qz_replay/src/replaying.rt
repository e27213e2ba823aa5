//! Replaying the steps of one slot.

ghost use Rattle.std.specs.Prelude.{◌≡◌, ◌<◌, ◌≤◌, ◌^◌, length, string_bytes, IfOk, MatchResult, Some, None};
ghost use Rattle.std.specs.Result.{result_ok};
ghost use Rattle.qz_ending.specs.Endings.{Ended};
ghost use Rattle.qz_wire.specs.Lines.{lines_of};
ghost use Rattle.qz_replay.specs.Plays.{IsAskable};
ghost use Rattle.qz_replay.specs.Readings.{Gives};
ghost use Rattle.qz_wire.specs.Numbered.{or_line};
ghost use Rattle.qz_replay.specs.Replayed.{asked_of, with_front, replayed, steps_told};
ghost use Rattle.qz_replay.specs.ReplayEndings.{ReplayEnds, ReplaysAll};
ghost use Rattle.qz_wire.specs.Words.{words_of};

use crate::asked::{Asked, asked_on};
use crate::played::Played;
use crate::reading::head_at;
use crate::saying::{first_line_onto, told_line_onto};
use qz_decimal::Mark;
use qz_ending::Stop;
use qz_grading::Steps;
use qz_outside::{Sink, Source, read_all, write_all};
use qz_wire::{WordFault, split_line};
use std::alloc::Global;
use std::marker::Brand;
use std::sync::ledger::{Blank, Ledger};

/// How many lines stand before the first step.
const HEAD: u32 = 5;

/// A replay text has at most so many bytes.
const LIMIT: usize = 8_388_608;

/// Reads a replay text to its end and writes what comes of its steps, one line each. Answers the exit status.
///
/// A text that has no reading is told by `malformed LINE` alone and status 3. Nothing is written with the statuses 4 (the source
/// failed), 8 (memory was wanting) and 9 (the text is longer than 8,388,608 bytes), and a front of the output with 5 (the sink failed).
pub fn replay<S: Source, O: Sink>(alloc: Global, source: &mut S, sink: &mut O) -> u8
    ensures ended { Ended
        (ReplayEnds
        (record { left = S.left source.old; source_faults = S.faults source.old; holds = O.holds sink.old; sink_faults = O.faults sink.old })
        (record { left = S.left source.new; source_faults = S.faults source.new; holds = O.holds sink.new; sink_faults = O.faults sink.new }))
        result }
    ensures complete { ReplaysAll
        (record { left = S.left source.old; source_faults = S.faults source.old; holds = O.holds sink.old; sink_faults = O.faults sink.old })
        (record { left = S.left source.new; source_faults = S.faults source.new; holds = O.holds sink.new; sink_faults = O.faults sink.new })
        result }
{
    match replay_or_stop(alloc, source, sink) {
        Ok(()) => 0,
        Err(stop) => stop.status(),
    }
}

fn replay_or_stop<S: Source, O: Sink>(
    alloc: Global,
    source: &mut S,
    sink: &mut O,
) -> Result<(), Stop>
    ensures { let ends = ReplayEnds
        (record { left = S.left source.old; source_faults = S.faults source.old; holds = O.holds sink.old; sink_faults = O.faults sink.old })
        (record { left = S.left source.new; source_faults = S.faults source.new; holds = O.holds sink.new; sink_faults = O.faults sink.new })
        in MatchResult result (λ _. ends None) (λ stop. ends (Some stop)) }
{
    let text = read_all(alloc, source, LIMIT)?;
    match output(alloc, text.as_slice()) {
        Ok(out) => {
            if write_all(sink, out.as_bytes()).is_err() {
                return Err(Stop::SinkFault);
            }
            Ok(())
        }
        Err(Stop::Malformed { line }) => {
            let out = format!(in alloc; "malformed {line}\n")?;
            if write_all(sink, out.as_bytes()).is_err() {
                return Err(Stop::SinkFault);
            }
            Err(Stop::Malformed { line })
        }
        Err(stop) => Err(stop),
    }
}

/// The output of a replay text. Gradings are counted by nobody.
fn output(alloc: Global, text: &[u8]) -> Result<String, Stop>
    requires { length text.now ≤ 2 ^ 31 }
    ensures { Gives (λ out. string_bytes out) result (replayed text.now) }
{
    counted_output::<Brand>(Blank::new(1), alloc, text)
}

#[tactic(auto, unfolding(crate::specs::Replayed::replayed))]
fn counted_output<L: Ledger>(blank: Blank, alloc: Global, text: &[u8]) -> Result<String, Stop>
    requires name { blank.name ≡ L.name }
    requires parts { blank.parts ≡ L.parts }
    requires some_part { 0 < blank.parts }
    requires short { length text.now ≤ 2 ^ 31 }
    ensures { Gives (λ out. string_bytes out) result (replayed text.now) }
{
    let mut rest = text;
    let slot = head_at(alloc, &mut rest)?;
    let played = Played::new(alloc, slot)?;
    let mut out = String::new(alloc);
    first_line_onto(&mut out, &played)?;
    lines_behind(alloc, out, played, rest, &mut Steps::<L>::open(blank))
}

/// The lines of what is asked, behind what was said before them.
fn lines_behind<L: Ledger>(
    alloc: Global,
    mut out: String,
    mut played: Played,
    text: &[u8],
    steps: &mut Steps<L>,
) -> Result<String, Stop>
    requires { length text.now ≤ 2 ^ 31 }
    ensures { Gives (λ said. string_bytes said) result (with_front (string_bytes out) (steps_told 1 played (lines_of text.now))) }
{
    let mut rest = text;
    let mut number = 1u32;
    while let Some((line, after)) = split_line(rest) {
        let asked = asked_at(alloc, line, number + HEAD, played.max())?;
        let fate = played.take(asked, steps)?;
        told_line_onto(&mut out, number, fate, &played)?;
        rest = after;
        number += 1;
    }
    Ok(out)
}

/// What the line with this number in the text asks for, where this max mark is bound.
fn asked_at(alloc: Global, text: &[u8], line: u32, max: Mark) -> Result<Asked, Stop>
    ensures value { Gives (λ x. x) result (or_line line (result_ok (asked_of max (words_of text.now)))) }
    ensures askable { IfOk result (IsAskable max) }
{
    match asked_on(alloc, text, max) {
        Ok(asked) => Ok(asked),
        Err(WordFault::Malformed { .. }) => Err(Stop::Malformed { line }),
        Err(WordFault::Memory) => Err(Stop::Memory),
    }
}
