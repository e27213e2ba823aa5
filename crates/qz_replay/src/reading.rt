//! Reading the five lines at the head of a replay text, and words of its lines.

ghost use Rattle.std.specs.Prelude.{◌≡◌, ◌≤◌, length, Some, IfSome, IfOk};
ghost use Rattle.qz_decimal.specs.Numbers.{IsMaxMark};
ghost use Rattle.qz_decimal.specs.Reading.{IsWrittenFraction};
ghost use Rattle.qz_grading.specs.Questions.{IsQuestion};
ghost use Rattle.qz_wire.specs.Lines.{lines_of, after};
ghost use Rattle.qz_replay.specs.Plays.{IsPlayable};
ghost use Rattle.qz_replay.specs.Readings.{Gives};
ghost use Rattle.qz_replay.specs.Replay.{behaviour_line, max_of, max_line, penalty_line, hints_of, hints_line, question_line, head_of};
ghost use Rattle.qz_wire.specs.Numbered.{line_at};

use crate::questions::{as_version, question_in};
use crate::slot::Slot;
use qz_decimal::{Fraction, Mark};
use qz_ending::Stop;
use qz_grading::{Behaviour, Question};
use qz_text::NoMemory;
use qz_wire::{after, behaviour_in, cut, number, penalty_in, split_line};
use std::alloc::Global;

/// The greatest max mark, 10,000 in units of 10^-7.
const MOST: i64 = 100_000_000_000;

fn behaviour_on(line: &[u8]) -> Option<Behaviour>
    ensures { result ≡ behaviour_line line.now }
{
    behaviour_in(after(line, b"behaviour ")?)
}

pub fn max_in(word: &[u8]) -> Option<Mark>
    ensures value { result ≡ max_of word.now }
    ensures range { IfSome result IsMaxMark }
{
    let max = Mark::read(word).ok()?;
    if 0 <= max.0 && max.0 <= MOST {
        Some(max)
    } else {
        None
    }
}

fn max_on(line: &[u8]) -> Option<Mark>
    ensures value { result ≡ max_line line.now }
    ensures range { IfSome result IsMaxMark }
{
    max_in(after(line, b"max ")?)
}

fn penalty_on(line: &[u8]) -> Option<Fraction>
    ensures value { result ≡ penalty_line line.now }
    ensures range { IfSome result IsWrittenFraction }
{
    penalty_in(after(line, b"penalty ")?)
}

pub fn hints_in(word: &[u8]) -> Option<u32>
    ensures value { result ≡ hints_of word.now }
    ensures range { IfSome result (λ n. n ≤ 20) }
{
    number(word, 0, 20)
}

fn hints_on(line: &[u8]) -> Option<u32>
    ensures value { result ≡ hints_line line.now }
    ensures range { IfSome result (λ n. n ≤ 20) }
{
    hints_in(after(line, b"hints ")?)
}

fn question_on(alloc: Global, line: &[u8]) -> Result<Option<Question>, NoMemory>
    ensures value { IfOk result (λ found. found ≡ question_line line.now) }
    ensures question { IfOk result (λ found. IfSome found IsQuestion) }
{
    let Some(word) = after(line, b"question ") else {
        return Ok(None);
    };
    if let Some(_) = cut(word, b' ') {
        return Ok(None);
    }
    question_in(alloc, word)
}

/// The first line, which `rest` then stands behind; this line is missing where there is none.
fn first_line<'a>(rest: &mut &'a [u8], line: u32) -> Result<&'a [u8], Stop>
    ensures value { Gives (λ r. (r.now, lines_of rest.new.now)) result (line_at (λ l. Some l) line (lines_of rest.old.now)) }
    ensures shorter { length rest.new.now ≤ length rest.old.now }
{
    let (first, after) = split_line(rest).ok_or(Stop::Malformed { line })?;
    *rest = after;
    Ok(first)
}

/// The behaviour on the first line, which `rest` then stands behind.
fn behaviour_at(rest: &mut &[u8]) -> Result<Behaviour, Stop>
    ensures value { Gives (λ x. (x, lines_of rest.new.now)) result (line_at behaviour_line 1 (lines_of rest.old.now)) }
    ensures shorter { length rest.new.now ≤ length rest.old.now }
{
    behaviour_on(first_line(rest, 1)?).ok_or(Stop::Malformed { line: 1 })
}

fn max_at(rest: &mut &[u8]) -> Result<Mark, Stop>
    ensures value { Gives (λ x. (x, lines_of rest.new.now)) result (line_at max_line 2 (lines_of rest.old.now)) }
    ensures shorter { length rest.new.now ≤ length rest.old.now }
    ensures range { IfOk result IsMaxMark }
{
    max_on(first_line(rest, 2)?).ok_or(Stop::Malformed { line: 2 })
}

fn penalty_at(rest: &mut &[u8]) -> Result<Fraction, Stop>
    ensures value { Gives (λ x. (x, lines_of rest.new.now)) result (line_at penalty_line 3 (lines_of rest.old.now)) }
    ensures range { IfOk result IsWrittenFraction }
    ensures shorter { length rest.new.now ≤ length rest.old.now }
{
    penalty_on(first_line(rest, 3)?).ok_or(Stop::Malformed { line: 3 })
}

fn hints_at(rest: &mut &[u8]) -> Result<u32, Stop>
    ensures value { Gives (λ x. (x, lines_of rest.new.now)) result (line_at hints_line 4 (lines_of rest.old.now)) }
    ensures range { IfOk result (λ n. n ≤ 20) }
    ensures shorter { length rest.new.now ≤ length rest.old.now }
{
    hints_on(first_line(rest, 4)?).ok_or(Stop::Malformed { line: 4 })
}

fn question_at(alloc: Global, rest: &mut &[u8]) -> Result<Question, Stop>
    ensures value { Gives (λ x. (x, lines_of rest.new.now)) result (line_at question_line 5 (lines_of rest.old.now)) }
    ensures question { IfOk result IsQuestion }
    ensures shorter { length rest.new.now ≤ length rest.old.now }
{
    match question_on(alloc, first_line(rest, 5)?)? {
        Some(question) => Ok(question),
        None => Err(Stop::Malformed { line: 5 }),
    }
}

/// The slot that the first five lines describe. `rest` then stands behind them.
#[tactic(auto, unfolding(crate::specs::Replay::head_of))]
pub fn head_at(alloc: Global, rest: &mut &[u8]) -> Result<Slot, Stop>
    ensures value { Gives (λ x. (x, lines_of rest.new.now)) result (head_of (lines_of rest.old.now)) }
    ensures playable { IfOk result IsPlayable }
    ensures shorter { length rest.new.now ≤ length rest.old.now }
{
    let behaviour = behaviour_at(rest)?;
    let max = max_at(rest)?;
    let penalty = penalty_at(rest)?;
    let hints = hints_at(rest)?;
    let question = question_at(alloc, rest)?;
    Ok(Slot {
        behaviour,
        max,
        question: as_version(alloc, question, penalty, hints)?,
    })
}
