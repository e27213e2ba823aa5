//! What a line of a replay asks for.

ghost use Rattle.std.specs.Prelude.{◌≡◌, ◌≤◌, IfOk, IfSome, ℤ};
ghost use Rattle.qz_decimal.specs.Numbers.{IsMaxMark};
ghost use Rattle.qz_grading.specs.Questions.{IsQuestion};
ghost use Rattle.qz_replay.specs.Plays.{IsAskable};
ghost use Rattle.qz_wire.specs.Numbered.{line_at as word_at};
ghost use Rattle.qz_replay.specs.Replay.{max_of, hints_of, question_of};
ghost use Rattle.qz_replay.specs.Replayed.{deed_of, response_of, given_of, version_of, asked_by, asked_of};
ghost use Rattle.qz_wire.specs.Words.{words_of, words_after, certainty_of, Reads};

use crate::questions::{as_version, question_in};
use crate::reading::{hints_in, max_in};
use crate::slot::Version;
use qz_decimal::Mark;
use qz_grading::{Question, Response, Step};
use qz_wire::{
    WordFault, answer_at, certainty_at, end, first_word, mark_at, next_word, penalty_at,
};
use std::alloc::Global;

/// What a line asks for.
#[derive(Drop)]
pub enum Asked {
    /// A step on the slot.
    Step(Step),
    /// A newer version is bound.
    Bind(Version),
}

/// The first word of a line.
#[derive(Clone, Copy, PartialEq, Eq)]
pub enum Deed {
    Save,
    Submit,
    Again,
    Finish,
    Mark,
    Bind,
}

fn deed_in(word: &[u8]) -> Option<Deed>
    ensures { result ≡ deed_of word.now }
{
    if word == b"save".as_slice() {
        Some(Deed::Save)
    } else if word == b"submit".as_slice() {
        Some(Deed::Submit)
    } else if word == b"again".as_slice() {
        Some(Deed::Again)
    } else if word == b"finish".as_slice() {
        Some(Deed::Finish)
    } else if word == b"mark".as_slice() {
        Some(Deed::Mark)
    } else if word == b"bind".as_slice() {
        Some(Deed::Bind)
    } else {
        None
    }
}

fn max_at(rest: &mut &[u8], place: u32) -> Result<Mark, WordFault>
    ensures value { Reads (λ x. (x, words_after rest.new.now)) result (word_at max_of place (words_after rest.old.now)) }
    ensures range { IfOk result IsMaxMark }
{
    max_in(next_word(rest, place)?).ok_or(WordFault::Malformed { place })
}

fn hints_at(rest: &mut &[u8], place: u32) -> Result<u32, WordFault>
    ensures value { Reads (λ x. (x, words_after rest.new.now)) result (word_at hints_of place (words_after rest.old.now)) }
    ensures range { IfOk result (λ n. n ≤ 20) }
{
    hints_in(next_word(rest, place)?).ok_or(WordFault::Malformed { place })
}

fn question_at(alloc: Global, rest: &mut &[u8], place: u32) -> Result<Question, WordFault>
    ensures value { Reads (λ x. (x, words_after rest.new.now)) result (word_at question_of place (words_after rest.old.now)) }
    ensures question { IfOk result IsQuestion }
{
    match question_in(alloc, next_word(rest, place)?)? {
        Some(question) => Ok(question),
        None => Err(WordFault::Malformed { place }),
    }
}

/// The certainty and the answer of a Save or a Submit.
#[tactic(auto, unfolding(crate::specs::Replayed::response_of))]
fn response(alloc: Global, mut rest: &[u8]) -> Result<Response, WordFault>
    ensures { Reads (λ x. x) result (response_of (words_after rest.now)) }
{
    let certainty = certainty_at(&mut rest, 2)?;
    let answer = answer_at(alloc, &mut rest, 3)?;
    end(rest, 4)?;
    Ok(Response { answer, certainty })
}

/// The mark that a teacher gives.
#[tactic(auto, unfolding(crate::specs::Replayed::given_of))]
fn given(mut rest: &[u8]) -> Result<Mark, WordFault>
    ensures { Reads (λ x. x) result (given_of (words_after rest.now)) }
{
    let mark = mark_at(&mut rest, 2)?;
    end(rest, 3)?;
    Ok(mark)
}

#[tactic(auto, unfolding(crate::specs::Replayed::version_of))]
fn version(alloc: Global, mut rest: &[u8]) -> Result<Version, WordFault>
    ensures value { Reads (λ x. x) result (version_of (words_after rest.now)) }
    ensures max { IfOk result (λ v. IsMaxMark v.max) }
    ensures question { IfOk result (λ v. IsQuestion v.question) }
{
    let max = max_at(&mut rest, 2)?;
    let penalty = penalty_at(&mut rest, 3)?;
    let hints = hints_at(&mut rest, 4)?;
    let question = question_at(alloc, &mut rest, 5)?;
    end(rest, 6)?;
    Ok(Version {
        max,
        question: as_version(alloc, question, penalty, hints)?,
    })
}

/// What the words behind the first make of it. A mark is out of the max mark that is bound now.
fn asked_by(alloc: Global, deed: Deed, max: Mark, rest: &[u8]) -> Result<Asked, WordFault>
    ensures value { Reads (λ x. x) result (asked_by deed max (words_after rest.now)) }
    ensures askable { IfOk result (IsAskable max) }
{
    match deed {
        Deed::Save => Ok(Asked::Step(Step::Save(response(alloc, rest)?))),
        Deed::Submit => Ok(Asked::Step(Step::Submit(response(alloc, rest)?))),
        Deed::Again => {
            end(rest, 2)?;
            Ok(Asked::Step(Step::Again))
        }
        Deed::Finish => {
            end(rest, 2)?;
            Ok(Asked::Step(Step::Finish))
        }
        Deed::Mark => {
            let mark = given(rest)?;
            Ok(Asked::Step(Step::Mark { mark, max }))
        }
        Deed::Bind => Ok(Asked::Bind(version(alloc, rest)?)),
    }
}

/// What a line asks for.
#[tactic(auto, unfolding(crate::specs::Replayed::asked_of))]
pub fn asked_on(alloc: Global, line: &[u8], max: Mark) -> Result<Asked, WordFault>
    ensures value { Reads (λ x. x) result (asked_of max (words_of line.now)) }
    ensures askable { IfOk result (IsAskable max) }
{
    let (word, rest) = first_word(line);
    let deed = deed_in(word).ok_or(WordFault::Malformed { place: 1 })?;
    asked_by(alloc, deed, max, rest)
}
