//! What the word of a response answers.

ghost use Rattle.std.specs.Prelude.{◌≡◌, ◌≤◌, true, IfOk, IfSome};
ghost use Rattle.qz_terms.specs.Kept.{is_answer};
ghost use Rattle.qz_wire.specs.Answers.{pick_of, numbers_of, picks_of, match_of, typed_of, answer_of};

use crate::escapes::unescaped;
use crate::lines::{after, number};
use crate::words::cut;
use qz_grading::{Answer, MOST_PARTS, MOST_TEXT};
use qz_text::{Listed, NoMemory, Typed};
use std::alloc::Global;

fn pick_in(word: &[u8]) -> Option<Answer>
    ensures { result ≡ pick_of word.now }
{
    let choice = number(word, 1, MOST_PARTS as u32)?;
    Some(Answer::Pick(choice as u8))
}

/// One number or more, from `low` to 64.
fn numbers_in(alloc: Global, word: &[u8], low: u32) -> Result<Option<Listed<u8>>, NoMemory>
    ensures { IfOk result (λ found. found ≡ numbers_of low word.now) }
{
    let mut items = Vec::new(alloc);
    let mut rest = word;
    while let Some((part, behind)) = cut(rest, b',') {
        let Some(value) = number(part, low, MOST_PARTS as u32) else {
            return Ok(None);
        };
        items.push(value as u8)?;
        rest = behind;
    }
    let Some(value) = number(rest, low, MOST_PARTS as u32) else {
        return Ok(None);
    };
    items.push(value as u8)?;
    Ok(Some(Listed { items }))
}

fn picks_in(alloc: Global, word: &[u8]) -> Result<Option<Answer>, NoMemory>
    ensures { IfOk result (λ found. found ≡ picks_of word.now) }
{
    match numbers_in(alloc, word, 1)? {
        Some(choices) => Ok(Some(Answer::Picks(choices))),
        None => Ok(None),
    }
}

fn match_in(alloc: Global, word: &[u8]) -> Result<Option<Answer>, NoMemory>
    ensures { IfOk result (λ found. found ≡ match_of word.now) }
{
    match numbers_in(alloc, word, 0)? {
        Some(answers) => Ok(Some(Answer::Match(answers))),
        None => Ok(None),
    }
}

/// A typed text, which may be empty.
fn typed_in(alloc: Global, word: &[u8]) -> Result<Option<Answer>, NoMemory>
    ensures value { IfOk result (λ found. found ≡ typed_of word.now) }
    ensures kept { IfOk result (λ found. IfSome found (λ a. is_answer a ≡ true)) }
{
    let Some(found) = unescaped(alloc, word)? else {
        return Ok(None);
    };
    let bytes = found.as_slice();
    if bytes.len() > MOST_TEXT {
        return Ok(None);
    }
    match str::from_utf8(bytes) {
        Ok(text) => Ok(Some(Answer::Words(Typed::of(alloc, text)?))),
        Err(_) => Ok(None),
    }
}

/// The answer that a word gives.
pub fn answer_in(alloc: Global, word: &[u8]) -> Result<Option<Answer>, NoMemory>
    ensures value { IfOk result (λ found. found ≡ answer_of word.now) }
    ensures kept { IfOk result (λ found. IfSome found (λ a. is_answer a ≡ true)) }
{
    if word == b"blank".as_slice() {
        return Ok(Some(Answer::Blank));
    }
    if let Some(choice) = after(word, b"pick:") {
        return Ok(pick_in(choice));
    }
    if let Some(choices) = after(word, b"picks:") {
        return picks_in(alloc, choices);
    }
    if let Some(answers) = after(word, b"match:") {
        return match_in(alloc, answers);
    }
    if let Some(text) = after(word, b"text:") {
        return typed_in(alloc, text);
    }
    Ok(None)
}
