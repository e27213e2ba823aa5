//! The question that the GIFT text of a word has.

ghost use Rattle.std.specs.Prelude.{◌≡◌, ◌≤◌, [], replicate, IfOk, IfSome};
ghost use Rattle.qz_decimal.specs.Reading.{IsWrittenFraction};
ghost use Rattle.qz_grading.specs.Questions.{IsQuestion};
ghost use Rattle.qz_replay.specs.Replay.{question_of, as_version};

use gift_read::{GiftFault, read};
use qz_decimal::Fraction;
use qz_grading::Question;
use qz_text::{Listed, NoMemory, Text};
use qz_wire::{only_question, text_in};
use std::alloc::Global;

/// The question of a word that spells a GIFT text of exactly one.
pub fn question_in(alloc: Global, word: &[u8]) -> Result<Option<Question>, NoMemory>
    ensures value { IfOk result (λ found. found ≡ question_of word.now) }
    ensures question { IfOk result (λ found. IfSome found IsQuestion) }
{
    let Some(text) = text_in(alloc, word)? else {
        return Ok(None);
    };
    match read(alloc, text.as_slice()) {
        Ok(bank) => Ok(only_question(bank.items)),
        Err(GiftFault::Malformed { .. }) => Ok(None),
        Err(GiftFault::Memory) => Err(NoMemory),
    }
}

/// So many empty hints.
fn empty_hints(alloc: Global, count: u32) -> Result<Listed<Text>, NoMemory>
    ensures { IfOk result (λ made. made ≡ replicate count []) }
{
    let mut items = Vec::new(alloc);
    for _ in 0..count {
        items.push(Text::of(alloc, "")?)?;
    }
    Ok(Listed { items })
}

/// The question with this penalty, and with so many empty hints.
pub fn as_version(
    alloc: Global,
    mut question: Question,
    penalty: Fraction,
    hints: u32,
) -> Result<Question, NoMemory>
    requires question { IsQuestion question }
    requires penalty { IsWrittenFraction penalty }
    requires hints { hints ≤ 20 }
    ensures value { IfOk result (λ made. made ≡ as_version penalty hints question) }
    ensures question { IfOk result IsQuestion }
{
    question.penalty = penalty;
    question.hints = empty_hints(alloc, hints)?;
    Ok(question)
}
