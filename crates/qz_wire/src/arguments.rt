//! The words of a request, one behind the other. Each reader takes the next word, behind which `rest` then stands; the word has
//! the number that is given.

ghost use Rattle.std.specs.List.{list_all};
ghost use Rattle.std.specs.Prelude.{◌≡◌, ◌≤◌, true, length, All, map, IfOk};
ghost use Rattle.qz_decimal.specs.Reading.{IsWrittenFraction};
ghost use Rattle.qz_grading.specs.declared.question.Item.{Item};
ghost use Rattle.qz_grading.specs.Questions.{IsQuestion};
ghost use Rattle.qz_terms.specs.Kept.{is_answer, are_hints, is_described, is_moment, is_duration, is_allowed, if_there, is_quiz_grade};
ghost use Rattle.qz_wire.specs.Answers.{answer_of};
ghost use Rattle.qz_wire.specs.BankWords.{name_of, role_of, behaviour_of, handling_of, review_of, whom_of, method_of, mark_of, penalty_of, quiz_grade_of, hints_of};
ghost use Rattle.qz_wire.specs.Brief.{IsBriefToken};
ghost use Rattle.qz_wire.specs.Faults.{ReadsOr};
ghost use Rattle.qz_wire.specs.Requests.{bank_at, question_at};
ghost use Rattle.qz_wire.specs.Numbered.{end_at, line_at as word_at};
ghost use Rattle.qz_wire.specs.Words.{words_after, moment_of, number_of, slot_of, shard_of, certainty_of, duration_of, allowed_of, attempt_of, text_of, token_of, or_dash, Reads};

use crate::answers::answer_in;
use crate::bank_words::{
    behaviour_in, gift_in, handling_in, hints_in, mark_in, method_in, name_in, penalty_in,
    question_in, quiz_grade_in, review_in, role_in, whom_in,
};
use crate::escapes::text_in;
use crate::words::{
    WordFault, allowed_in, attempt_in, certainty_in, duration_in, moment_in, next_word, number_in,
    own_allowed_in, own_duration_in, own_moment_in, shard_in, slot_in, token_in,
};
use qz_decimal::{Fraction, Grade, Mark};
use qz_grading::{Answer, AttemptId, Bank, Behaviour, Question, Refusal};
use qz_terms::{Handling, Method, Review, Role, Whom};
use qz_text::{Bytes, Listed, Text};
use std::alloc::Global;

pub fn malformed(place: u32) -> WordFault
    ensures { result ≡ WordFault.Malformed place }
{
    WordFault::Malformed { place }
}

/// No word is left.
pub fn end(rest: &[u8], place: u32) -> Result<(), WordFault>
    ensures { Reads (λ x. x) result (end_at place tt (words_after rest.now)) }
{
    if rest.is_empty() {
        Ok(())
    } else {
        Err(malformed(place))
    }
}

// ---- numbers

/// The number of a thing.
pub fn number_at(rest: &mut &[u8], place: u32) -> Result<u32, WordFault>
    ensures { Reads (λ x. (x, words_after rest.new.now)) result (word_at number_of place (words_after rest.old.now)) }
{
    number_in(next_word(rest, place)?).ok_or(WordFault::Malformed { place })
}

pub fn attempt_at(rest: &mut &[u8], place: u32) -> Result<AttemptId, WordFault>
    ensures { Reads (λ x. (x, words_after rest.new.now)) result (word_at attempt_of place (words_after rest.old.now)) }
{
    attempt_in(next_word(rest, place)?).ok_or(WordFault::Malformed { place })
}

pub fn slot_at(rest: &mut &[u8], place: u32) -> Result<u16, WordFault>
    ensures { Reads (λ x. (x, words_after rest.new.now)) result (word_at slot_of place (words_after rest.old.now)) }
{
    slot_in(next_word(rest, place)?).ok_or(WordFault::Malformed { place })
}

pub fn shard_at(rest: &mut &[u8], place: u32) -> Result<u8, WordFault>
    ensures { Reads (λ x. (x, words_after rest.new.now)) result (word_at shard_of place (words_after rest.old.now)) }
{
    shard_in(next_word(rest, place)?).ok_or(WordFault::Malformed { place })
}

/// The certainty that the next word gives.
pub fn certainty_at(rest: &mut &[u8], place: u32) -> Result<u8, WordFault>
    ensures value { Reads (λ x. (x, words_after rest.new.now)) result (word_at certainty_of place (words_after rest.old.now)) }
    ensures range { IfOk result (λ certainty. certainty ≤ 3) }
{
    certainty_in(next_word(rest, place)?).ok_or(WordFault::Malformed { place })
}

pub fn mark_at(rest: &mut &[u8], place: u32) -> Result<Mark, WordFault>
    ensures { Reads (λ x. (x, words_after rest.new.now)) result (word_at mark_of place (words_after rest.old.now)) }
{
    mark_in(next_word(rest, place)?).ok_or(WordFault::Malformed { place })
}

pub fn penalty_at(rest: &mut &[u8], place: u32) -> Result<Fraction, WordFault>
    ensures value { Reads (λ x. (x, words_after rest.new.now)) result (word_at penalty_of place (words_after rest.old.now)) }
    ensures range { IfOk result IsWrittenFraction }
{
    penalty_in(next_word(rest, place)?).ok_or(WordFault::Malformed { place })
}

pub fn quiz_grade_at(rest: &mut &[u8], place: u32) -> Result<Grade, WordFault>
    ensures value { Reads (λ x. (x, words_after rest.new.now)) result (word_at quiz_grade_of place (words_after rest.old.now)) }
    ensures range { IfOk result (λ grade. is_quiz_grade grade ≡ true) }
{
    quiz_grade_in(next_word(rest, place)?).ok_or(WordFault::Malformed { place })
}

// ---- settings

pub fn moment_at(rest: &mut &[u8], place: u32) -> Result<u64, WordFault>
    ensures value { Reads (λ x. (x, words_after rest.new.now)) result (word_at moment_of place (words_after rest.old.now)) }
    ensures range { IfOk result (λ moment. is_moment moment ≡ true) }
{
    moment_in(next_word(rest, place)?).ok_or(WordFault::Malformed { place })
}

pub fn duration_at(rest: &mut &[u8], place: u32) -> Result<u32, WordFault>
    ensures value { Reads (λ x. (x, words_after rest.new.now)) result (word_at duration_of place (words_after rest.old.now)) }
    ensures range { IfOk result (λ seconds. is_duration seconds ≡ true) }
{
    duration_in(next_word(rest, place)?).ok_or(WordFault::Malformed { place })
}

pub fn allowed_at(rest: &mut &[u8], place: u32) -> Result<u32, WordFault>
    ensures value { Reads (λ x. (x, words_after rest.new.now)) result (word_at allowed_of place (words_after rest.old.now)) }
    ensures range { IfOk result (λ allowed. is_allowed allowed ≡ true) }
{
    allowed_in(next_word(rest, place)?).ok_or(WordFault::Malformed { place })
}

/// The moment that is set otherwise, or none for a dash.
pub fn own_moment_at(rest: &mut &[u8], place: u32) -> Result<Option<u64>, WordFault>
    ensures value { Reads (λ x. (x, words_after rest.new.now)) result (word_at (or_dash moment_of) place (words_after rest.old.now)) }
    ensures range { IfOk result (λ own. if_there is_moment own ≡ true) }
{
    own_moment_in(next_word(rest, place)?).ok_or(WordFault::Malformed { place })
}

/// The time that is set otherwise, or none for a dash.
pub fn own_duration_at(rest: &mut &[u8], place: u32) -> Result<Option<u32>, WordFault>
    ensures value { Reads (λ x. (x, words_after rest.new.now)) result (word_at (or_dash duration_of) place (words_after rest.old.now)) }
    ensures range { IfOk result (λ own. if_there is_duration own ≡ true) }
{
    own_duration_in(next_word(rest, place)?).ok_or(WordFault::Malformed { place })
}

/// How many attempts are allowed otherwise, or none for a dash.
pub fn own_allowed_at(rest: &mut &[u8], place: u32) -> Result<Option<u32>, WordFault>
    ensures value { Reads (λ x. (x, words_after rest.new.now)) result (word_at (or_dash allowed_of) place (words_after rest.old.now)) }
    ensures range { IfOk result (λ own. if_there is_allowed own ≡ true) }
{
    own_allowed_in(next_word(rest, place)?).ok_or(WordFault::Malformed { place })
}

// ---- names

pub fn role_at(rest: &mut &[u8], place: u32) -> Result<Role, WordFault>
    ensures { Reads (λ x. (x, words_after rest.new.now)) result (word_at role_of place (words_after rest.old.now)) }
{
    role_in(next_word(rest, place)?).ok_or(WordFault::Malformed { place })
}

pub fn behaviour_at(rest: &mut &[u8], place: u32) -> Result<Behaviour, WordFault>
    ensures { Reads (λ x. (x, words_after rest.new.now)) result (word_at behaviour_of place (words_after rest.old.now)) }
{
    behaviour_in(next_word(rest, place)?).ok_or(WordFault::Malformed { place })
}

pub fn handling_at(rest: &mut &[u8], place: u32) -> Result<Handling, WordFault>
    ensures { Reads (λ x. (x, words_after rest.new.now)) result (word_at handling_of place (words_after rest.old.now)) }
{
    handling_in(next_word(rest, place)?).ok_or(WordFault::Malformed { place })
}

pub fn review_at(rest: &mut &[u8], place: u32) -> Result<Review, WordFault>
    ensures { Reads (λ x. (x, words_after rest.new.now)) result (word_at review_of place (words_after rest.old.now)) }
{
    review_in(next_word(rest, place)?).ok_or(WordFault::Malformed { place })
}

pub fn whom_at(rest: &mut &[u8], place: u32) -> Result<Whom, WordFault>
    ensures { Reads (λ x. (x, words_after rest.new.now)) result (word_at whom_of place (words_after rest.old.now)) }
{
    whom_in(next_word(rest, place)?).ok_or(WordFault::Malformed { place })
}

pub fn method_at(rest: &mut &[u8], place: u32) -> Result<Method, WordFault>
    ensures { Reads (λ x. (x, words_after rest.new.now)) result (word_at method_of place (words_after rest.old.now)) }
{
    method_in(next_word(rest, place)?).ok_or(WordFault::Malformed { place })
}

pub fn token_at(alloc: Global, rest: &mut &[u8], place: u32) -> Result<Text, WordFault>
    ensures value { Reads (λ x. (x, words_after rest.new.now)) result (word_at token_of place (words_after rest.old.now)) }
    ensures brief { IfOk result IsBriefToken }
{
    match token_in(next_word(rest, place)?) {
        Some(token) => Ok(Text::of(alloc, token)?),
        None => Err(malformed(place)),
    }
}

pub fn name_at(alloc: Global, rest: &mut &[u8], place: u32) -> Result<Text, WordFault>
    ensures value { Reads (λ x. (x, words_after rest.new.now)) result (word_at name_of place (words_after rest.old.now)) }
    ensures brief { IfOk result (λ name. length name ≤ 255) }
{
    match name_in(alloc, next_word(rest, place)?)? {
        Some(name) => Ok(name),
        None => Err(malformed(place)),
    }
}

// ---- texts and answers

/// The text that the next word spells.
pub fn text_at(alloc: Global, rest: &mut &[u8], place: u32) -> Result<Bytes, WordFault>
    ensures { Reads (λ x. (x, words_after rest.new.now)) result (word_at text_of place (words_after rest.old.now)) }
{
    text_in(alloc, next_word(rest, place)?)?.ok_or(WordFault::Malformed { place })
}

pub fn hints_at(alloc: Global, rest: &mut &[u8], place: u32) -> Result<Listed<Text>, WordFault>
    ensures value { Reads (λ x. (x, words_after rest.new.now)) result (word_at hints_of place (words_after rest.old.now)) }
    ensures kept { IfOk result (λ hints. are_hints hints ≡ true) }
{
    hints_in(alloc, next_word(rest, place)?)?.ok_or(WordFault::Malformed { place })
}

/// The answer that the next word gives.
pub fn answer_at(alloc: Global, rest: &mut &[u8], place: u32) -> Result<Answer, WordFault>
    ensures value { Reads (λ x. (x, words_after rest.new.now)) result (word_at answer_of place (words_after rest.old.now)) }
    ensures kept { IfOk result (λ a. is_answer a ≡ true) }
{
    match answer_in(alloc, next_word(rest, place)?)? {
        Some(answer) => Ok(answer),
        None => Err(malformed(place)),
    }
}

// ---- GIFT texts

/// The bank of the GIFT text that the next word spells.
#[tactic(auto, unfolding(crate::specs::Requests::bank_at))]
pub fn bank_at(alloc: Global, rest: &mut &[u8], place: u32) -> Result<Bank, Refusal>
    ensures value { ReadsOr (λ x. (x, words_after rest.new.now)) result (bank_at place (words_after rest.old.now)) }
    ensures kept { IfOk result (λ bank. All IsQuestion (map (λ (i : Item). i.question) bank.items)) }
    ensures described { IfOk result (λ bank. list_all (λ (i : Item). is_described i.question) bank.items ≡ true) }
{
    let text = text_at(alloc, rest, place)?;
    gift_in(alloc, text.as_slice())
}

/// The one question of the GIFT text that the next word spells.
#[tactic(auto, unfolding(crate::specs::Requests::question_at))]
pub fn question_at(alloc: Global, rest: &mut &[u8], place: u32) -> Result<Question, Refusal>
    ensures value { ReadsOr (λ x. (x, words_after rest.new.now)) result (question_at place (words_after rest.old.now)) }
    ensures kept { IfOk result IsQuestion }
    ensures described { IfOk result (λ q. is_described q ≡ true) }
{
    let text = text_at(alloc, rest, place)?;
    question_in(alloc, text.as_slice())
}
