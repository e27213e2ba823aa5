//! The words of users, quizzes and the bank: names, roles, behaviours, settings, marks, hints and GIFT texts.

ghost use Rattle.std.specs.List.{list_all, list_any};
ghost use Rattle.std.specs.Prelude.{◌≡◌, ◌==◌, true, All, map, IfOk, IfSome};
ghost use Rattle.qz_decimal.specs.Reading.{IsWrittenFraction};
ghost use Rattle.qz_grading.specs.declared.question.Item.{Item};
ghost use Rattle.qz_grading.specs.Questions.{IsQuestion};
ghost use Rattle.qz_wire.specs.BankWords.{is_name, name_of, role_of, behaviour_of, handling_of, review_of, whom_of, method_of, mark_of, penalty_of, quiz_grade_of, hint_of, hints_on, hints_of, gift_of, only_question, question_of};
ghost use Rattle.qz_terms.specs.Kept.{are_hints, is_described, is_quiz_grade};
ghost use Rattle.qz_wire.specs.Faults.{ReadsOr};
ghost use Rattle.qz_wire.specs.Words.{parts_at};

use crate::escapes::{text_in, utf8_in};
use crate::words::cut;
use gift_read::{GiftFault, read};
use qz_decimal::{Fraction, Grade, Mark};
use qz_grading::{Bank, Behaviour, Item, MOST_HINT, MOST_HINTS, Question, Refusal};
use qz_terms::{Handling, Method, Review, Role, Whom};
use qz_text::{Listed, NoMemory, Text};
use std::alloc::Global;

/// A name has at most so many bytes.
const LONGEST_NAME: usize = 255;

/// A GIFT text has at most so many bytes.
const LONGEST_GIFT: usize = 8_388_608;

// ---- users and quizzes

fn has_line_feed(text: &[u8]) -> bool
    ensures { result ≡ list_any (λ c. c == 10) text.now }
{
    text.iter().any(|byte| *byte == b'\n')
}

fn is_name(text: &[u8]) -> bool
    ensures { result ≡ is_name text.now }
{
    1 <= text.len() && text.len() <= LONGEST_NAME && !has_line_feed(text)
}

/// The name that a word spells: 1 to 255 bytes without a line feed.
pub fn name_in(alloc: Global, word: &[u8]) -> Result<Option<Text>, NoMemory>
    ensures { IfOk result (λ found. found ≡ name_of word.now) }
{
    let Some(text) = text_in(alloc, word)? else {
        return Ok(None);
    };
    if !is_name(text.as_slice()) {
        return Ok(None);
    }
    utf8_in(alloc, text.as_slice())
}

/// The role that a word names.
pub fn role_in(word: &[u8]) -> Option<Role>
    ensures { result ≡ role_of word.now }
{
    if word == b"manager".as_slice() {
        Some(Role::Manager)
    } else if word == b"teacher".as_slice() {
        Some(Role::Teacher)
    } else if word == b"student".as_slice() {
        Some(Role::Student)
    } else {
        None
    }
}

/// The behaviour that a word names: any but that of a description.
pub fn behaviour_in(word: &[u8]) -> Option<Behaviour>
    ensures { result ≡ behaviour_of word.now }
{
    if word == b"deferredfeedback".as_slice() {
        Some(Behaviour::Deferred)
    } else if word == b"immediatefeedback".as_slice() {
        Some(Behaviour::Immediate)
    } else if word == b"interactive".as_slice() {
        Some(Behaviour::Interactive)
    } else if word == b"adaptive".as_slice() {
        Some(Behaviour::Adaptive)
    } else if word == b"adaptivenopenalty".as_slice() {
        Some(Behaviour::AdaptiveNoPenalty)
    } else if word == b"deferredcbm".as_slice() {
        Some(Behaviour::DeferredCbm)
    } else if word == b"immediatecbm".as_slice() {
        Some(Behaviour::ImmediateCbm)
    } else if word == b"manualgraded".as_slice() {
        Some(Behaviour::Manual)
    } else {
        None
    }
}

// ---- how a quiz is taken and graded

/// What a word says of an attempt that isn't finished when its time is over.
pub fn handling_in(word: &[u8]) -> Option<Handling>
    ensures { result ≡ handling_of word.now }
{
    if word == b"autosubmit".as_slice() {
        Some(Handling::AutoSubmit)
    } else if word == b"graceperiod".as_slice() {
        Some(Handling::GracePeriod)
    } else if word == b"autoabandon".as_slice() {
        Some(Handling::AutoAbandon)
    } else {
        None
    }
}

/// When marks and grades are shown, by a word.
pub fn review_in(word: &[u8]) -> Option<Review>
    ensures { result ≡ review_of word.now }
{
    if word == b"always".as_slice() {
        Some(Review::Always)
    } else if word == b"finish".as_slice() {
        Some(Review::Finish)
    } else if word == b"close".as_slice() {
        Some(Review::Close)
    } else {
        None
    }
}

/// For whom something is set otherwise, by a word.
pub fn whom_in(word: &[u8]) -> Option<Whom>
    ensures { result ≡ whom_of word.now }
{
    if word == b"user".as_slice() {
        Some(Whom::User)
    } else if word == b"group".as_slice() {
        Some(Whom::Group)
    } else {
        None
    }
}

/// The method of grading that a word names.
pub fn method_in(word: &[u8]) -> Option<Method>
    ensures { result ≡ method_of word.now }
{
    if word == b"highest".as_slice() {
        Some(Method::Highest)
    } else if word == b"average".as_slice() {
        Some(Method::Average)
    } else if word == b"first".as_slice() {
        Some(Method::First)
    } else if word == b"last".as_slice() {
        Some(Method::Last)
    } else {
        None
    }
}

/// The grade of a quiz that a word spells, from 0 to 10,000.
pub fn quiz_grade_in(word: &[u8]) -> Option<Grade>
    ensures value { result ≡ quiz_grade_of word.now }
    ensures range { IfSome result (λ grade. is_quiz_grade grade ≡ true) }
{
    Grade::read(word).ok()
}

// ---- marks

/// The mark that a word spells, from -100,000 to 100,000.
pub fn mark_in(word: &[u8]) -> Option<Mark>
    ensures { result ≡ mark_of word.now }
{
    Mark::read(word).ok()
}

/// The penalty that a word spells, from 0 to 1.
pub fn penalty_in(word: &[u8]) -> Option<Fraction>
    ensures value { result ≡ penalty_of word.now }
    ensures range { IfSome result IsWrittenFraction }
{
    Fraction::read(word).ok()
}

// ---- hints

/// The hint that a line is: 1 to 4,096 bytes.
fn hint_in(alloc: Global, line: &[u8]) -> Result<Option<Text>, NoMemory>
    ensures { IfOk result (λ found. found ≡ hint_of line.now) }
{
    if line.is_empty() || line.len() > MOST_HINT {
        return Ok(None);
    }
    utf8_in(alloc, line)
}

/// The hints of a text that isn't empty, one a line: at most 20.
fn lines_in(alloc: Global, text: &[u8]) -> Result<Option<Listed<Text>>, NoMemory>
    ensures { IfOk result (λ found. found ≡ hints_on (parts_at 10 text.now)) }
{
    let mut items = Vec::new(alloc);
    let mut rest = text;
    while let Some((line, behind)) = cut(rest, b'\n') {
        let Some(hint) = hint_in(alloc, line)? else {
            return Ok(None);
        };
        items.push(hint)?;
        if items.len() >= MOST_HINTS {
            return Ok(None);
        }
        rest = behind;
    }
    let Some(hint) = hint_in(alloc, rest)? else {
        return Ok(None);
    };
    items.push(hint)?;
    Ok(Some(Listed { items }))
}

/// The hints that a word spells, one a line. The empty text has none.
pub fn hints_in(alloc: Global, word: &[u8]) -> Result<Option<Listed<Text>>, NoMemory>
    ensures value { IfOk result (λ found. found ≡ hints_of word.now) }
    ensures kept { IfOk result (λ found. IfSome found (λ hints. are_hints hints ≡ true)) }
{
    let Some(text) = text_in(alloc, word)? else {
        return Ok(None);
    };
    if text.as_slice().is_empty() {
        return Ok(Some(Listed::empty(alloc)));
    }
    lines_in(alloc, text.as_slice())
}

// ---- GIFT texts

/// The bank that a GIFT text has, which is at most 8,388,608 bytes long.
pub fn gift_in(alloc: Global, text: &[u8]) -> Result<Bank, Refusal>
    ensures value { ReadsOr (λ x. x) result (gift_of text.now) }
    ensures kept { IfOk result (λ bank. All IsQuestion (map (λ (i : Item). i.question) bank.items)) }
    ensures described { IfOk result (λ bank. list_all (λ (i : Item). is_described i.question) bank.items ≡ true) }
{
    if text.len() > LONGEST_GIFT {
        return Err(Refusal::Malformed { place: 1, rule: 2 });
    }
    match read(alloc, text) {
        Ok(bank) => Ok(bank),
        Err(GiftFault::Malformed { line, rule }) => Err(Refusal::Malformed { place: line, rule }),
        Err(GiftFault::Memory) => Err(Refusal::Memory),
    }
}

/// The question of a bank that has exactly one.
pub fn only_question(mut items: Listed<Item>) -> Option<Question>
    ensures { result ≡ only_question items }
{
    if items.items.len() != 1 {
        return None;
    }
    let item = items.items.pop()?;
    Some(item.question)
}

/// The question that a GIFT text has, which is at most 8,388,608 bytes long and has exactly one.
pub fn question_in(alloc: Global, text: &[u8]) -> Result<Question, Refusal>
    ensures value { ReadsOr (λ x. x) result (question_of text.now) }
    ensures kept { IfOk result IsQuestion }
    ensures described { IfOk result (λ q. is_described q ≡ true) }
{
    let bank = gift_in(alloc, text)?;
    match only_question(bank.items) {
        Some(question) => Ok(question),
        None => Err(Refusal::Malformed { place: 1, rule: 12 }),
    }
}
