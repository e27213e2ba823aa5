//! What a response earns, and whether two are the same.

ghost use Rattle.std.specs.Prelude.{◌≡◌, ◌↔◌, ◌+◌, ◌≤◌, length, pos, neg_ℤ, IsTrue};
ghost use Rattle.qz_grading.specs.declared.limits.TheConstants.{MOST_PARTS};
ghost use Rattle.qz_decimal.specs.Numbers.{one, IsWithin};
ghost use Rattle.qz_grading.specs.declared.question.Kind.TheVariants as kind;
ghost use Rattle.qz_grading.specs.declared.response.Answer.TheVariants as answer;
ghost use Rattle.qz_grading.specs.Grading.{answer_fits, grade, grade_answer, same_answer, same, stems};
ghost use Rattle.qz_grading.specs.Questions.{IsQuestion, parts, has_numbers_in_range, has_stem};

use crate::matching::{right_stems, stem_count};
use crate::weights::{numerical_weight, short_weight, weight_at, weight_of_picked, whole_if};
use crate::{Answer, Kind, Pair, Question, Response, Steps};
use qz_decimal::{Fraction, share};
use std::sync::ledger::Ledger;

/// The fraction that a response earns, before penalties and certainty, in 10^-7. It takes one step and no memory.
///
/// True-false is all or nothing. A single choice earns its weight, several choices the sum of their weights cut to 0 and 1, a
/// matching question the share of right stems, and a typed answer the weight of the first answer in order that it fits, or 0.
/// Essays and descriptions earn 0. Moodle's documentation has a page for each question type.
pub fn grade<L: Ledger>(question: &Question, response: &Response, steps: &mut Steps<L>) -> Fraction
    requires question { IsQuestion question.now }
    requires fits { IsTrue (answer_fits question.now.kind response.now.answer) }
    ensures value { result ≡ grade question.now response.now }
    ensures within { IsWithin (neg_ℤ (pos one)) (pos one) result }
    ensures cost { steps.new ≡ steps.old + 1 }
{
    steps.tick();
    grade_answer(&question.kind, &response.answer)
}

pub(crate) fn grade_answer(kind: &Kind, answer: &Answer) -> Fraction
    requires few { parts kind.now ≤ MOST_PARTS }
    requires numbers { IsTrue (has_numbers_in_range kind.now) }
    requires stem { IsTrue (has_stem kind.now) }
    requires fits { IsTrue (answer_fits kind.now answer.now) }
    ensures value { result ≡ grade_answer kind.now answer.now }
    ensures within { IsWithin (neg_ℤ (pos one)) (pos one) result }
{
    match (kind, answer) {
        (Kind::TrueFalse { right, .. }, Answer::Pick(place)) => whole_if((*place == 1) == *right),
        (Kind::One(choices), Answer::Pick(place)) => weight_at(choices.as_slice(), *place),
        (Kind::Several(choices), Answer::Picks(places)) => {
            weight_of_picked(choices.as_slice(), places.as_slice())
        }
        (Kind::Matching(pairs), Answer::Match(chosen)) => {
            share_of_right(pairs.as_slice(), chosen.as_slice())
        }
        (Kind::ShortAnswer(answers), Answer::Words(typed)) => {
            short_weight(answers.as_slice(), typed)
        }
        (Kind::Numerical(answers), Answer::Words(typed)) => {
            numerical_weight(answers.as_slice(), typed)
        }
        _ => Fraction(0),
    }
}

/// The share of the stems that have their own answer chosen.
fn share_of_right(pairs: &[Pair], chosen: &[u8]) -> Fraction
    requires few { length pairs.now ≤ MOST_PARTS }
    requires stem { IsTrue (has_stem (kind.Matching pairs.now)) }
    requires one_each { length chosen.now ≡ length (stems pairs.now) }
    ensures value { result ≡ grade_answer (kind.Matching pairs.now) (answer.Match chosen.now) }
    ensures within { IsWithin (neg_ℤ (pos one)) (pos one) result }
{
    let all = stem_count(pairs) as u8;
    let right = right_stems(pairs, chosen) as u8;
    share(right, all)
}

/// Whether two responses are equal as values, answer and certainty.
pub fn same(one: &Response, other: &Response) -> bool
    ensures value { result ≡ same one.now other.now }
    ensures equal { IsTrue result ↔ (one.now ≡ other.now) }
{
    one.certainty == other.certainty && same_answer(&one.answer, &other.answer)
}

/// Whether two answers are equal as values; a comparison takes no memory.
pub fn same_answer(one: &Answer, other: &Answer) -> bool
    ensures { result ≡ same_answer one.now other.now }
{
    match (one, other) {
        (Answer::Blank, Answer::Blank) => true,
        (Answer::Pick(one), Answer::Pick(other)) => one == other,
        (Answer::Picks(one), Answer::Picks(other)) => one.as_slice() == other.as_slice(),
        (Answer::Match(one), Answer::Match(other)) => one.as_slice() == other.as_slice(),
        (Answer::Words(one), Answer::Words(other)) => {
            one.text().as_bytes() == other.text().as_bytes()
        }
        _ => false,
    }
}
