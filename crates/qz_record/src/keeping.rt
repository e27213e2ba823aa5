//! Whether a record keeps what every record keeps: the ranges of its numbers, the lengths of its texts, and the conditions on
//! its questions.

ghost use Rattle.std.specs.Prelude.{◌≡◌, ◌↔◌, ◌&&◌, true, map, length, nat_le, option_map, unwrap_or, IfSome, IsTrue};
ghost use Rattle.std.specs.List.{list_all};
ghost use Rattle.qz_grading.specs.declared.limits.TheConstants.{MOST_HINT};
ghost use Rattle.qz_grading.specs.declared.question.Item.{Item};
ghost use Rattle.qz_grading.specs.declared.question.Question.{Question};
ghost use Rattle.qz_grading.specs.Questions.{IsQuestion, are_no_longer};
ghost use Rattle.qz_terms.specs.declared.limits.TheConstants.{MOST_SLOTS};
ghost use Rattle.qz_terms.specs.declared.record.Learned.{Learned};
ghost use Rattle.qz_terms.specs.declared.record.Terms.{Terms};
ghost use Rattle.qz_terms.specs.Catalog.{asked, asked_by};
ghost use Rattle.qz_terms.specs.CatalogAnswer.{keeps_record};
ghost use Rattle.qz_terms.specs.Kept.{AreQuestions, IsKept, KeepsEvent, KeepsRequest, are_hints, are_settings, asks_described, has_terms, if_there, is_allowed, is_answer, is_bound, is_described, is_duration, is_moment, is_penalty, is_quiz_grade, is_response, is_step};
ghost use Rattle.qz_record.specs.Records.{keeps_described};

use crate::lengths::{has_short_texts, is_short_together};
use qz_decimal::{Fraction, Grade, ONE};
use qz_grading::{
    Answer, Item, Kind, MOST_HINT, MOST_HINTS, MOST_TEXT, Question, Response, Step, is_sound,
};
use qz_terms::{
    Bound, Event, GREATEST_MOMENT, LONGEST_DURATION, Learned, MOST_ALLOWED, MOST_SHARDS,
    MOST_SLOTS, Record, Request, Settings,
};
use qz_text::Text;

/// The greatest max mark (in 10^-7), and the greatest grade of a quiz (in 10^-5).
const GREATEST_MAX: i64 = 10_000 * ONE;

const GREATEST_GRADE: i128 = 10_000 * 100_000;

// ---- numbers

fn is_moment(moment: u64) -> bool
    ensures { result ≡ is_moment moment }
{
    moment <= GREATEST_MOMENT
}

fn is_duration(seconds: u32) -> bool
    ensures { result ≡ is_duration seconds }
{
    seconds <= LONGEST_DURATION
}

fn is_allowed(attempts: u32) -> bool
    ensures { result ≡ is_allowed attempts }
{
    attempts <= MOST_ALLOWED
}

fn is_moment_if_there(moment: Option<u64>) -> bool
    ensures { result ≡ if_there is_moment moment }
{
    match moment {
        Some(moment) => is_moment(moment),
        None => true,
    }
}

fn is_duration_if_there(seconds: Option<u32>) -> bool
    ensures { result ≡ if_there is_duration seconds }
{
    match seconds {
        Some(seconds) => is_duration(seconds),
        None => true,
    }
}

fn is_allowed_if_there(attempts: Option<u32>) -> bool
    ensures { result ≡ if_there is_allowed attempts }
{
    match attempts {
        Some(attempts) => is_allowed(attempts),
        None => true,
    }
}

fn are_settings(settings: &Settings) -> bool
    ensures { result ≡ are_settings settings.now }
{
    is_moment(settings.opens)
        && is_moment(settings.closes)
        && is_duration(settings.limit)
        && is_allowed(settings.allowed)
        && is_duration(settings.grace)
}

fn is_quiz_grade(grade: Grade) -> bool
    ensures { result ≡ is_quiz_grade grade }
{
    0 <= grade.0 && grade.0 <= GREATEST_GRADE
}

fn is_penalty(penalty: Fraction) -> bool
    ensures { result ≡ is_penalty penalty }
{
    0 <= penalty.0 && penalty.0 <= ONE
}

fn is_bound(bound: &Bound) -> bool
    ensures { result ≡ is_bound bound.now }
{
    0 <= bound.max.0 && bound.max.0 <= GREATEST_MAX
}

// ---- responses

fn is_response(response: &Response) -> bool
    ensures { result ≡ is_response response.now }
{
    match &response.answer {
        Answer::Words(typed) => typed.text().as_bytes().len() <= MOST_TEXT,
        Answer::Blank | Answer::Pick(_) | Answer::Picks(_) | Answer::Match(_) => true,
    }
}

fn is_step(step: &Step) -> bool
    ensures { result ≡ is_step step.now }
{
    match step {
        Step::Save(response) | Step::Submit(response) => is_response(response),
        Step::Again | Step::Finish | Step::Mark { .. } => true,
    }
}

// ---- questions

fn are_short_hints(hints: &[Text]) -> bool
    ensures { result ≡ are_no_longer MOST_HINT hints.now }
{
    hints.iter().all(|hint| hint.as_bytes().len() <= MOST_HINT)
}

fn are_hints(hints: &[Text]) -> bool
    ensures { result ≡ are_hints hints.now }
{
    hints.len() <= MOST_HINTS && are_short_hints(hints)
}

fn is_question(question: &Question) -> bool
    ensures { IsTrue result ↔ IsQuestion question.now }
{
    is_sound(&question.kind)
        && is_penalty(question.penalty)
        && has_short_texts(question)
        && are_hints(question.hints.as_slice())
        && is_short_together(question)
}

/// What brings a question.
trait Asking {
    ghost asked: { Self → Question };

    fn question(&self) -> &Question
        ensures { result.now ≡ asked self.now };
}

impl Asking for Item {
    ghost asked = { λ i. i.question };

    fn question(&self) -> &Question {
        &self.question
    }
}

impl Asking for Learned {
    ghost asked = { λ l. l.question };

    fn question(&self) -> &Question {
        &self.question
    }
}

fn are_questions<A: Asking>(asking: &[A]) -> bool
    ensures { IsTrue result ↔ AreQuestions (map A.asked asking.now) }
{
    for part in asking {
        if !is_question(part.question()) {
            return false;
        }
    }
    true
}

/// A description has no general feedback.
fn is_described(question: &Question) -> bool
    ensures { result ≡ is_described question.now }
{
    match question.kind {
        Kind::Description => question.general.text.as_bytes().is_empty(),
        _ => true,
    }
}

// ---- requests and events

fn is_override(
    opens: Option<u64>,
    closes: Option<u64>,
    limit: Option<u32>,
    allowed: Option<u32>,
) -> bool
    ensures { result ≡ (if_there is_moment opens && (if_there is_moment closes
        && (if_there is_duration limit && if_there is_allowed allowed))) }
{
    is_moment_if_there(opens)
        && is_moment_if_there(closes)
        && is_duration_if_there(limit)
        && is_allowed_if_there(allowed)
}

fn keeps_request(request: &Request) -> bool
    requires { keeps_record request.now ≡ true }
    ensures { IsTrue result ↔ KeepsRequest request.now }
{
    match request {
        Request::Import { gift } => are_questions(gift.items.as_slice()),
        Request::Edit { gift, .. } => is_question(gift),
        Request::Tune { penalty, hints, .. } => is_penalty(*penalty) && are_hints(hints.as_slice()),
        Request::Policy { grade, .. } => is_quiz_grade(*grade),
        Request::Times {
            opens,
            closes,
            limit,
            allowed,
            grace,
            ..
        } => {
            is_moment(*opens)
                && is_moment(*closes)
                && is_duration(*limit)
                && is_allowed(*allowed)
                && is_duration(*grace)
        }
        Request::Override {
            opens,
            closes,
            limit,
            allowed,
            ..
        } => is_override(*opens, *closes, *limit, *allowed),
        _ => true,
    }
}

fn are_described(items: &[Item]) -> bool
    ensures { result ≡ list_all (λ (i : Item). is_described i.question) items.now }
{
    items.iter().all(|item| is_described(&item.question))
}

fn asks_described(request: &Request) -> bool
    ensures { result ≡ asks_described request.now }
{
    match request {
        Request::Import { gift } => are_described(gift.items.as_slice()),
        Request::Edit { gift, .. } => is_described(gift),
        _ => true,
    }
}

fn are_maxima(bounds: &[Bound]) -> bool
    ensures { result ≡ list_all is_bound bounds.now }
{
    bounds.iter().all(|bound| is_bound(bound))
}

fn are_bounds(bounds: &[Bound]) -> bool
    ensures { result ≡ (nat_le (length bounds.now) MOST_SLOTS && list_all is_bound bounds.now) }
{
    bounds.len() <= MOST_SLOTS as usize && are_maxima(bounds)
}

fn keeps_event(event: &Event) -> bool
    requires { IfSome (asked_by event.now) (λ x. keeps_record x ≡ true) }
    ensures { IsTrue result ↔ KeepsEvent event.now }
{
    match event {
        Event::Founded { shards, .. } => 1 <= *shards && *shards <= MOST_SHARDS,
        Event::Asked { request } => keeps_request(request),
        Event::Started {
            bounds,
            learned,
            ..
        } => are_bounds(bounds.as_slice()) && are_questions(learned.as_slice()),
        Event::Acted { step, .. } | Event::Noted { step, .. } => is_step(step),
        Event::Rebound { bound, learned, .. } => {
            is_bound(bound) && are_questions(learned.as_slice())
        }
        Event::Ended { .. } | Event::Skipped { .. } | Event::JobDone { .. } => true,
    }
}

/// Whether terms stand in the record of an event.
fn has_terms(event: &Event) -> bool
    ensures { result ≡ has_terms event.now }
{
    match event {
        Event::Started { .. } | Event::Acted { .. } | Event::Noted { .. } | Event::Ended { .. } =>
            true,
        Event::Founded { .. }
        | Event::Asked { .. }
        | Event::Rebound { .. }
        | Event::Skipped { .. }
        | Event::JobDone { .. } => false,
    }
}

fn keeps_terms(record: &Record) -> bool
    ensures { result
        ≡ unwrap_or (option_map (λ (t : Terms). are_settings t.settings) «record».now.terms) true }
{
    match &record.terms {
        Some(terms) => are_settings(&terms.settings),
        None => true,
    }
}

/// Whether no description that a record brings has a general feedback.
fn keeps_described(record: &Record) -> bool
    ensures { result ≡ keeps_described «record».now }
{
    match &record.event {
        Event::Asked { request } => asks_described(request),
        _ => true,
    }
}

/// Whether a record keeps what every record keeps, and no description that it brings has a general feedback.
pub(crate) fn is_kept(record: &Record) -> bool
    requires { IfSome (asked «record».now) (λ x. keeps_record x ≡ true) }
    ensures { IsTrue result ↔ (IsKept «record».now × (keeps_described «record».now ≡ true)) }
{
    is_moment(record.moment)
        && record.terms.is_some() == has_terms(&record.event)
        && keeps_terms(record)
        && keeps_event(&record.event)
        && keeps_described(record)
}
