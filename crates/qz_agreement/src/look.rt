//! What the whole catalogue tells of a record, before its first records are asked.

ghost use Rattle.std.specs.Prelude.{◌≡◌, ◌||◌, ◌==◌, IfOk, List, Some, is_some, length, option_map, take};
ghost use Rattle.qz_grading.specs.declared.question.Shape.{Shape};
ghost use Rattle.qz_grading.specs.Grading.{at_place, shape};
ghost use Rattle.qz_terms.specs.declared.record.Learned.{Learned};
ghost use Rattle.qz_terms.specs.declared.record.Record.{Record};
ghost use Rattle.qz_terms.specs.Catalog.{users};
ghost use Rattle.qz_terms.specs.History as history;
ghost use Rattle.qz_terms.specs.Legal.{EventIsAllowed, LearnsFrom, RebindAgrees, SkipAgrees, StepAgrees};
ghost use Rattle.qz_agreement.specs.Fitting.{IsUnderTerms, IsVerdict, IsVerdictOf, IsVerdictOn, StepFits, decided};
ghost use Rattle.qz_agreement.specs.Quizzes.{AreQuizzes};

use crate::jobs::{is_job, job_binds, job_skips};
use crate::quizzes::Quizzes;
use qz_catalog::CatalogCore;
use qz_grading::{AttemptId, Shape};
use qz_terms::{Bound, Event, Record};
use qz_text::NoMemory;
use std::alloc::Global;

/// What is known of a record: whether it agrees, or what is to be asked of the catalogue's first records, as many as `at`, if it is
/// of an attempt of this quiz.
#[derive(Clone, Copy)]
pub(crate) enum Verdict {
    Agreed,
    Denied,
    Pending { at: u64, quiz: u32 },
}

/// What is known where it is known whether a record agrees.
fn decided(agrees: bool) -> Verdict
    ensures { result ≡ decided agrees }
{
    if agrees {
        Verdict::Agreed
    } else {
        Verdict::Denied
    }
}

/// What a record's terms name is asked, where the catalogue has as many records.
fn under_terms(catalog: &CatalogCore, quiz: u32, record: &Record) -> Verdict
    ensures { IsUnderTerms catalog.now «record».now quiz result }
{
    match &record.terms {
        Some(terms) if 1 <= terms.at && terms.at <= catalog.len() => {
            Verdict::Pending { at: terms.at, quiz }
        }
        _ => Verdict::Denied,
    }
}

/// Of a step or an end of an attempt.
fn on_step(catalog: &CatalogCore, quizzes: &Quizzes, record: &Record, attempt: AttemptId) -> Verdict
    ensures { (l : List Record) → AreQuizzes quizzes.now l
        → IsVerdict catalog.now (λ n q. StepFits (take n catalog.now) («record».now).terms q attempt.user) (StepAgrees catalog.now l «record».now attempt) result }
{
    match quizzes.quiz(attempt) {
        Some(quiz) => under_terms(catalog, quiz, record),
        None => Verdict::Denied,
    }
}

/// Of a newer version that a job bound. Whether its question is the catalogue's is asked of the records up to the job.
fn on_rebound(
    alloc: Global,
    catalog: &CatalogCore,
    quizzes: &Quizzes,
    job: u32,
    attempt: AttemptId,
    slot: u16,
    bound: &Bound,
) -> Result<Verdict, NoMemory>
    ensures { IfOk result (λ v. (l : List Record) (learned : List Learned) → AreQuizzes quizzes.now l
        → IsVerdict catalog.now (λ n q. LearnsFrom (take n catalog.now) learned) (RebindAgrees catalog.now l job attempt slot bound.now learned) v) }
{
    let Some(quiz) = quizzes.quiz(attempt) else {
        return Ok(Verdict::Denied);
    };
    if !job_binds(alloc, catalog, job, quiz, slot, bound)? {
        return Ok(Verdict::Denied);
    }
    Ok(Verdict::Pending { at: bound.at, quiz })
}

/// Of a slot that a job left as it was. That it has the shape of its own question is known of a list that is legal.
fn on_skipped(
    alloc: Global,
    catalog: &CatalogCore,
    quizzes: &Quizzes,
    job: u32,
    attempt: AttemptId,
    slot: u16,
    newer: Shape,
) -> Result<Verdict, NoMemory>
    ensures { IfOk result (λ v. (l : List Record) (bound : Shape) → AreQuizzes quizzes.now l
        → option_map shape (history.question l attempt slot) ≡ Some bound
        → IsVerdict catalog.now (λ n q. ⊥) (SkipAgrees catalog.now l job attempt slot bound newer) v) }
{
    match quizzes.quiz(attempt) {
        Some(quiz) => Ok(decided(job_skips(alloc, catalog, job, quiz, slot, newer)?)),
        None => Ok(Verdict::Denied),
    }
}

/// Of what a record says.
fn on_event(
    alloc: Global,
    catalog: &CatalogCore,
    quizzes: &Quizzes,
    record: &Record,
) -> Result<Verdict, NoMemory>
    ensures { IfOk result (λ v. (l : List Record) → AreQuizzes quizzes.now l → EventIsAllowed l «record».now («record».now).event
        → IsVerdictOn catalog.now l «record».now («record».now).event v) }
{
    match &record.event {
        Event::Started { quiz, .. } => Ok(under_terms(catalog, *quiz, record)),
        Event::Acted { attempt, .. }
        | Event::Noted { attempt, .. }
        | Event::Ended { attempt, .. } => Ok(on_step(catalog, quizzes, record, *attempt)),
        Event::Rebound {
            job,
            attempt,
            slot,
            bound,
            ..
        } => on_rebound(alloc, catalog, quizzes, *job, *attempt, *slot, bound),
        Event::Skipped {
            job,
            attempt,
            slot,
            newer,
            ..
        } => on_skipped(alloc, catalog, quizzes, *job, *attempt, *slot, *newer),
        Event::JobDone {
            job,
            quiz,
            position,
        } => Ok(decided(is_job(alloc, catalog, *job, *quiz, *position)?)),
        Event::Founded { .. } | Event::Asked { .. } => Ok(Verdict::Denied),
    }
}

/// Whether a record's caller is a worker, 0, or one of so many users.
fn is_caller(count: usize, caller: u32) -> bool
    ensures { (c : List Record) → count ≡ length (users c) → result ≡ (caller == 0) || is_some (at_place (users c) caller) }
{
    caller as usize <= count
}

/// Of a record whole, of which the list before it is legal. The catalogue has so many users.
pub(crate) fn look(
    alloc: Global,
    catalog: &CatalogCore,
    count: usize,
    quizzes: &Quizzes,
    record: &Record,
) -> Result<Verdict, NoMemory>
    requires { count ≡ length (users catalog.now) }
    ensures { IfOk result (λ v. (l : List Record) → AreQuizzes quizzes.now l → EventIsAllowed l «record».now («record».now).event
        → IsVerdictOf catalog.now l «record».now v) }
{
    if !is_caller(count, record.caller) {
        return Ok(Verdict::Denied);
    }
    on_event(alloc, catalog, quizzes, record)
}
