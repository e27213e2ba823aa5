//! What a worker's request puts: a slot of a job is bound anew or skipped, or the job is done.

ghost use Rattle.std.specs.Prelude.{◌≡◌, ◌∷◌, [], option_copied, All, IfOk, IfSome};
ghost use Rattle.qz_grading.specs.Grading.{at_place};
ghost use Rattle.qz_grading.specs.Questions.{IsQuestion};
ghost use Rattle.qz_grading.specs.Shapes.{same_shape};
ghost use Rattle.qz_terms.specs.Answer.{first_target, learned_as, new_versions, put_target, rebound_or_skipped, record_of_job, target_event};
ghost use Rattle.qz_book.specs.Cursors.{AreCursors};
ghost use Rattle.qz_book.specs.Held.{IsSound};
ghost use Rattle.qz_shard.specs.Holdings.{HasSlot};
ghost use Rattle.qz_shard.specs.Works.{IsWork};

use qz_book::{Book, Cursors, next_target, question_of};
use qz_grading::{AttemptId, Question, shape_of};
use qz_legal::same_shape;
use qz_terms::{Bound, Event, Job, Learned, Planned, Record};
use qz_text::{Listed, NoMemory, TryCopy};
use std::alloc::Global;

/// What a worker's request comes to.
pub(crate) enum Work {
    /// The job is done already, at this place in the list, from 1.
    AlreadyDone(u64),
    /// This record is put.
    Put(Record),
}

/// The slot of a plan with this number, from 1.
fn planned_at(slots: &[Planned], slot: u16) -> Option<&Planned>
    ensures { option_copied result ≡ at_place slots.now slot }
{
    let place = usize::from(slot).checked_sub(1)?;
    slots.get(place)
}

/// The question of the slot with this number, from 1.
fn question_at(questions: &[Question], slot: u16) -> Option<&Question>
    ensures value { option_copied result ≡ at_place questions.now slot }
    ensures kept { All IsQuestion questions.now → IfSome result (λ q. IsQuestion q.now) }
{
    let place = usize::from(slot).checked_sub(1)?;
    questions.get(place)
}

/// What the shard learns where it binds this version.
fn learned_of(
    alloc: Global,
    book: &Book,
    planned: &Planned,
    question: &Question,
) -> Result<Listed<Learned>, NoMemory>
    ensures { IfOk result (λ learned. learned ≡ new_versions book.now (learned_as (planned.now, question.now) ∷ [])) }
{
    let mut items = Vec::new(alloc);
    if book.version(planned.entry, planned.version).is_none() {
        items.push(Learned {
            entry: planned.entry,
            version: planned.version,
            question: question.try_copy(alloc)?,
        })?;
    }
    Ok(Listed { items })
}

/// The event of a target: a newer version of the same shape is bound to it, and one of another shape is skipped.
fn rebound_or_skipped(
    alloc: Global,
    book: &Book,
    job: &Job,
    attempt: AttemptId,
    slot: u16,
    planned: &Planned,
    old: &Question,
    newer: &Question,
) -> Result<Event, NoMemory>
    requires old { IsQuestion old.now }
    requires newer { IsQuestion newer.now }
    ensures { IfOk result (λ event. event ≡ rebound_or_skipped book.now job.now attempt slot planned.now old.now newer.now) }
{
    let (was, is) = (shape_of(old), shape_of(newer));
    if !same_shape(was, is) {
        return Ok(Event::Skipped {
            job: job.number,
            attempt,
            slot,
            bound: was,
            newer: is,
        });
    }
    Ok(Event::Rebound {
        job: job.number,
        attempt,
        slot,
        bound: Bound {
            entry: planned.entry,
            version: planned.version,
            max: planned.max,
            at: job.position,
        },
        learned: learned_of(alloc, book, planned, newer)?,
    })
}

/// The event of a target, if the job's plan has its slot.
fn target_event(
    alloc: Global,
    book: &Book,
    job: &Job,
    attempt: AttemptId,
    slot: u16,
) -> Result<Option<Event>, NoMemory>
    requires sound { IsSound book.now }
    requires questions { All IsQuestion job.now.plan.questions }
    ensures { IfOk result (λ event. event ≡ target_event book.now job.now (attempt, slot)) }
{
    let Some(old) = question_of(book, attempt, slot) else {
        return Ok(None);
    };
    let Some(planned) = planned_at(job.plan.slots.as_slice(), slot) else {
        return Ok(None);
    };
    let Some(newer) = question_at(job.plan.questions.as_slice(), slot) else {
        return Ok(None);
    };
    let event = rebound_or_skipped(alloc, book, job, attempt, slot, planned, old, newer)?;
    Ok(Some(event))
}

/// The record of an event that a worker's request makes.
fn record_of(moment: u64, caller: u32, owner: u32, event: Event) -> Record
    ensures { result ≡ record_of_job moment caller owner event }
{
    Record {
        moment,
        caller,
        owner,
        key: None,
        terms: None,
        event,
    }
}

/// The record of the first target, whose slot the job's plan has, or of the job that is done.
fn put_target(
    alloc: Global,
    book: &Book,
    now: u64,
    caller: u32,
    job: &Job,
    target: Option<(AttemptId, u16)>,
) -> Result<Record, NoMemory>
    requires sound { IsSound book.now }
    requires questions { All IsQuestion job.now.plan.questions }
    requires slot { HasSlot book.now job.now target }
    ensures { IfOk result (λ put. put ≡ put_target book.now now caller job.now target) }
{
    let Some((attempt, slot)) = target else {
        let done = Event::JobDone {
            job: job.number,
            quiz: job.plan.quiz,
            position: job.position,
        };
        return Ok(record_of(book.time(0, now), caller, 0, done));
    };
    let Some(event) = target_event(alloc, book, job, attempt, slot)? else {
        unreachable!()
    };
    let moment = book.time(attempt.user, now);
    Ok(record_of(moment, caller, attempt.user, event))
}

/// What a worker's request comes to. One target is taken, and the job is done where none is left. How far the job has come is kept.
pub(crate) fn work_on(
    alloc: Global,
    book: &Book,
    cursors: &mut Cursors,
    now: u64,
    caller: u32,
    job: &Job,
) -> Result<Work, NoMemory>
    requires sound { IsSound book.now }
    requires questions { All IsQuestion job.now.plan.questions }
    requires slot { HasSlot book.now job.now (first_target book.now job.now) }
    requires cursors { AreCursors cursors.old book.now }
    ensures work { IfOk result (IsWork book.now now caller job.now) }
    ensures cursors { AreCursors cursors.new book.now }
{
    if let Some(place) = book.done_place(job.number) {
        return Ok(Work::AlreadyDone(place));
    }
    let target = next_target(
        alloc,
        book,
        cursors,
        job.number,
        job.plan.quiz,
        job.position,
    )?;
    let record = put_target(alloc, book, now, caller, job, target)?;
    Ok(Work::Put(record))
}
