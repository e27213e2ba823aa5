//! An attempt as a page: a part for each slot.

ghost use Rattle.std.specs.Prelude.{◌≡◌, ◌≤◌, [], filter_map, length, map, not, true, if◌then◌else◌, IfOk};
ghost use Rattle.std.specs.List.{prefix_len};
ghost use Rattle.std.specs.Option.{option_copied};
ghost use Rattle.qz_grading.specs.Questions.{IsQuestion};
ghost use Rattle.qz_grading.specs.Steps.{before, is_finish, last, last_of, response_of};
ghost use Rattle.qz_terms.specs.Answer.{due_now};
ghost use Rattle.qz_terms.specs.History.{slots};
ghost use Rattle.qz_terms.specs.Parts.{feedbacks, hint_by, part, shows_feedback};
ghost use Rattle.qz_terms.specs.declared.reply.Done.TheVariants as done;
ghost use Rattle.qz_usage.specs.Runs.{IsBound};
ghost use Rattle.qz_book.specs.Held.{IsSound};
ghost use Rattle.qz_lives.specs.Attempts.{slot_of};

use crate::feedback::feedbacks;
use crate::review::{shown_mark, shown_state};
use crate::viewing::due_now;
use qz_book::Book;
use qz_grading::{AttemptId, Outcome, Question, Response, State, Step};
use qz_terms::{Done, Part, Plan};
use qz_text::{Listed, NoMemory, Text, TryCopy};
use qz_usage::SlotRun;
use std::alloc::Global;

/// How many steps come before the first Finish.
fn count_before(steps: &[Step]) -> usize
    ensures value { result ≡ prefix_len (λ x. not (is_finish x)) steps.now }
    ensures few { result ≤ length steps.now }
{
    steps.iter().take_while(|step| !step.is_finish()).count()
}

/// The steps before the first Finish.
fn before_finish(steps: &[Step]) -> &[Step]
    ensures { result.now ≡ before steps.now }
{
    steps.split_at(count_before(steps)).0
}

/// The last response of these steps.
fn last_given(steps: &[Step]) -> Option<&Response>
    ensures { option_copied result ≡ last_of (filter_map response_of steps.now) }
{
    let mut last = None;
    for step in steps {
        last = step.response().or(last);
    }
    last
}

/// The hint where "try again" is needed: that with the number of tries so far.
fn hint(alloc: Global, outcome: Outcome, question: &Question) -> Result<Option<Text>, NoMemory>
    ensures { IfOk result (λ text. text ≡ hint_by outcome question.now) }
{
    if !outcome.needs_again {
        return Ok(None);
    }
    let Some(place) = (outcome.tries as usize).checked_sub(1) else {
        return Ok(None);
    };
    match question.hints.as_slice().get(place) {
        Some(text) => Ok(Some(text.try_copy(alloc)?)),
        None => Ok(None),
    }
}

/// Whether a state is a graded one, or one that a teacher gave.
fn shows_feedback(state: State) -> bool
    ensures { result ≡ shows_feedback state }
{
    match state {
        State::GradedWrong
        | State::GradedPartial
        | State::GradedRight
        | State::MangrWrong
        | State::MangrPartial
        | State::MangrRight => true,
        State::Todo
        | State::Complete
        | State::Invalid
        | State::NeedsGrading
        | State::Finished
        | State::GaveUp => false,
    }
}

/// The feedbacks of the last response before a Finish, where a slot in this state shows them.
fn feedback_under(
    alloc: Global,
    state: State,
    question: &Question,
    steps: &[Step],
) -> Result<Listed<Text>, NoMemory>
    requires { IsQuestion question.now }
    ensures { IfOk result (λ texts. texts ≡ (if shows_feedback state then feedbacks question.now (last steps.now) else [])) }
{
    if !shows_feedback(state) {
        return Ok(Listed::empty(alloc));
    }
    match last_given(before_finish(steps)) {
        Some(response) => feedbacks(alloc, question, response),
        None => Ok(Listed::empty(alloc)),
    }
}

/// The general feedback, where a slot in this state shows it.
fn general_under(alloc: Global, state: State, question: &Question) -> Result<Text, NoMemory>
    ensures { IfOk result (λ text. text ≡ (if shows_feedback state then question.now.general.text else [])) }
{
    if !shows_feedback(state) {
        return Text::of(alloc, "");
    }
    question.general.text.try_copy(alloc)
}

/// A slot as a page shows it. The feedback hangs on the state as it is shown.
fn part(alloc: Global, visible: bool, question: &Question, run: &SlotRun) -> Result<Part, NoMemory>
    requires { IsBound run.now question.now }
    ensures { IfOk result (λ made. made ≡ part visible (slot_of run.now question.now)) }
{
    let state = shown_state(visible, run.state());
    Ok(Part {
        text: question.text.text.try_copy(alloc)?,
        state,
        mark: shown_mark(visible, run.mark()),
        hint: hint(alloc, run.outcome(), question)?,
        feedback: feedback_under(alloc, state, question, run.steps())?,
        general: general_under(alloc, state, question)?,
    })
}

/// A part for each slot of an attempt.
fn parts(
    alloc: Global,
    book: &Book,
    visible: bool,
    attempt: AttemptId,
) -> Result<Listed<Part>, NoMemory>
    ensures { IfOk result (λ made. made ≡ map (part visible) (slots book.now attempt)) }
{
    let count = book.slot_count(attempt);
    let mut items = Vec::new(alloc);
    for place in 0..count {
        if let Some(played) = book.slot(attempt, place as u16 + 1) {
            items.push(part(alloc, visible, played.question, played.run)?)?;
        }
    }
    Ok(Listed { items })
}

/// An attempt as a page: the quiz's name, when the attempt is due, and a part for each slot.
pub fn page(
    alloc: Global,
    book: &Book,
    plan: &Plan,
    visible: bool,
    attempt: AttemptId,
) -> Result<Done, NoMemory>
    requires sound { IsSound book.now }
    ensures { IfOk result (λ told. told ≡ done.Page attempt plan.now.name (due_now book.now plan.now attempt) (map (part visible) (slots book.now attempt))) }
{
    Ok(Done::Page {
        attempt,
        quiz: plan.name.try_copy(alloc)?,
        due: due_now(book, plan, attempt),
        parts: parts(alloc, book, visible, attempt)?,
    })
}
