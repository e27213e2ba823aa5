//! The plan of a quiz for a user.

ghost use Rattle.std.specs.Prelude.{option_copied, if◌then◌else◌, ◌≡◌, ◌⊎◌, ◌≤◌, List, [], ◌∷◌, length, map, Some, None, option_map, true, false, IfOk, IfErr, OnOk};
ghost use Rattle.std.specs.List.{list_all};
ghost use Rattle.qz_grading.specs.Behaviours.{first_some};
ghost use Rattle.qz_grading.specs.declared.refusal.Refusal.TheVariants as refusal;
ghost use Rattle.qz_terms.specs.declared.plan.Planned.{Planned};
ghost use Rattle.qz_terms.specs.declared.record.Record.{Record};
ghost use Rattle.qz_bank.specs.Laws.{IsBankOf};
ghost use Rattle.qz_terms.specs.Catalog.{latest, plan, plan_under, policy, policy_with, questions, quizzes, slots, version};
ghost use Rattle.qz_terms.specs.Cause.{missing_quiz, missing_user};
ghost use Rattle.qz_terms.specs.Kept.{is_planned};
ghost use Rattle.qz_terms.specs.Rows.{sum_of};
ghost use Rattle.qz_grading.specs.Grading.{at_place};
ghost use Rattle.qz_roster.specs.Told.{named_in};
ghost use Rattle.qz_catalog.specs.Holdings.{IsIndexed, lean};
ghost use Rattle.qz_catalog.specs.Readings.{planned_by, ready_settings, with_questions};

use crate::book::Book;
use crate::missing::{missing_quiz, missing_user};
use crate::quizzes::{is_ready, policy_terms, slots_made};
use crate::settings::settings;
use qz_bank::Entries;
use qz_bank::laws::follows_the_records;
use qz_decimal::{Grade, Mark};
use qz_grading::{Question, Refusal, Thing};
use qz_roster::{Named, Slot};
use qz_terms::{Method, Plan, Planned, Policy, Record, Settings};
use qz_text::{Listed, NoMemory, TryCopy};
use std::alloc::Global;

/// The number of an entry's latest version by a bank, or 0 where the entry isn't there.
pub(crate) fn latest_in(entries: &Entries, entry: u32) -> u32
    ensures { (c : List Record) → IsBankOf c entries.now → result ≡ latest c entry }
{
    follows_the_records();
    entries.latest(entry).unwrap_or(0)
}

/// A slot with its entry's latest version.
fn planned(entries: &Entries, slot: &Slot) -> Planned
    ensures { (c : List Record) → IsBankOf c entries.now → result ≡ planned_by c slot.now }
{
    Planned {
        entry: slot.entry,
        version: latest_in(entries, slot.entry),
        max: slot.max(),
    }
}

/// The slots of a quiz, in order.
fn slots(alloc: Global, book: &Book, quiz: u32) -> Result<Listed<Planned>, NoMemory>
    requires { IsIndexed book.now }
    ensures value { IfOk result (λ found. found ≡ slots book.now.records.items quiz) }
    ensures few { IfOk result (λ found. length found ≤ 200) }
    ensures marks { IfOk result (λ found. list_all is_planned found ≡ true) }
{
    let made = slots_made(book, quiz);
    let mut items = Vec::new(alloc);
    for slot in made {
        items.push(planned(&book.entries, slot))?;
    }
    Ok(Listed { items })
}

/// The sum of the slots' max marks.
fn sum_of(slots: &[Planned]) -> Mark
    requires few { length slots.now ≤ 200 }
    requires marks { list_all is_planned slots.now ≡ true }
    ensures { result ≡ sum_of (map (λ (s : Planned). s.max) slots.now) }
{
    let mut sum = 0;
    for slot in slots {
        sum += slot.max.0.unsigned_abs();
    }
    Mark(sum as i64)
}

/// How a quiz with these terms and slots is graded.
pub(crate) fn policy(terms: (Method, Grade), laid: &[Planned]) -> Policy
    requires few { length laid.now ≤ 200 }
    requires marks { list_all is_planned laid.now ≡ true }
    ensures { result ≡ policy_with laid.now terms }
{
    let (method, grade) = terms;
    Policy {
        method,
        grade,
        sum: sum_of(laid),
    }
}

/// How a quiz is graded. A quiz that isn't there is `Unknown`.
pub(crate) fn policy_of(alloc: Global, book: &Book, number: u32) -> Result<Policy, Refusal>
    requires { IsIndexed book.now }
    ensures value { IfOk result (λ p. p ≡ policy book.now.records.items number) }
    ensures there { OnOk result (missing_quiz book.now.records.items number ≡ None) }
    ensures refused { IfErr result (λ r. (r ≡ Refusal.Memory) ⊎ (missing_quiz book.now.records.items number ≡ Some r)) }
{
    if let Some(refusal) = missing_quiz(book, number) {
        return Err(refusal);
    }
    let slots = slots(alloc, book, number)?;
    Ok(policy(policy_terms(book, number), slots.as_slice()))
}

/// The question of a slot, if it is there.
fn question<'a>(entries: &'a Entries, slot: &Planned) -> Option<&'a Question>
    ensures { (c : List Record) → IsBankOf c entries.now → option_copied result ≡ version c slot.now.entry slot.now.version }
{
    follows_the_records();
    entries.version(slot.entry, slot.version)
}

/// The question of a version of an entry, if it is there.
pub(crate) fn version(book: &Book, entry: u32, number: u32) -> Option<&Question>
    requires { IsIndexed book.now }
    ensures { option_copied result ≡ version book.now.records.items entry number }
{
    follows_the_records();
    book.entries.version(entry, number)
}

/// The questions of the slots, in order, by the bank that all the records make.
pub(crate) fn questions(
    alloc: Global,
    records: &[Record],
    entries: &Entries,
    slots: &[Planned],
) -> Result<Listed<Question>, NoMemory>
    requires { IsBankOf records.now entries.now }
    ensures { IfOk result (λ found. found ≡ questions records.now slots.now) }
{
    let mut items = Vec::new(alloc);
    for slot in slots {
        if let Some(question) = question(entries, slot) {
            items.push(question.try_copy(alloc)?)?;
        }
    }
    Ok(Listed { items })
}

/// The plan of a quiz of this name and behaviour, under these settings and without its questions.
pub(crate) fn lean_plan(
    alloc: Global,
    book: &Book,
    number: u32,
    named: Named,
    settings: Settings,
) -> Result<Plan, NoMemory>
    requires indexed { IsIndexed book.now }
    requires named { at_place (quizzes book.now.records.items) number ≡ Some (named_in named) }
    ensures { IfOk result (λ p. option_map (lean false) (plan_under settings book.now.records.items number) ≡ Some p) }
{
    let slots = slots(alloc, book, number)?;
    Ok(Plan {
        at: book.records.len() as u64,
        quiz: number,
        name: named.name.try_copy(alloc)?,
        ready: is_ready(book, number),
        behaviour: named.behaviour,
        settings,
        policy: policy(policy_terms(book, number), slots.as_slice()),
        slots,
        questions: Listed::empty(alloc),
    })
}

/// A plan with the questions of its slots, by the bank that all the records make.
pub(crate) fn with_questions(alloc: Global, book: &Book, plan: Plan) -> Result<Plan, NoMemory>
    requires { IsIndexed book.now }
    ensures { IfOk result (λ p. p ≡ with_questions book.now.records.items plan) }
{
    Ok(Plan {
        questions: questions(alloc, &book.records, &book.entries, plan.slots.as_slice())?,
        ..plan
    })
}

/// The plan of a quiz for a user, with its questions where it is whole. A quiz that isn't there is `Unknown`, and then a user.
pub(crate) fn plan(
    alloc: Global,
    book: &Book,
    number: u32,
    user: u32,
    whole: bool,
) -> Result<Plan, Refusal>
    requires { IsIndexed book.now }
    ensures value { IfOk result (λ p. option_map (lean whole) (plan book.now.records.items number user) ≡ Some p) }
    ensures free { OnOk result (first_some (missing_quiz book.now.records.items number ∷ missing_user book.now.records.items user ∷ []) ≡ None) }
    ensures refused { IfErr result (λ r. (r ≡ Refusal.Memory) ⊎ (first_some (missing_quiz book.now.records.items number ∷ missing_user book.now.records.items user ∷ []) ≡ Some r)) }
{
    let Some(named) = book.roster.quizzes.named(&book.records, number) else {
        return Err(Refusal::Unknown { what: Thing::Quiz });
    };
    if let Some(refusal) = missing_user(book, user) {
        return Err(refusal);
    }
    let settings = settings(alloc, book, number, user)?;
    let plan = lean_plan(alloc, book, number, named, settings)?;
    if whole {
        return Ok(with_questions(alloc, book, plan)?);
    }
    Ok(plan)
}

/// The settings of a quiz that is ready, for a user of this number, who needn't be there.
pub(crate) fn ready_settings(
    alloc: Global,
    book: &Book,
    quiz: u32,
    user: u32,
) -> Result<Option<Settings>, NoMemory>
    requires { IsIndexed book.now }
    ensures { IfOk result (λ found. found ≡ ready_settings book.now.records.items quiz user) }
{
    if missing_quiz(book, quiz).is_some() || !is_ready(book, quiz) {
        return Ok(None);
    }
    Ok(Some(settings(alloc, book, quiz, user)?))
}
