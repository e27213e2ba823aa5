//! Whether a record fits the catalogue's first records, those up to the position that it names.

ghost use Rattle.std.specs.Bool.{Decides};
ghost use Rattle.std.specs.List.{list_all};
ghost use Rattle.std.specs.Prelude.{◌≡◌, IfNone, IfOk, IfSome, IsSomeAnd, is_some, map, option_map, Some, false, true, zip};
ghost use Rattle.qz_grading.specs.Grading.{at_place};
ghost use Rattle.qz_terms.specs.declared.plan.Bound.{Bound};
ghost use Rattle.qz_terms.specs.declared.plan.Planned.{Planned};
ghost use Rattle.qz_terms.specs.Answer.{bind};
ghost use Rattle.qz_terms.specs.Catalog.{plan, users};
ghost use Rattle.qz_terms.specs.Legal.{LearnsFrom};
ghost use Rattle.qz_catalog.specs.Holdings.{lean};
ghost use Rattle.qz_agreement.specs.Fitting.{Fits, IsUnder, StartFits, StepFits};
ghost use Rattle.qz_agreement.specs.Tests.{binds, is_known};

use qz_catalog::CatalogCore;
use qz_grading::{Behaviour, Refusal, same_question};
use qz_terms::{Bound, Event, Learned, Plan, Planned, Record, Terms};
use qz_text::NoMemory;
use std::alloc::Global;

/// Whether a version was learned as the catalogue has it.
fn is_known(catalog: &CatalogCore, learned: &Learned) -> bool
    ensures { result ≡ is_known catalog.now learned.now }
{
    match catalog.version(learned.entry, learned.version) {
        Some(question) => same_question(question, &learned.question),
        None => false,
    }
}

fn are_known(catalog: &CatalogCore, learned: &[Learned]) -> bool
    ensures { result ≡ list_all (is_known catalog.now) learned.now }
{
    learned.iter().all(|version| is_known(catalog, version))
}

/// Whether all these versions were.
fn learns_from(catalog: &CatalogCore, learned: &[Learned]) -> bool
    ensures { Decides result (LearnsFrom catalog.now learned.now) }
{
    are_known(catalog, learned)
}

/// Whether a slot was bound so at this position.
pub(crate) fn binds(position: u64, slot: &Planned, bound: &Bound) -> bool
    ensures { result ≡ binds position slot.now bound.now }
{
    bound.entry == slot.entry
        && bound.version == slot.version
        && bound.max.0 == slot.max.0
        && bound.at == position
}
/// Whether each bound is of the slot at its place.
fn all_bind(position: u64, slots: &[Planned], bounds: &[Bound]) -> bool
    ensures { result ≡ list_all (λ (p : Bound × Planned). binds position p.1 p.0) (zip bounds.now slots.now) }
{
    bounds
        .iter()
        .zip(slots)
        .all(|(bound, slot)| binds(position, slot, bound))
}

/// Whether every slot was bound so, in order, and nothing else.
fn are_bound(position: u64, slots: &[Planned], bounds: &[Bound]) -> bool
    ensures { Decides result (bounds.now ≡ map (bind position) slots.now) }
{
    bounds.len() == slots.len() && all_bind(position, slots, bounds)
}

/// The plan of a quiz for a user who is there, without its questions, if the quiz is there too.
fn plan_of(
    alloc: Global,
    catalog: &CatalogCore,
    quiz: u32,
    user: u32,
) -> Result<Option<Plan>, NoMemory>
    ensures plan { IfOk result (λ p. IfSome p (λ found. option_map (lean false) (plan catalog.now quiz user) ≡ Some found)) }
    ensures user { IfOk result (λ p. IfSome p (λ found. is_some (at_place (users catalog.now) user) ≡ true)) }
    ensures none { IfOk result (λ p. IfNone p ((is_some (plan catalog.now quiz user) ≡ true → is_some (at_place (users catalog.now) user) ≡ true → ⊥))) }
{
    match catalog.plan(alloc, quiz, user, false) {
        Ok(plan) => Ok(Some(plan)),
        Err(Refusal::Memory) => Err(NoMemory),
        Err(_) => Ok(None),
    }
}

/// Whether a start has the settings, the behaviour and the slots of a plan that is ready.
fn is_under(plan: &Plan, terms: &Terms, behaviour: Behaviour, bounds: &[Bound]) -> bool
    ensures { Decides result (IsUnder plan.now terms.now behaviour bounds.now) }
{
    plan.ready
        && terms.settings == plan.settings
        && behaviour == plan.behaviour
        && are_bound(terms.at, plan.slots.as_slice(), bounds)
}

/// Whether a start fits: the user and the quiz are there, and it has what the plan has.
fn start_fits(
    alloc: Global,
    catalog: &CatalogCore,
    record: &Record,
    quiz: u32,
    behaviour: Behaviour,
    bounds: &[Bound],
    learned: &[Learned],
) -> Result<bool, NoMemory>
    ensures { IfOk result (λ b. Decides b (IsSomeAnd («record».now).terms (λ t. StartFits catalog.now t quiz («record».now).owner behaviour bounds.now learned.now))) }
{
    let Some(terms) = &record.terms else {
        return Ok(false);
    };
    let Some(plan) = plan_of(alloc, catalog, quiz, record.owner)? else {
        return Ok(false);
    };
    if !is_under(&plan, terms, behaviour, bounds) {
        return Ok(false);
    }
    Ok(learns_from(catalog, learned))
}

/// Whether a step or an end of an attempt of a quiz fits.
fn step_fits(
    alloc: Global,
    catalog: &CatalogCore,
    terms: Option<Terms>,
    quiz: u32,
    user: u32,
) -> Result<bool, NoMemory>
    ensures { IfOk result (λ b. Decides b (StepFits catalog.now terms quiz user)) }
{
    let Some(terms) = terms else {
        return Ok(false);
    };
    match catalog.ready_settings(alloc, quiz, user)? {
        Some(settings) => Ok(settings == terms.settings),
        None => Ok(false),
    }
}

/// Whether a record fits the catalogue's first records, which these are, if it is of an attempt of this quiz. Of a newer version that
/// is bound only the question is looked at.
pub(crate) fn fits(
    alloc: Global,
    catalog: &CatalogCore,
    quiz: u32,
    record: &Record,
) -> Result<bool, NoMemory>
    ensures { IfOk result (λ b. Decides b (Fits catalog.now quiz «record».now («record».now).event)) }
{
    match &record.event {
        Event::Started {
            quiz,
            behaviour,
            bounds,
            learned,
            ..
        } => start_fits(
            alloc,
            catalog,
            record,
            *quiz,
            *behaviour,
            bounds.as_slice(),
            learned.as_slice(),
        ),
        Event::Acted { attempt, .. }
        | Event::Noted { attempt, .. }
        | Event::Ended { attempt, .. } => {
            step_fits(alloc, catalog, record.terms, quiz, attempt.user)
        }
        Event::Rebound { learned, .. } => Ok(learns_from(catalog, learned.as_slice())),
        Event::Founded { .. }
        | Event::Asked { .. }
        | Event::Skipped { .. }
        | Event::JobDone { .. } => Ok(false),
    }
}
