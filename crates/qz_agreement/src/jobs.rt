//! Whether a record of a job agrees with the job, by the whole catalogue.

ghost use Rattle.std.specs.Bool.{Decides};
ghost use Rattle.std.specs.Prelude.{◌≡◌, IfOk, IfSome, Some, option_copied, option_map};
ghost use Rattle.qz_grading.specs.Grading.{at_place};
ghost use Rattle.qz_grading.specs.Shapes.{shape};
ghost use Rattle.qz_terms.specs.Answer.{bind};
ghost use Rattle.qz_terms.specs.Catalog.{job};
ghost use Rattle.qz_terms.specs.Kept.{IsKeptPlan};
ghost use Rattle.qz_terms.specs.Legal.{JobAgrees};
ghost use Rattle.qz_agreement.specs.Fitting.{BindsByJob, HasBound, SkipsByJob};

use crate::fitting::binds;
use qz_catalog::CatalogCore;
use qz_grading::{Refusal, Shape, shape_of};
use qz_terms::{Bound, Job, Plan};
use qz_text::NoMemory;
use std::alloc::Global;

/// The item at a place, from 1.
fn item_at<T>(items: &[T], place: u16) -> Option<&T>
    ensures { option_copied result ≡ at_place items.now place }
{
    items.get(usize::from(place).checked_sub(1)?)
}

/// A job, if it is there.
fn job_of(alloc: Global, catalog: &CatalogCore, number: u32) -> Result<Option<Job>, NoMemory>
    ensures job { IfOk result (λ j. j ≡ job catalog.now number) }
    ensures kept { IfOk result (λ j. IfSome j (λ found. IsKeptPlan found.plan)) }
{
    match catalog.job(alloc, number) {
        Ok(job) => Ok(Some(job)),
        Err(Refusal::Memory) => Err(NoMemory),
        Err(_) => Ok(None),
    }
}

/// Whether a job has this quiz and position.
pub(crate) fn is_job(
    alloc: Global,
    catalog: &CatalogCore,
    number: u32,
    quiz: u32,
    position: u64,
) -> Result<bool, NoMemory>
    ensures { IfOk result (λ b. Decides b (JobAgrees catalog.now number quiz position)) }
{
    match job_of(alloc, catalog, number)? {
        Some(job) => Ok(job.plan.quiz == quiz && job.position == position),
        None => Ok(false),
    }
}

/// Whether a job of this quiz binds a slot so.
pub(crate) fn job_binds(
    alloc: Global,
    catalog: &CatalogCore,
    number: u32,
    quiz: u32,
    slot: u16,
    bound: &Bound,
) -> Result<bool, NoMemory>
    ensures { IfOk result (λ b. Decides b (BindsByJob catalog.now number quiz slot bound.now)) }
{
    match job_of(alloc, catalog, number)? {
        Some(job) => Ok(job.plan.quiz == quiz && has_bound(&job, slot, bound)),
        None => Ok(false),
    }
}

/// Whether a job has this position and binds a slot so.
fn has_bound(job: &Job, slot: u16, bound: &Bound) -> bool
    ensures { Decides result (HasBound job.now slot bound.now) }
{
    job.position == bound.at && has_slot(&job.plan, slot, bound)
}

/// Whether a plan has this version and max mark at a slot.
fn has_slot(plan: &Plan, slot: u16, bound: &Bound) -> bool
    ensures { Decides result (option_map (bind bound.now.at) (at_place plan.now.slots slot) ≡ Some bound.now) }
{
    match item_at(plan.slots.as_slice(), slot) {
        Some(planned) => binds(bound.at, planned, bound),
        None => false,
    }
}

/// Whether a job of this quiz has a question of this shape at a slot.
pub(crate) fn job_skips(
    alloc: Global,
    catalog: &CatalogCore,
    number: u32,
    quiz: u32,
    slot: u16,
    newer: Shape,
) -> Result<bool, NoMemory>
    ensures { IfOk result (λ b. Decides b (SkipsByJob catalog.now number quiz slot newer)) }
{
    match job_of(alloc, catalog, number)? {
        Some(job) => Ok(job.plan.quiz == quiz && has_shape(&job, slot, newer)),
        None => Ok(false),
    }
}

/// Whether the question of a job's plan at a slot has this shape.
fn has_shape(job: &Job, slot: u16, newer: Shape) -> bool
    requires { IsKeptPlan job.now.plan }
    ensures { Decides result (option_map shape (at_place job.now.plan.questions slot) ≡ Some newer) }
{
    match item_at(job.plan.questions.as_slice(), slot) {
        Some(question) => shape_of(question) == newer,
        None => false,
    }
}
