//! A job of a catalogue.

ghost use Rattle.std.specs.Prelude.{◌≡◌, ◌⊎◌, None, Some, IfErr, IfOk};
ghost use Rattle.qz_grading.specs.declared.refusal.Refusal.TheVariants as refusal;
ghost use Rattle.qz_terms.specs.Catalog.{job};
ghost use Rattle.qz_catalog.specs.Holdings.{IsBook};

use crate::book::Book;
use crate::pins::pinned;
use crate::planning::with_questions;
use qz_grading::{Refusal, Thing};
use qz_terms::Job;
use qz_text::TryCopy;
use std::alloc::Global;

/// A job, with the plan of its quiz at its position. A job that isn't there is `Unknown`.
pub(crate) fn job(alloc: Global, book: &Book, number: u32) -> Result<Job, Refusal>
    requires { IsBook book.now }
    ensures value { IfOk result (λ j. job book.now.records.items number ≡ Some j) }
    ensures refused { IfErr result (λ r. (r ≡ refusal.Memory) ⊎ ((r ≡ Refusal.Unknown Thing.Job) × (job book.now.records.items number ≡ None))) }
{
    let Some(pinned) = pinned(book, number) else {
        return Err(Refusal::Unknown { what: Thing::Job });
    };
    let plan = pinned.try_copy(alloc)?;
    Ok(Job {
        number,
        position: plan.at,
        plan: with_questions(alloc, book, plan)?,
    })
}
