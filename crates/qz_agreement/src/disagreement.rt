//! The first record of a shard that doesn't agree with the catalogue.

ghost use Rattle.std.specs.Prelude.{◌≡◌, ◌<◌, IfOk, Some, filter, find, length, map, nat_lt, slice_get};
ghost use Rattle.qz_terms.specs.declared.plan.Bound.{Bound};
ghost use Rattle.qz_terms.specs.declared.record.Record.{Record};
ghost use Rattle.qz_terms.specs.Catalog.{users};
ghost use Rattle.qz_agreement.specs.Disagreements.{AreOfShard, IsAnswer, IsTold};
ghost use Rattle.qz_agreement.specs.Findings.{AreJudged, AreLookedAt};
ghost use Rattle.qz_terms.specs.Legal.{positions_by};
ghost use Rattle.qz_terms.specs.Lists.{first_of};
ghost use Rattle.qz_agreement.specs.Tests.{first_past};

use crate::findings::Findings;
use crate::look::look;
use crate::quizzes::Quizzes;
use crate::sweep::sweep;
use qz_catalog::CatalogCore;
use qz_terms::{Bound, Event, Record};
use qz_text::NoMemory;
use std::alloc::Global;

/// What doesn't agree first.
#[derive(Clone, Copy, Debug, PartialEq, Eq)]
pub enum Disagreement {
    /// The record names this position, which is past the catalogue's end: the catalogue is behind.
    Behind { position: u64 },
    /// The record at this place, from 1, was altered, or the catalogue was.
    Altered { place: u64 },
}

/// How many users the catalogue has.
fn user_count(alloc: Global, catalog: &CatalogCore) -> Result<usize, NoMemory>
    ensures { IfOk result (λ count. count ≡ length (users catalog.now)) }
{
    match catalog.names(alloc) {
        Ok(names) => Ok(names.as_slice().len()),
        Err(_) => Err(NoMemory),
    }
}

/// Looks at the records of a shard, in order.
fn look_at(alloc: Global, catalog: &CatalogCore, records: &[Record]) -> Result<Findings, NoMemory>
    requires legal { AreOfShard records.now }
    ensures { IfOk result (λ f. AreLookedAt catalog.now records.now f (length records.now)) }
{
    let count = user_count(alloc, catalog)?;
    let mut quizzes = Quizzes::new(alloc);
    let mut findings = Findings::new(alloc);
    for (index, record) in records.iter().enumerate() {
        let verdict = look(alloc, catalog, count, &quizzes, record)?;
        findings.note(index, verdict)?;
        quizzes.follow(record)?;
    }
    Ok(findings)
}

/// The index of the first record that is known to disagree, once all is asked.
fn first_bad(
    alloc: Global,
    catalog: &CatalogCore,
    records: &[Record],
) -> Result<Option<usize>, NoMemory>
    requires legal { AreOfShard records.now }
    ensures { IfOk result (AreJudged catalog.now records.now) }
{
    let mut findings = look_at(alloc, catalog, records)?;
    findings.claims.sort_by_key(|claim| claim.at)?;
    sweep(alloc, catalog, records, &findings.claims, findings.first)
}

/// The first position that a record names past the end of a catalogue of so many.
fn first_past(count: u64, record: &Record) -> Option<u64>
    ensures { result ≡ first_past count «record».now }
{
    match &record.terms {
        Some(terms) if count < terms.at => Some(terms.at),
        _ => bound_past(count, &record.event),
    }
}

/// The same of the bounds of a start.
fn first_bound_past(count: u64, bounds: &[Bound]) -> Option<u64>
    ensures { result ≡ find (nat_lt count) (map (λ (b : Bound). b.at) bounds.now) }
{
    bounds.iter().map(|bound| bound.at).find(|at| count < *at)
}

/// The same of what it binds, and of a job that is done.
fn bound_past(count: u64, event: &Event) -> Option<u64>
    ensures { result ≡ first_of (filter (nat_lt count) (positions_by event.now)) }
{
    match event {
        Event::Started { bounds, .. } => first_bound_past(count, bounds.as_slice()),
        Event::Rebound { bound, .. } => Some(bound.at).filter(|at| count < *at),
        Event::JobDone { position, .. } => Some(*position).filter(|at| count < *at),
        Event::Founded { .. }
        | Event::Asked { .. }
        | Event::Acted { .. }
        | Event::Noted { .. }
        | Event::Ended { .. }
        | Event::Skipped { .. } => None,
    }
}

/// What is told of the record at this index, which disagrees, over a catalogue of so many records.
fn told(count: u64, records: &[Record], index: usize) -> Disagreement
    requires { index < length records.now }
    ensures { (r : Record) → slice_get records.now index ≡ Some r → IsTold count index r result }
{
    match first_past(count, &records[index]) {
        Some(position) => Disagreement::Behind { position },
        None => Disagreement::Altered {
            place: index as u64 + 1,
        },
    }
}

/// The first of a shard's records that doesn't agree with the catalogue, in order, if there is one.
///
/// They have to be a list that is legal for its shard. The time grows with these records and with those of the catalogue, which is gone
/// through up to the greatest position that a record names within it.
pub fn first_disagreement(
    alloc: Global,
    catalog: &CatalogCore,
    records: &[Record],
) -> Result<Option<Disagreement>, NoMemory>
    requires legal { AreOfShard records.now }
    ensures { IfOk result (IsAnswer catalog.now records.now) }
{
    match first_bad(alloc, catalog, records)? {
        Some(index) => Ok(Some(told(catalog.len(), records, index))),
        None => Ok(None),
    }
}
