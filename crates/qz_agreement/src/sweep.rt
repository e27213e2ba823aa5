//! The catalogue is gone through once for a shard, record by record, and its first records are asked what is left to ask of them.

ghost use Rattle.std.specs.Bool.{Decides};
ghost use Rattle.std.specs.List.Sorted.{IsNonDecreasingBy};
ghost use Rattle.std.specs.Prelude.{◌≡◌, ◌<◌, ◌≤◌, All, IfOk, OnOk, Some, length, slice_get, take};
ghost use Rattle.qz_terms.specs.declared.record.Record.{Record};
ghost use Rattle.qz_agreement.specs.declared.findings.Claim.{Claim};
ghost use Rattle.qz_agreement.specs.Findings.{AreSwept, IsClaim};
ghost use Rattle.qz_agreement.specs.Fitting.{Fits};

use crate::findings::{Claim, earlier};
use crate::fitting::fits;
use qz_catalog::CatalogCore;
use qz_terms::Record;
use qz_text::{NoMemory, TryCopy};
use std::alloc::Global;

/// Grows a catalogue of a whole one's first records to the first `at`.
fn grow(
    alloc: Global,
    whole: &CatalogCore,
    first: &mut CatalogCore,
    at: u64,
) -> Result<(), NoMemory>
    requires front { first.old ≡ take (length first.old) whole.now }
    requires below { length first.old ≤ at }
    requires within { at ≤ length whole.now }
    ensures { OnOk result (first.new ≡ take at whole.now) }
{
    let records = whole.records();
    for place in first.len()..at {
        let next = records[place as usize].try_copy(alloc)?;
        first.adopt(alloc, next)?;
    }
    Ok(())
}

/// A catalogue of a whole one's first record.
fn begun(alloc: Global, whole: &CatalogCore) -> Result<CatalogCore, NoMemory>
    ensures { IfOk result (λ first. first ≡ take 1 whole.now) }
{
    CatalogCore::begin(alloc, whole.records()[0].try_copy(alloc)?)
}

/// Whether the record that is asked about fits a catalogue's first records.
fn is_fit(
    alloc: Global,
    first: &CatalogCore,
    records: &[Record],
    claim: &Claim,
) -> Result<bool, NoMemory>
    requires { claim.now.index < length records.now }
    ensures { IfOk result (λ b. (r : Record) → slice_get records.now claim.now.index ≡ Some r
        → Decides b (Fits first.now claim.now.quiz r r.event)) }
{
    fits(alloc, first, claim.quiz, &records[claim.index])
}

/// Whether the record that is asked about fits the first records that it names. Those are all that there are, or what was grown of them
/// before is grown to them.
fn fits_then(
    alloc: Global,
    whole: &CatalogCore,
    first: &mut CatalogCore,
    records: &[Record],
    claim: &Claim,
) -> Result<bool, NoMemory>
    requires front { first.old ≡ take (length first.old) whole.now }
    requires below { length first.old ≤ claim.now.at }
    requires within { claim.now.at ≤ length whole.now }
    requires index { claim.now.index < length records.now }
    ensures fits { IfOk result (λ b. (r : Record) → slice_get records.now claim.now.index ≡ Some r
        → Decides b (Fits (take claim.now.at whole.now) claim.now.quiz r r.event)) }
    ensures front { OnOk result (first.new ≡ take (length first.new) whole.now) }
    ensures below { OnOk result (length first.new ≤ claim.now.at) }
{
    if claim.at == whole.len() {
        return is_fit(alloc, whole, records, claim);
    }
    grow(alloc, whole, first, claim.at)?;
    is_fit(alloc, first, records, claim)
}

/// Asks all that is left to ask, which is in order of the positions. The first record that disagrees is told, of those asked about and
/// the one that was found before.
pub(crate) fn sweep(
    alloc: Global,
    whole: &CatalogCore,
    records: &[Record],
    claims: &[Claim],
    found: Option<usize>,
) -> Result<Option<usize>, NoMemory>
    requires claims { All (IsClaim whole.now records.now) claims.now }
    requires sorted { IsNonDecreasingBy (λ (a : Claim). a.at) claims.now }
    ensures { IfOk result (λ last. AreSwept whole.now records.now claims.now found last (length claims.now)) }
{
    let mut last = found;
    let mut first = begun(alloc, whole)?;
    for claim in claims {
        if !fits_then(alloc, whole, &mut first, records, claim)? {
            last = Some(earlier(last, claim.index));
        }
    }
    Ok(last)
}
