//! The bytes of a record, and the record that bytes spell.

ghost use Rattle.std.specs.Prelude.{◌≡◌, ◌<◌, ◌^◌, true, [], length, IfOk, MatchResult};
ghost use Rattle.qz_terms.specs.declared.record.Record.{Record};
ghost use Rattle.qz_terms.specs.Kept.{IsKept};
ghost use Rattle.qz_terms.specs.Spelling.{spelling};
ghost use Rattle.qz_record.specs.declared.fault.RecordFault.TheVariants.{Memory, NotOne};
ghost use Rattle.qz_record.specs.Parts.{record_field};
ghost use Rattle.qz_record.specs.Records.{IsRecord, is_spellable};

use crate::RecordFault;
use crate::events::{record_from, write_record};
use crate::keeping::is_kept;
use qz_terms::Record;
use qz_text::{Bytes, NoMemory};
use std::alloc::Global;

/// The bytes of a record. They grow in one piece, and no part is copied before.
pub fn spell(alloc: Global, record: &Record) -> Result<Bytes, NoMemory>
    ensures spelled { IfOk result (λ bytes. bytes ≡ spelling «record».now) }
    // A kept one has a spelling of its own, where its bytes are few enough to be counted in 32 bits.
    ensures fits { IsKept «record».now
        → IfOk result (λ bytes. length bytes < 2 ^ 32 → is_spellable «record».now ≡ true) }
{
    let mut items = Vec::new(alloc);
    write_record(record, &mut items)?;
    Ok(Bytes { items })
}

/// A record that is all of a payload, whatever it keeps.
fn whole(alloc: Global, payload: &[u8]) -> Result<Record, RecordFault>
    ensures { MatchResult result (λ r. record_field.read payload.now ≡ Some (r, []))
        (λ e. e ≡ NotOne → (r : Record) → record_field.read payload.now ≡ Some (r, []) → ⊥) }
{
    let mut rest = payload;
    let record = record_from(alloc, &mut rest)?;
    if !rest.is_empty() {
        return Err(RecordFault::NotOne);
    }
    Ok(record)
}

/// The record that a payload spells, all of it.
///
/// [`RecordFault::NotOne`] comes exactly where the payload is the spelling of no record that keeps what every record keeps:
/// the ranges of its numbers, the lengths of its texts, and the conditions on its questions. Nor is it one where a request
/// brings a description with a general feedback, which no such request has.
pub fn parse(alloc: Global, payload: &[u8]) -> Result<Record, RecordFault>
    // What is read is spelled so.
    ensures found { IfOk result (λ r. IsRecord r × (payload.now ≡ spelling r)) }
    // What is spelled so is read, where there is memory for it.
    ensures only { (r : Record) → IsRecord r → payload.now ≡ spelling r
        → MatchResult result (λ made. made ≡ r) (λ e. e ≡ Memory) }
{
    let record = whole(alloc, payload)?;
    if !is_kept(&record) {
        return Err(RecordFault::NotOne);
    }
    Ok(record)
}
