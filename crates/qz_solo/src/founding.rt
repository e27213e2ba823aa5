//! The lists of a school in memory that is just founded.

ghost use Rattle.std.specs.Prelude.{◌≡◌, ◌<◌, ◌≤◌, [], length, IfOk};
ghost use Rattle.qz_terms.specs.declared.limits.TheConstants.{LONGEST_KEY, MOST_SHARDS};
ghost use Rattle.qz_catalog.specs.Holdings.{founded};
ghost use Rattle.qz_terms.specs.Serial.{with_list};
ghost use Rattle.qz_solo.specs.Memory.{AreFresh};

use crate::unkept::Unkept;
use qz_catalog::Catalog;
use qz_folders::founding_payload;
use qz_record::{ListFault, laws};
use qz_shard::Shard;
use qz_text::{NoMemory, Text};
use std::alloc::Global;

/// The catalogue: its list is the record of the founding.
pub(crate) fn founded(alloc: Global, shards: u8, token: &Text) -> Result<Catalog<Unkept>, NoMemory>
    requires some { 1 ≤ shards }
    requires few { shards ≤ MOST_SHARDS }
    requires short { length token.now ≤ LONGEST_KEY }
    ensures { IfOk result (λ catalog. catalog.held ≡ with_list (founded shards token.now)) }
{
    laws::one_spelling();
    let payloads = [founding_payload(alloc, shards, token)?];
    match Catalog::load(alloc, Unkept, &payloads) {
        Ok(catalog) => Ok(catalog),
        Err((_, Some(ListFault::Memory))) => Err(NoMemory),
        Err((_, Some(ListFault::Illegal { .. }))) => unreachable!(),
        Err((_, None)) => unreachable!(),
    }
}

/// A shard without a record.
fn empty(alloc: Global, index: u8, count: u8) -> Result<Shard<Unkept>, NoMemory>
    requires inside { index < count }
    requires few { count ≤ MOST_SHARDS }
    ensures index { IfOk result (λ shard. shard.index ≡ index) }
    ensures count { IfOk result (λ shard. shard.count ≡ count) }
    ensures empty { IfOk result (λ shard. shard.held ≡ with_list []) }
{
    match Shard::load(alloc, index, count, Unkept, &[]) {
        Ok(shard) => Ok(shard),
        Err((_, ListFault::Memory)) => Err(NoMemory),
        Err((_, ListFault::Illegal { .. })) => unreachable!(),
    }
}

/// So many shards without a record, from 1 to 64.
pub(crate) fn fresh(alloc: Global, count: u8) -> Result<Vec<Shard<Unkept>>, NoMemory>
    requires few { count ≤ MOST_SHARDS }
    ensures { IfOk result (λ shards. AreFresh count count shards.items) }
{
    let mut shards = Vec::new(alloc);
    for index in 0..count {
        shards.push(empty(alloc, index, count)?)?;
    }
    Ok(shards)
}
