//! The shard's list: read of its payloads, and compared with the catalogue.

ghost use Rattle.std.specs.Prelude.{◌≡◌, ◌∷◌, [], None, IfSome, IfOk, IfErr, OnOk};
ghost use Rattle.qz_agreement.specs.Disagreements.{AreOfShard};
ghost use Rattle.qz_loading.specs.declared.fault.LoadFault.TheVariants.{Memory};
ghost use Rattle.qz_loading.specs.Reading.{IsDisagreement};
ghost use Rattle.qz_shard.specs.Keeping.{IsOpened};
ghost use Rattle.qz_sqlite.specs.Keepers.{IsOnlyPart};
ghost use Rattle.qz_sqlite.specs.Reading.{IsPartFault, IsPartRefused};
ghost use Rattle.qz_terms.specs.Legal.{AllAgree};

use crate::telling::unread;
use qz_agreement::{Disagreement, first_disagreement};
use qz_catalog::CatalogCore;
use qz_disks::Keeper;
use qz_loading::LoadFault;
use qz_shard::Shard;
use qz_sqlfolders::part_name;
use qz_terms::Record;
use qz_text::Bytes;
use std::alloc::{AllocFailed, Global};

/// Reads the list of the only shard of the payloads that its keeper keeps. After an error the keeper is given back.
fn read_part<K: Keeper>(
    alloc: Global,
    keeper: K,
    payloads: &[Bytes],
) -> Result<Shard<K>, (K, LoadFault)>
    requires settled { K.doubt keeper ≡ None }
    requires kept { IfSome (K.kept keeper) (λ told. told ≡ payloads.now) }
    ensures opened { IfOk result (IsOpened 0 1 payloads.now keeper) }
    ensures refused { IfErr result (λ f. IsPartRefused payloads.now f.1) }
    ensures back { IfErr result (λ f. f.0 ≡ keeper) }
{
    match Shard::load(alloc, 0, 1, keeper, payloads) {
        Ok(shard) => Ok(shard),
        Err((keeper, fault)) => Err((keeper, unread(alloc, part_name(), fault))),
    }
}

/// Asks for the first record of the shard that doesn't agree with the catalogue.
fn agree(alloc: Global, catalog: &CatalogCore, records: &[Record]) -> Result<(), LoadFault>
    requires { AreOfShard records.now }
    ensures agree { OnOk result (AllAgree catalog.now records.now) }
    ensures why { IfErr result (IsDisagreement catalog.now 0 records.now) }
{
    match first_disagreement(alloc, catalog, records)? {
        Some(Disagreement::Behind { position }) => Err(LoadFault::Behind {
            shard: 0,
            position,
            length: catalog.len(),
        }),
        Some(Disagreement::Altered { place }) => Err(LoadFault::Altered { shard: 0, place }),
        None => Ok(()),
    }
}

/// The shards of a school that has this one alone. After an error its keeper is given back.
fn alone<K: Keeper>(alloc: Global, shard: Shard<K>) -> Result<Vec<Shard<K>>, (K, LoadFault)>
    ensures alone { IfOk result (λ shards. shards.items ≡ shard ∷ []) }
    ensures memory { IfErr result (λ f. f.1 ≡ Memory) }
    ensures back { IfErr result (λ f. f.0 ≡ shard.keeper) }
{
    let mut shards = Vec::new(alloc);
    match shards.push(shard) {
        Ok(()) => Ok(shards),
        Err(AllocFailed { value }) => {
            shards.destroy_empty();
            Err((value.into_keeper(), LoadFault::Memory))
        }
    }
}

/// Reads the list of the only shard of the payloads that its keeper keeps, of which each record has to agree with the catalogue.
///
/// After an error the keeper is given back. `Damaged`: a record is illegal. `Behind` or `Altered`: it is the first that disagrees.
/// `Memory`: memory was wanting.
pub(crate) fn read_shards<K: Keeper>(
    alloc: Global,
    catalog: &CatalogCore,
    keeper: K,
    payloads: &[Bytes],
) -> Result<Vec<Shard<K>>, (K, LoadFault)>
    requires settled { K.doubt keeper ≡ None }
    requires kept { IfSome (K.kept keeper) (λ told. told ≡ payloads.now) }
    ensures read { IfOk result (λ shards. IsOnlyPart catalog.now payloads.now keeper shards.items) }
    ensures refused { IfErr result (λ f. IsPartFault catalog.now payloads.now f.1) }
    ensures back { IfErr result (λ f. f.0 ≡ keeper) }
{
    let shard = read_part(alloc, keeper, payloads)?;
    match agree(alloc, catalog, shard.records()) {
        Ok(()) => alone(alloc, shard),
        Err(fault) => Err((shard.into_keeper(), fault)),
    }
}
