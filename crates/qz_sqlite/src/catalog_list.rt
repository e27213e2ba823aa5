//! The catalogue's list: read of its payloads, or founded where there are none.

ghost use Rattle.std.specs.Prelude.{◌≡◌, ◌≢◌, ◌≤◌, [], None, Some, length, IfSome, IfOk, IfErr, OnOk, MatchResult};
ghost use Rattle.std.specs.Bool.{Decides};
ghost use Rattle.qz_catalog.specs.Keeping.{IsOpened};
ghost use Rattle.qz_disks.specs.Keepers.{HasKeepCause};
ghost use Rattle.qz_loading.specs.Telling.{TellsDamageOf};
ghost use Rattle.qz_sqlite.specs.Founding.{Counts, Founds, IsGivenBack};
ghost use Rattle.qz_sqlite.specs.Keepers.{IsCatalogOf};
ghost use Rattle.qz_sqlfolders.specs.Names.{catalog_name};
ghost use Rattle.qz_sqlite.specs.Reading.{IsCatalogFault, IsCatalogRefused, with_founding};
ghost use Rattle.qz_terms.specs.declared.limits.TheConstants.{LONGEST_KEY};
ghost use Rattle.qz_terms.specs.Catalog.{shards};

use crate::telling::{damaged, kept_fault, unread};
use qz_catalog::{Catalog, CatalogCore};
use qz_disks::{KeepErr, Keeper};
use qz_folders::founding_payload;
use qz_loading::LoadFault;
use qz_sqlfolders::catalog_name;
use qz_terms::Event;
use qz_text::{Bytes, Listed, Text};
use std::alloc::Global;

/// Whether a catalogue was founded with one shard.
fn has_one_shard(catalog: &CatalogCore) -> bool
    ensures { Decides result (shards catalog.now ≡ Some 1) }
{
    let Event::Founded { shards, .. } = &catalog.records()[0].event else {
        unreachable!()
    };
    *shards == 1
}

/// The catalogue, where it was founded with one shard.
fn of_one_shard<K: Keeper>(alloc: Global, catalog: Catalog<K>) -> Result<Catalog<K>, (K, LoadFault)>
    ensures same { IfOk result (λ same. same ≡ catalog) }
    ensures one { IfOk result (λ same. shards same.held.list ≡ Some 1) }
    ensures other { IfErr result (λ f. shards catalog.held.list ≢ Some 1) }
    ensures told { IfErr result (λ f. TellsDamageOf catalog_name 1 f.1) }
    ensures back { IfErr result (λ f. f.0 ≡ catalog.keeper) }
{
    if has_one_shard(catalog.core()) {
        return Ok(catalog);
    }
    let fault = damaged(alloc, catalog_name(), 1);
    Err((catalog.into_keeper(), fault))
}

/// Reads the catalogue's list of the payloads that its keeper keeps, of which there is one at least. After an error the keeper is given
/// back.
fn read_founded<K: Keeper>(
    alloc: Global,
    keeper: K,
    payloads: &[Bytes],
) -> Result<Catalog<K>, (K, LoadFault)>
    requires settled { K.doubt keeper ≡ None }
    requires kept { IfSome (K.kept keeper) (λ told. told ≡ payloads.now) }
    requires some { payloads.now ≢ [] }
    ensures opened { IfOk result (IsOpened payloads.now keeper) }
    ensures one { IfOk result (λ made. shards made.held.list ≡ Some 1) }
    ensures refused { IfErr result (λ f. IsCatalogRefused payloads.now f.1) }
    ensures back { IfErr result (λ f. f.0 ≡ keeper) }
{
    match Catalog::load(alloc, keeper, payloads) {
        Ok(catalog) => of_one_shard(alloc, catalog),
        Err((keeper, told)) => match told {
            Some(fault) => Err((keeper, unread(alloc, catalog_name(), fault))),
            None => unreachable!(),
        },
    }
}

/// Founds a school of one shard where a catalogue's list has no payload: the founding is appended, and is its only payload then.
///
/// The token isn't looked at where there is a payload.
fn found<K: Keeper>(
    alloc: Global,
    keeper: &mut K,
    payloads: &mut Listed<Bytes>,
    token: &Text,
) -> Result<(), KeepErr>
    requires settled { K.doubt keeper.old ≡ None }
    requires short { length token.now ≤ LONGEST_KEY }
    ensures payloads { OnOk result (payloads.new ≡ with_founding token.now payloads.old) }
    ensures founds { Founds (record { kept = K.kept; doubt = K.doubt })
        token.now payloads.old keeper.old keeper.new result }
    ensures cause { HasKeepCause (K.faults keeper.old) (K.faults keeper.new) result }
{
    if !payloads.as_slice().is_empty() {
        return Ok(());
    }
    let payload = founding_payload(alloc, 1, token)?;
    payloads.items.reserve(1)?;
    keeper.append(alloc, payload.as_slice())?;
    payloads.items.push_reserved(payload);
    Ok(())
}

/// Reads the catalogue's list of the payloads that its keeper keeps, or founds it where there are none.
///
/// After an error the keeper is given back. `Damaged`: a record is illegal, or the catalogue was founded with another number of shards
/// than one. `Fault`: the keeper failed to take the founding. `Memory`: memory was wanting.
pub(crate) fn read_catalog<K: Keeper>(
    alloc: Global,
    keeper: K,
    payloads: Listed<Bytes>,
    token: &Text,
) -> Result<Catalog<K>, (K, LoadFault)>
    requires settled { K.doubt keeper ≡ None }
    requires kept { IfSome (K.kept keeper) (λ told. told ≡ payloads) }
    requires short { length token.now ≤ LONGEST_KEY }
    ensures read { IfOk result
        (IsCatalogOf (record { kept = K.kept; doubt = K.doubt })
        token.now payloads keeper) }
    ensures one { IfOk result (λ made. shards made.held.list ≡ Some 1) }
    ensures refused { IfErr result
        (λ f. IsCatalogFault (with_founding token.now payloads) f.1) }
    ensures back { IfErr result
        (λ f. IsGivenBack (record { kept = K.kept; doubt = K.doubt })
        token.now payloads keeper f.0 f.1) }
    ensures counts { MatchResult result (λ made. K.faults keeper ≤ K.faults made.keeper)
        (λ f. Counts (K.faults keeper) (K.faults f.0) f.1) }
{
    let mut keeper = keeper;
    let mut payloads = payloads;
    match found(alloc, &mut keeper, &mut payloads, token) {
        Ok(()) => read_founded(alloc, keeper, payloads.as_slice()),
        Err(fault) => Err((keeper, kept_fault(fault))),
    }
}
