//! A school of one shard, read of what the keepers of its two lists keep.

ghost use Rattle.std.specs.Prelude.{◌≡◌, ◌≤◌, None, length, IfSome, IfOk, IfErr, MatchResult};
ghost use Rattle.qz_sqlite.specs.Founding.{Counts};
ghost use Rattle.qz_sqlite.specs.Keepers.{AreGivenBack, IsReadFrom};
ghost use Rattle.qz_sqlite.specs.Reading.{AreRefused, with_founding};
ghost use Rattle.qz_terms.specs.declared.limits.TheConstants.{LONGEST_KEY};

use crate::catalog_list::read_catalog;
use crate::part_list::read_shards;
use qz_disks::Keeper;
use qz_loading::LoadFault;
use qz_solo::Solo;
use qz_sqlfolders::Keepers;
use qz_text::{Bytes, Listed, Text};
use std::alloc::Global;

/// Reads a school of one shard of the payloads of its catalogue and of its shard, which their keepers keep. A catalogue without a payload
/// is founded with one shard and the manager's token; where there is one the token isn't looked at.
///
/// After an error both keepers are given back. `Damaged` names the database, and the place from 1 of the first record that is illegal, in
/// the catalogue and then in the shard; a catalogue that was founded with another number of shards is damaged at place 1. `Behind` and
/// `Altered` tell the first record that disagrees with the catalogue. `Fault`: the catalogue's keeper failed to take the founding, which is
/// in doubt then. `Memory`: memory was wanting. It is never `NotFounded`.
pub fn read_school<K: Keeper>(
    alloc: Global,
    keepers: Keepers<K>,
    catalog: Listed<Bytes>,
    part: &[Bytes],
    token: &Text,
) -> Result<Solo<K>, (Keepers<K>, LoadFault)>
    requires settled_catalog { K.doubt keepers.catalog ≡ None }
    requires settled_part { K.doubt keepers.part ≡ None }
    requires kept_catalog { IfSome (K.kept keepers.catalog) (λ told. told ≡ catalog) }
    requires kept_part { IfSome (K.kept keepers.part) (λ told. told ≡ part.now) }
    requires short { length token.now ≤ LONGEST_KEY }
    ensures read { IfOk result
        (IsReadFrom (record { kept = K.kept; doubt = K.doubt })
        token.now catalog part.now keepers) }
    ensures refused { IfErr result
        (λ f. AreRefused (with_founding token.now catalog) part.now f.1) }
    ensures back { IfErr result
        (λ f. AreGivenBack (record { kept = K.kept; doubt = K.doubt })
        token.now catalog keepers f.0 f.1) }
    ensures counts { MatchResult result
        (λ made. K.faults keepers.catalog ≤ K.faults made.catalog.keeper)
        (λ f. Counts (K.faults keepers.catalog) (K.faults f.0.catalog) f.1) }
{
    let Keepers {
        catalog: keeper,
        part: other,
    } = keepers;
    match read_catalog(alloc, keeper, catalog, token) {
        Ok(catalog) => match read_shards(alloc, catalog.core(), other, part) {
            Ok(shards) => Ok(Solo::of(catalog, shards)),
            Err((part, fault)) => {
                let catalog = catalog.into_keeper();
                Err((Keepers { catalog, part }, fault))
            }
        },
        Err((catalog, fault)) => Err((
            Keepers {
                catalog,
                part: other,
            },
            fault,
        )),
    }
}
