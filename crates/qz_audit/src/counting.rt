//! How many records a school has.

ghost use Rattle.std.specs.Prelude.{◌≡◌, ◌+◌, length, sum_by};
ghost use Rattle.qz_audit.specs.Audits.{records_in};
ghost use Rattle.qz_school.specs.Solos.{lists_in};

use qz_disks::Keeper;
use qz_shard::Shard;
use qz_solo::Solo;

/// How many records the lists of these shards have, and so many more.
fn count_all<K: Keeper>(first: u64, shards: &Vec<Shard<K>>) -> u128
    ensures { result ≡ first + sum_by (λ s. length s.held.list) shards.now.items }
{
    let mut count = u128::from(first);
    for index in 0..shards.len() {
        count += u128::from(shards[index].len());
    }
    count
}

/// How many records all lists of a school have, without those in doubt. The school comes back.
pub(crate) fn count_records<K: Keeper>(solo: Solo<K>) -> (Solo<K>, u128)
    ensures same { result.0 ≡ solo }
    ensures count { result.1 ≡ records_in (lists_in solo) }
{
    let (catalog, shards) = solo.into_parts();
    let count = count_all(catalog.len(), &shards);
    (Solo::of(catalog, shards), count)
}
