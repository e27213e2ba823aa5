//! The keepers of a school's two lists.

ghost use Rattle.std.specs.Prelude.{◌≡◌, ◌∷◌, [], length};
ghost use Rattle.qz_sqlite.specs.Keepers.{AreKeepersOf};

use qz_disks::Keeper;
use qz_shard::Shard;
use qz_solo::Solo;
use qz_sqlfolders::Keepers;

/// The only one of these shards.
fn only<K: Keeper>(mut shards: Vec<Shard<K>>) -> Shard<K>
    requires { length shards.items ≡ 1 }
    ensures { shards.items ≡ result ∷ [] }
{
    let Some(shard) = shards.pop() else {
        unreachable!()
    };
    shards.destroy_empty();
    shard
}

/// The keepers of a school of one shard, each as it stores its list. It takes no memory.
pub fn into_keepers<K: Keeper>(school: Solo<K>) -> Keepers<K>
    requires { length school.parts ≡ 1 }
    ensures { AreKeepersOf (record { kept = K.kept; doubt = K.doubt }) school result }
{
    school.attest();
    let (catalog, shards) = school.into_parts();
    Keepers {
        catalog: catalog.into_keeper(),
        part: only(shards).into_keeper(),
    }
}
