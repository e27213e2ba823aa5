//! The names of a school's databases.

ghost use Rattle.std.specs.Prelude.{◌≡◌};
ghost use Rattle.qz_sqlfolders.specs.Names.{catalog_name, part_name};

/// The name of the catalogue's database.
pub fn catalog_name() -> &'static str
    ensures { result.now ≡ catalog_name }
{
    "catalog.db"
}

/// The name of the shard's database.
pub fn part_name() -> &'static str
    ensures { result.now ≡ part_name }
{
    "part-00.db"
}
