//! The catalogue behind its lock.

ghost use Rattle.std.specs.Prelude.{◌≡◌};

use qz_catalog::Catalog;
use qz_disks::Keeper;
use qz_terms::Record;
use qz_turn::Told;
use std::marker::Model;

/// The catalogue behind its lock. It tells its records, the one in doubt, and how often its keeper failed.
#[derive(Drop)]
pub struct Records<K: Keeper> {
    pub(crate) catalog: Catalog<K>,
}

impl<K: Keeper> Model for Records<K> {
    ghost use Rattle.qz_catalog.specs.Keeping.{Keeping};

    ghost Value = { Keeping K };

    ghost view = { λ r. r.catalog };
}

impl<K: Keeper> Records<K> {
    /// What stands behind the lock of this catalogue.
    pub fn new(catalog: Catalog<K>) -> Records<K>
        ensures { result ≡ catalog }
    {
        Records { catalog }
    }

    /// The catalogue.
    pub fn into_catalog(self) -> Catalog<K>
        ensures { result ≡ self }
    {
        self.catalog
    }
}

impl<K: Keeper> Told for Records<K> {
    ghost use Rattle.qz_catalog_turns.specs.Turning.{tale_of};

    type Item = Record;

    type Key = ();

    ghost tells = { λ c. tale_of c.held (K.faults c.keeper) };

    ghost fits = { λ _ _. Unit {0} };

    fn len(&self) -> u64 {
        self.catalog.len()
    }
}
