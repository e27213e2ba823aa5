//! A shard behind its lock.

ghost use Rattle.std.specs.Prelude.{◌≡◌};

use qz_catalog_turns::Records;
use qz_disks::Keeper;
use qz_shard::Shard;
use qz_terms::Record;
use qz_turn::{Pass, Told};
use std::marker::Model;

/// A shard behind its lock, and a note of the catalogue's lock. Each record of the shard, and one in doubt, agrees with the list that the
/// note has seen.
#[derive(Drop)]
pub struct Part<K: Keeper> {
    pub(crate) shard: Shard<K>,
    pub(crate) note: Pass<Records<K>>,
}

impl<K: Keeper> Model for Part<K> {
    ghost use Rattle.qz_shard_turns.specs.Tying.{Behind};

    ghost Value = { Behind K };

    ghost view = { λ p. record { shard = p.shard; note = p.note } };
}

impl<K: Keeper> Part<K> {
    /// What stands behind the lock of this shard.
    pub fn new(shard: Shard<K>, note: Pass<Records<K>>) -> Part<K>
        ensures { result ≡ record { shard = shard; note = note } }
    {
        Part { shard, note }
    }

    /// The shard, and the note of the catalogue's lock.
    pub fn into_parts(self) -> (Shard<K>, Pass<Records<K>>)
        ensures { result ≡ (self.shard, self.note) }
    {
        (self.shard, self.note)
    }
}

/// Which shard stands behind a lock: a note of its catalogue's lock, its index, and how many shards there are.
#[derive(Drop)]
pub struct Place<K: Keeper> {
    note: Pass<Records<K>>,
    index: usize,
    count: usize,
}

impl<K: Keeper> Model for Place<K> {
    ghost use Rattle.qz_shard_turns.specs.Tying.{Placed};

    ghost Value = { Placed };

    ghost view = { λ p. record { note = p.note; index = p.index; count = p.count } };
}

impl<K: Keeper> Place<K> {
    /// The place of the shard with this index, of so many, under the catalogue of this note's lock.
    pub fn new(note: Pass<Records<K>>, index: usize, count: usize) -> Place<K>
        ensures { result ≡ record { note = note; index = index; count = count } }
    {
        Place { note, index, count }
    }
}

impl<K: Keeper> Told for Part<K> {
    ghost use Rattle.qz_catalog_turns.specs.Turning.{tale_of};
    ghost use Rattle.qz_shard_turns.specs.Tying.{IsTied};

    type Item = Record;

    type Key = Place<K>;

    ghost tells = { λ p. tale_of p.shard.held (K.faults p.shard.keeper) };

    ghost fits = { λ place p. IsTied place p };

    fn len(&self) -> u64 {
        self.shard.len()
    }
}
