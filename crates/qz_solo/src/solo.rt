//! A school: a catalogue and its shards, each with its keeper.

ghost use Rattle.std.specs.Prelude.{◌≡◌, length, option_copied};
ghost use Rattle.qz_grading.specs.Grading.{at_place};
ghost use Rattle.qz_keeper.specs.Lists.{EachMayStand};
ghost use Rattle.qz_terms.specs.Legal.{IsLegalCatalog};
ghost use Rattle.qz_terms.specs.Serial.{held_in};
ghost use Rattle.qz_school.specs.Answering.{IsServed, MayBeAsked};
ghost use Rattle.qz_school.specs.Solos.{IsSolo, faults_of, lists_in};
ghost use Rattle.qz_solo.specs.Standing.{AreLegal, StandAsSchool};

use qz_catalog::Catalog;
use qz_disks::Keeper;
use qz_shard::Shard;
use qz_terms::{Ask, Caller, Desk, Record, Reply};
use std::alloc::Global;
use std::marker::Model;

/// A school of 1 to 64 shards, asked by one alone. Each record of a shard agrees with the catalogue, also one that is in doubt, and a
/// user's shard is that with the user's number modulo the number of shards.
///
/// A list that a request reads is mended first: the record in doubt, if there is one, is taken where its keeper keeps it, and else
/// dropped. A request is refused with `KeepFault` only where the keeper of a list failed in that very request, and a record of that list is
/// in doubt since.
#[derive(Drop)]
pub struct Solo<K: Keeper> {
    pub(crate) catalog: Catalog<K>,
    pub(crate) shards: Vec<Shard<K>>,
}

impl<K: Keeper> Model for Solo<K> {
    ghost use Rattle.qz_school.specs.Solos.{IsSolo, School};

    ghost Value = { School K };

    ghost view = { λ s. record { catalog = s.catalog; parts = s.shards.items } };

    ghost invariant = { λ s. IsSolo s.catalog s.shards.items };
}

impl<K: Keeper> Solo<K> {
    /// The school of a catalogue and its shards: as many as it was founded with, in order, each of which agrees with it.
    pub fn of(catalog: Catalog<K>, shards: Vec<Shard<K>>) -> Solo<K>
        requires { IsSolo catalog shards.items }
        ensures { result ≡ record { catalog = catalog; parts = shards.items } }
    {
        Solo { catalog, shards }
    }

    /// The catalogue, and the shards in order.
    pub fn into_parts(self) -> (Catalog<K>, Vec<Shard<K>>)
        ensures catalog { result.0 ≡ self.catalog }
        ensures shards { result.1.items ≡ self.parts }
        ensures solo { IsSolo result.0 result.1.items }
    {
        (self.catalog, self.shards)
    }

    /// How many records the catalogue has, without one in doubt.
    pub fn len(&self) -> u64
        ensures count { result ≡ length self.now.catalog.held.list }
        ensures legal { EachMayStand IsLegalCatalog self.now.catalog.held }
        ensures solo { IsSolo self.now.catalog self.now.parts }
    {
        self.catalog.len()
    }

    /// Does nothing. What it says holds of every school: whichever of the lists that may stand do, they are a school's, of records that a
    /// file may keep.
    pub fn attest(&self)
        ensures { StandAsSchool (lists_in self.now) }
    {
        // Whatever a list holds is legal.
        let _length = self.catalog.len();
        attest_shards(&self.shards);
    }

    /// The record at a place, from 1 on, of the catalogue's list or of this shard's, and `None` where there is no such shard or place. One in
    /// doubt has none.
    pub fn record_at(&self, list: Option<u8>, place: u64) -> Option<&Record>
        ensures { option_copied result ≡ at_place (held_in (lists_in self.now) list).list place }
    {
        match list {
            None => self.catalog.record_at(place),
            Some(index) => self.shards.get(usize::from(index))?.record_at(place),
        }
    }
}

/// Whatever a shard holds is legal, and may be kept.
fn attest_shards<K: Keeper>(shards: &[Shard<K>])
    ensures { AreLegal shards.now }
{
    for shard in shards {
        let _length = shard.len();
    }
}

impl<K: Keeper> Desk for Solo<K> {
    ghost lists = { lists_in };

    ghost faults = { faults_of K.faults };

    ghost takes = { λ moment ask. MayBeAsked ask moment };

    ghost answers = { IsServed K.sound K.faults };

    fn ask(&mut self, alloc: Global, ask: &Ask, moment: u64) -> Reply {
        let told = match &ask.caller {
            Caller::Token(token) => self.answer_token(alloc, token, ask, moment),
            Caller::Worker => self.answer_worker(alloc, ask, moment),
        };
        match told {
            Ok(reply) => reply,
            Err(refusal) => Reply::Refused(refusal),
        }
    }
}
