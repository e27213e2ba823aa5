//! A school behind locks.

ghost use Rattle.qz_school.specs.Answering.{MayBeAsked};
ghost use Rattle.qz_visit.specs.Visits.{AreOf, Asked, AsksInTurn, Visited};

use crate::last::Said;
use crate::passes::{Passes, Seats};
use qz_catalog_turns::Records;
use qz_disks::Keeper;
use qz_shard::Shard;
use qz_shard_turns::Part;
use qz_terms::{Ask, Caller, Reply};
use qz_turn::Turns;
use std::alloc::Global;
use std::marker::Model;
use std::sync::Wait;

/// A school of 1 to 64 shards that many ask at once. The catalogue and each shard stand behind a lock of their own, so that requests to
/// different shards don't wait for each other.
#[derive(Drop)]
pub struct School<K: Keeper> {
    pub(crate) records: Turns<Records<K>>,
    pub(crate) parts: Vec<Turns<Part<K>>>,
    /// Where the shards stand once the school is closed.
    pub(crate) room: Vec<Shard<K>>,
}

impl<K: Keeper> Model for School<K> {
    ghost use Rattle.std.specs.Prelude.{◌≡◌, ◌≤◌, [], vec_len, vec_capacity};
    ghost use Rattle.qz_visit.specs.Visits.{IsSchool, Locks};

    ghost Value = { Locks };

    ghost view = { λ s. record { records = s.records; parts = s.parts.items } };

    ghost invariant = { λ s. (IsSchool s.records s.parts.items) × (s.room.items ≡ [])
        × (vec_len s.parts ≤ vec_capacity s.room) };
}

impl<K: Keeper> School<K> {
    /// What is said to a request, which shard said it, and what became of the request's own record.
    fn say<R: Wait>(
        &self,
        rt: &R,
        seats: &mut Seats<K>,
        alloc: Global,
        ask: &Ask,
        moment: u64,
    ) -> Said
        requires own { AreOf self.now seats.old }
        requires asked { MayBeAsked ask.now moment }
        ensures visited { Visited seats.old seats.new moment ask.now result }
        ensures in_turn { AsksInTurn seats.old.records seats.new.records ask.now }
    {
        let told = match &ask.caller {
            Caller::Token(token) => self.answer_token(rt, seats, alloc, token, ask, moment),
            Caller::Worker => self.answer_worker(rt, seats, alloc, ask, moment),
        };
        match told {
            Ok(said) => said,
            Err(refusal) => Said::without(Reply::Refused(refusal), None),
        }
    }

    /// The reply to a request, at this moment by the clock, in seconds since 1970. It waits for its turns.
    ///
    /// The reply is the answer over the lists that its passes see then, without the record that the request put. A list that the request
    /// reads is mended first. Of all turns that the request takes at a list only the last puts a record. What is asked by a token takes a turn
    /// at the catalogue, and what a shard accepts it accepts in a turn of this call. `KeepFault` comes only where the keeper of a list failed in
    /// a turn of this very request, and a record of that list is in doubt since. `Passes::last` tells how long those lists are, which shard
    /// the request went to, and what became of that record.
    pub fn ask<R: Wait>(
        &self,
        rt: &R,
        passes: &mut Passes<K>,
        alloc: Global,
        ask: &Ask,
        moment: u64,
    ) -> Reply
        requires own { AreOf self.now passes.old.seats }
        requires asked { MayBeAsked ask.now moment }
        ensures { Asked passes.old.seats passes.new.seats passes.new.last moment ask.now result }
    {
        let said = self.say(rt, &mut passes.seats, alloc, ask, moment);
        let Said { reply, list, own } = said;
        passes.keep(list, own);
        reply
    }
}
