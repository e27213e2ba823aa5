//! The grades of a quiz over all shards.

ghost use Rattle.std.specs.Prelude.{◌≡◌, ◌<◌, ◌++◌, None, IfErr, IfOk, OnOk};
ghost use Rattle.qz_decimal.specs.Numbers.{IsMaxSum, IsQuizGrade};
ghost use Rattle.qz_serial.specs.Paths.{IsKnown};
ghost use Rattle.qz_terms.specs.declared.request.Request.TheVariants as request;
ghost use Rattle.qz_terms.specs.Cause.{forbidden};
ghost use Rattle.qz_terms.specs.Legal.{IsLegal};
ghost use Rattle.qz_keeper.specs.Lists.{EachMayStand};
ghost use Rattle.qz_shard.specs.Keeping.{TellsRows};
ghost use Rattle.qz_school.specs.Answering.{MayBeAsked, PartLooks, Serves};
ghost use Rattle.qz_school.specs.Reports.{RowsAre, RowsStop};
ghost use Rattle.qz_school.specs.Solos.{lists_in};

use crate::Solo;
use qz_decimal::Grade;
use qz_disks::Keeper;
use qz_grading::{Refusal, Steps};
use qz_school::{in_order, named};
use qz_shard::Shard;
use qz_terms::{Ask, Done, Policy, Reply, User};
use qz_text::{Listed, NoMemory};
use std::alloc::Global;
use std::marker::Brand;
use std::sync::ledger::{Blank, Ledger};

/// The users of a shard with an attempt of a quiz, in order of number, and the grade of each. None of its gradings is counted.
fn rows<K: Keeper, L: Ledger>(
    blank: Blank,
    shard: &mut Shard<K>,
    alloc: Global,
    quiz: u32,
    policy: &Policy,
) -> Result<Listed<(u32, Option<Grade>)>, Refusal>
    requires name { blank.name ≡ L.name }
    requires parts { blank.parts ≡ L.parts }
    requires some_part { 0 < blank.parts }
    requires grade { IsQuizGrade policy.now.grade }
    requires sum { IsMaxSum policy.now.sum }
    ensures told { PartLooks K.sound K.faults (TellsRows quiz policy.now) shard.old shard.new result }
    ensures legal { EachMayStand (IsLegal shard.new.index shard.new.count) shard.new.held }
{
    let mut steps = Steps::<L>::open(blank);
    let told = shard.rows(alloc, quiz, policy, &mut steps);
    // Whatever a shard holds is legal.
    let _length = shard.len();
    told
}

/// Adds rows behind others.
fn added(
    all: &mut Listed<(u32, Option<Grade>)>,
    rows: &[(u32, Option<Grade>)],
) -> Result<(), NoMemory>
    ensures { OnOk result (all.new ≡ all.old ++ rows.now) }
{
    for row in rows {
        all.items.push(*row)?;
    }
    Ok(())
}

/// The rows of all shards, one shard after the other. The first that doesn't tell its rows ends it.
fn rows_of_all<K: Keeper>(
    shards: &mut Vec<Shard<K>>,
    alloc: Global,
    quiz: u32,
    policy: &Policy,
) -> Result<Listed<(u32, Option<Grade>)>, Refusal>
    requires grade { IsQuizGrade policy.now.grade }
    requires sum { IsMaxSum policy.now.sum }
    ensures rows { IfOk result
        (RowsAre K.sound K.faults quiz policy.now shards.old.items shards.new.items) }
    ensures stops { IfErr result
        (RowsStop K.sound K.faults quiz policy.now shards.old.items shards.new.items) }
{
    let mut all = Listed::empty(alloc);
    for index in 0..shards.len() {
        let rows = rows::<K, Brand>(Blank::new(1), &mut shards[index], alloc, quiz, policy)?;
        added(&mut all, rows.as_slice())?;
    }
    Ok(all)
}

impl<K: Keeper> Solo<K> {
    /// The reply to a request for the grades of a quiz. A quiz that isn't there is `Unknown`.
    pub(crate) fn report(
        &mut self,
        alloc: Global,
        _user: &User,
        quiz: u32,
        ask: &Ask,
        moment: u64,
    ) -> Result<Reply, Refusal>
        requires asked { MayBeAsked ask.now moment }
        requires known { IsKnown (lists_in self.old) self.old.catalog.held ask.now _user.now }
        requires may { forbidden _user.now ask.now.request ≡ None }
        requires report { ask.now.request ≡ request.Report quiz }
        ensures { Serves K.sound K.faults self.old self.new moment ask.now result }
    {
        let policy = self.catalog.core().policy(alloc, quiz)?;
        let names = self.catalog.core().names(alloc)?;
        let all = rows_of_all(&mut self.shards, alloc, quiz, &policy)?;
        let grades = in_order(alloc, all.as_slice())?;
        let rows = named(alloc, &grades, names.as_slice())?;
        Ok(Reply::Ok {
            place: self.catalog.len(),
            done: Done::Report { rows },
        })
    }
}
