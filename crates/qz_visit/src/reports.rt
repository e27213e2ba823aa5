//! The grades of a quiz over all shards.

ghost use Rattle.std.specs.Prelude.{◌≡◌, None, IfOk, MatchResult, map};
ghost use Rattle.qz_decimal.specs.Numbers.{IsMaxSum, IsQuizGrade};
ghost use Rattle.qz_school.specs.Answering.{MayBeAsked};
ghost use Rattle.qz_school.specs.Reports.{named_row, rows_in_order};
ghost use Rattle.qz_terms.specs.declared.request.Request.TheVariants as request;
ghost use Rattle.qz_terms.specs.Cause.{forbidden};
ghost use Rattle.qz_visit.specs.Reports.{AreAt, RowsAre, RowsStop};
ghost use Rattle.qz_visit.specs.Tokens.{IsKnownTo};
ghost use Rattle.qz_visit.specs.Visits.{AreOf, Visits};

use crate::last::Said;
use crate::passes::Seats;
use crate::school::School;
use qz_catalog_turns::heading;
use qz_decimal::Grade;
use qz_disks::Keeper;
use qz_grading::Refusal;
use qz_school::{in_order, named};
use qz_shard_turns::{Part, rows};
use qz_terms::{Ask, Done, Policy, Reply, Row, User};
use qz_text::{Listed, NoMemory, Text};
use qz_turn::{Pass, Turns};
use std::alloc::Global;
use std::sync::Wait;

/// The rows of each shard, one shard after the other, in a turn each.
fn rows_of_all<K: Keeper, R: Wait>(
    parts: &Vec<Turns<Part<K>>>,
    rt: &R,
    passes: &mut Vec<Pass<Part<K>>>,
    alloc: Global,
    quiz: u32,
    policy: &Policy,
) -> Result<Listed<(u32, Option<Grade>)>, Refusal>
    requires own { AreAt parts.now.items passes.old.items }
    requires grade { IsQuizGrade policy.now.grade }
    requires sum { IsMaxSum policy.now.sum }
    ensures { MatchResult result (RowsAre quiz policy.now passes.old.items passes.new.items)
        (RowsStop quiz policy.now passes.old.items passes.new.items) }
{
    let mut all = Listed::empty(alloc);
    for index in 0..parts.len() {
        let rows = rows(&parts[index], rt, &mut passes[index], alloc, quiz, policy)?;
        all.items.extend_from_slice(rows.as_slice())?;
    }
    Ok(all)
}

/// The rows of a report, in order of user and with their names.
fn report_rows(
    alloc: Global,
    rows: &[(u32, Option<Grade>)],
    names: &[Text],
) -> Result<Listed<Row>, NoMemory>
    ensures { IfOk result (λ told. told ≡ map (named_row names.now) (rows_in_order rows.now)) }
{
    let grades = in_order(alloc, rows)?;
    named(alloc, &grades, names)
}

impl<K: Keeper> School<K> {
    /// The reply to a request for the grades of a quiz. A quiz that isn't there is `Unknown`.
    pub(crate) fn report<R: Wait>(
        &self,
        rt: &R,
        passes: &mut Seats<K>,
        alloc: Global,
        _user: &User,
        quiz: u32,
        ask: &Ask,
        moment: u64,
    ) -> Result<Said, Refusal>
        requires own { AreOf self.now passes.old }
        requires asked { MayBeAsked ask.now moment }
        requires known { IsKnownTo passes.old.records ask.now _user.now }
        requires may { forbidden _user.now ask.now.request ≡ None }
        requires report { ask.now.request ≡ request.Report quiz }
        ensures { Visits passes.old passes.new moment ask.now result }
    {
        let heading = heading(&self.records, rt, &mut passes.records, alloc, quiz)?;
        let policy = &heading.policy;
        let all = rows_of_all(&self.parts, rt, &mut passes.parts, alloc, quiz, policy)?;
        let rows = report_rows(alloc, all.as_slice(), heading.names.as_slice())?;
        let reply = Reply::Ok {
            place: heading.place,
            done: Done::Report { rows },
        };
        Ok(Said::without(reply, None))
    }
}
