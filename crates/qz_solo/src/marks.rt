//! The marks of an attempt in a school in memory.

ghost use Rattle.std.specs.Prelude.{◌≡◌, ◌<◌, ◌++◌, IfOk, OnOk, None, Some, true, false, [], ◌∷◌, is_some, option_map, filter_map, map, option_to_list};
ghost use Rattle.qz_grading.specs.declared.refusal.Refusal.TheVariants as refusal;
ghost use Rattle.qz_catalog.specs.Holdings.{lean};
ghost use Rattle.qz_grading.specs.Behaviours.{first_some};
ghost use Rattle.qz_shard.specs.Holdings.{Answers, IsAsked, is_look};
ghost use Rattle.qz_shard.specs.Keeping.{IsSamePart};
ghost use Rattle.qz_terms.specs.declared.reply.Part.{Part};
ghost use Rattle.qz_terms.specs.Catalog.{plan};
ghost use Rattle.qz_terms.specs.Cause.{missing_quiz, missing_user};
ghost use Rattle.qz_terms.specs.History.{quiz, slots, start};
ghost use Rattle.qz_terms.specs.Legal.{AllAgree, is_plan_for};
ghost use Rattle.qz_terms.specs.Kept.{IsKeptPlan};
ghost use Rattle.qz_terms.specs.Parts.{part};
ghost use Rattle.qz_solo.specs.Memory.{is_memory};
ghost use Rattle.qz_solo.specs.Marks.{marks_of, shown_by, shown_mark};

use crate::memory::is_memory;
use qz_catalog::CatalogCore;
use qz_decimal::Mark;
use qz_disks::Keeper;
use qz_grading::{AttemptId, Refusal, Steps};
use qz_shard::Shard;
use qz_terms::{Ask, Caller, Done, Part, Plan, Reply, Request, Role, Shown, User};
use qz_text::{Listed, NoMemory, Text};
use std::alloc::Global;
use std::marker::Brand;
use std::sync::ledger::{Blank, Ledger};

/// The manager, who is shown all marks.
fn manager(alloc: Global) -> Result<User, NoMemory>
    ensures { IfOk result (λ user. (user.number ≡ 1) × (user.role ≡ Role.Manager)) }
{
    Ok(User {
        number: 1,
        name: Text::of(alloc, "admin")?,
        role: Role::Manager,
        token: Text::of(alloc, "root")?,
    })
}

/// The reply to a request that only looks at a shard of which no record is in doubt. None of its gradings is counted.
fn looked<K: Keeper, L: Ledger>(
    blank: Blank,
    shard: &mut Shard<K>,
    alloc: Global,
    user: &User,
    plan: &Plan,
    ask: &Ask,
) -> Reply
    requires name { blank.name ≡ L.name }
    requires parts { blank.parts ≡ L.parts }
    requires some_part { 0 < blank.parts }
    requires clear { shard.old.held.doubt ≡ None }
    requires look { is_look ask.now.request ≡ true }
    requires asked { IsAsked shard.old.held.list plan.now ask.now 1000 }
    ensures told { Answers shard.old.held.list 1000 user.now plan.now ask.now result
        shard.old.held.list }
    ensures held { shard.new.held ≡ shard.old.held }
    ensures shard { IsSamePart shard.old shard.new }
{
    let mut steps = Steps::<L>::open(blank);
    shard.look(alloc, user, plan, ask, 1000, &mut steps)
}

/// What a manager is shown of the slots of an attempt.
fn parts<K: Keeper>(
    shard: &mut Shard<K>,
    alloc: Global,
    plan: &Plan,
    attempt: AttemptId,
) -> Result<Listed<Part>, NoMemory>
    requires clear { shard.old.held.doubt ≡ None }
    requires there { is_some (start shard.old.held.list attempt) ≡ true }
    requires of_quiz { quiz shard.old.held.list attempt ≡ Some plan.now.quiz }
    requires kept { IsKeptPlan plan.now }
    ensures parts { IfOk result
        (λ parts. parts ≡ map (part true) (slots shard.old.held.list attempt)) }
    ensures held { shard.new.held ≡ shard.old.held }
    ensures shard { IsSamePart shard.old shard.new }
{
    let user = manager(alloc)?;
    let ask = Ask {
        caller: Caller::Worker,
        key: None,
        request: Request::Page { attempt },
    };
    match looked::<K, Brand>(Blank::new(1), shard, alloc, &user, plan, &ask) {
        Reply::Ok {
            done: Done::Page { parts, .. },
            ..
        } => Ok(parts),
        Reply::Refused(Refusal::Memory) => Err(NoMemory),
        Reply::Refused(_) | Reply::Ok { .. } => unreachable!(),
    }
}

/// Adds a mark that is shown to others.
fn value_onto(marks: &mut Listed<Mark>, shown: Shown<Mark>) -> Result<(), NoMemory>
    ensures { OnOk result (marks.new ≡ marks.old ++ option_to_list (shown_by shown)) }
{
    match shown {
        Shown::Value(mark) => Ok(marks.items.push(mark)?),
        Shown::None | Shown::Hidden => Ok(()),
    }
}

/// Adds the marks that are shown of slots to others.
fn shown_onto(marks: &mut Listed<Mark>, parts: &[Part]) -> Result<(), NoMemory>
    ensures { OnOk result (marks.new ≡ marks.old ++ filter_map shown_mark parts.now) }
{
    for part in parts {
        value_onto(marks, part.mark)?;
    }
    Ok(())
}

/// The plan of a quiz that is there, for a user who is there, without its questions.
fn plan_of(catalog: &CatalogCore, alloc: Global, quiz: u32, user: u32) -> Result<Plan, NoMemory>
    requires { first_some (missing_quiz catalog.now quiz ∷ missing_user catalog.now user ∷ []) ≡ None }
    ensures plan { IfOk result (λ p. option_map (lean false) (plan catalog.now quiz user) ≡ Some p) }
    ensures kept { IfOk result IsKeptPlan }
{
    match catalog.plan(alloc, quiz, user, false) {
        Ok(plan) => Ok(plan),
        Err(Refusal::Memory) => Err(NoMemory),
        Err(_) => unreachable!(),
    }
}

/// Adds nothing, unless memory was wanting for an answer.
fn none_onto(reply: &Reply) -> Result<(), NoMemory>
    ensures { OnOk result (is_memory reply.now ≡ false) }
{
    if is_memory(reply) {
        return Err(NoMemory);
    }
    Ok(())
}

/// Adds the marks of an attempt's slots to others, in order. An attempt that isn't there has none.
pub(crate) fn marks_onto<K: Keeper>(
    catalog: &CatalogCore,
    shard: &mut Shard<K>,
    alloc: Global,
    attempt: AttemptId,
    marks: &mut Listed<Mark>,
) -> Result<(), NoMemory>
    requires clear { shard.old.held.doubt ≡ None }
    requires agree { AllAgree catalog.now shard.old.held.list }
    ensures marks { OnOk result
        (marks.new ≡ marks.old ++ marks_of shard.old.held.list attempt) }
    ensures held { shard.new.held ≡ shard.old.held }
    ensures shard { IsSamePart shard.old shard.new }
{
    let quiz = match shard.quiz_of(alloc, attempt) {
        Ok(quiz) => quiz,
        Err(why) => return none_onto(&Reply::Refused(why)),
    };
    let plan = plan_of(catalog, alloc, quiz, attempt.user)?;
    let parts = parts(shard, alloc, &plan, attempt)?;
    shown_onto(marks, parts.as_slice())?;
    Ok(())
}
