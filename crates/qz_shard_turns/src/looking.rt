//! Looks at a shard, each in a turn of its own.

ghost use Rattle.std.specs.Prelude.{◌≡◌, ◌≢◌, ◌<◌, ℕ, List, [], length, Result, Ok, Err};
ghost use Rattle.qz_decimal.specs.Numbers.{IsMaxSum, IsQuizGrade};
ghost use Rattle.qz_grading.specs.declared.refusal.Refusal.{Refusal};
ghost use Rattle.qz_keeper.specs.Lists.{Looks, OneCall};
ghost use Rattle.qz_keeper.specs.Recording.{GoesOn, HasFailed};
ghost use Rattle.qz_shard.specs.Keeping.{IsSamePart, TellsRows};
ghost use Rattle.qz_terms.specs.declared.record.Record.{Record};
ghost use Rattle.qz_terms.specs.History.{live_after};
ghost use Rattle.qz_terms.specs.Legal.{IsLegal};
ghost use Rattle.qz_turn.specs.Turns.{UnderKey};
ghost use Rattle.qz_catalog_turns.specs.Turning.{TurnCalls};

use crate::part::Part;
use qz_decimal::Grade;
use qz_disks::Keeper;
use qz_grading::{AttemptId, Refusal, Steps};
use qz_shard::Shard;
use qz_terms::Policy;
use qz_text::Listed;
use qz_turn::{Errand, Pass, Turns};
use std::alloc::Global;
use std::marker::Brand;
use std::sync::Wait;
use std::sync::ledger::{Blank, Ledger};

/// What is looked up in a shard.
trait Question<K: Keeper> {
    type Found;

    // What has to hold of it.
    ghost in_range: { Self → Type 0 };

    // What may be told of a list.
    ghost says: { Self → List Record → Result Self.Found Refusal → Type 0 };

    /// Looks it up. The list is mended first.
    fn look_up(&self, alloc: Global, shard: &mut Shard<K>) -> Result<Self::Found, Refusal>
        requires in_range { in_range self.now }
        ensures told { OneCall (HasFailed (K.sound shard.old.keeper)
            (K.faults shard.old.keeper) (K.faults shard.new.keeper)) (λ r. Err r)
            (Looks (says self.now)) shard.old.held shard.new.held result }
        ensures shard { IsSamePart shard.old shard.new }
        ensures goes_on { GoesOn (K.sound shard.old.keeper) (K.sound shard.new.keeper)
            (K.faults shard.old.keeper) (K.faults shard.new.keeper) };
}

/// The first attempt after this one that goes on.
#[derive(Drop)]
struct LiveAfter {
    attempt: AttemptId,
}

impl<K: Keeper> Question<K> for LiveAfter {
    ghost use Rattle.std.specs.Prelude.{◌≡◌, Ok, length};
    ghost use Rattle.qz_terms.specs.History.{live_after};

    type Found = (u64, Option<AttemptId>);

    ghost in_range = { λ _. Unit {0} };

    ghost says = { λ q h told. told ≡ Ok (length h, live_after h q.attempt) };

    fn look_up(
        &self,
        alloc: Global,
        shard: &mut Shard<K>,
    ) -> Result<(u64, Option<AttemptId>), Refusal> {
        match shard.live(alloc, self.attempt) {
            Ok(attempt) => Ok((shard.len(), attempt)),
            Err(refusal) => Err(refusal),
        }
    }
}

/// The grades at a quiz, by this policy, of all who have an attempt of it.
#[derive(Drop)]
struct RowsOf<'p> {
    quiz: u32,
    policy: &'p Policy,
}

// None of its gradings is counted.
fn rows_of<K: Keeper, L: Ledger>(
    blank: Blank,
    shard: &mut Shard<K>,
    alloc: Global,
    quiz: u32,
    policy: &Policy,
) -> Result<Listed<(u32, Option<Grade>)>, Refusal>
    requires name { blank.name ≡ L.name }
    requires parts { blank.parts ≡ L.parts }
    requires some_part { 0 < blank.parts }
    requires grade { IsQuizGrade policy.now.grade }
    requires sum { IsMaxSum policy.now.sum }
    ensures told { OneCall (HasFailed (K.sound shard.old.keeper)
        (K.faults shard.old.keeper) (K.faults shard.new.keeper)) (λ r. Err r)
        (Looks (TellsRows quiz policy.now)) shard.old.held shard.new.held result }
    ensures shard { IsSamePart shard.old shard.new }
    ensures goes_on { GoesOn (K.sound shard.old.keeper) (K.sound shard.new.keeper)
        (K.faults shard.old.keeper) (K.faults shard.new.keeper) }
{
    let mut steps = Steps::<L>::open(blank);
    shard.rows(alloc, quiz, policy, &mut steps)
}

impl<'p, K: Keeper> Question<K> for RowsOf<'p> {
    ghost use Rattle.qz_decimal.specs.Numbers.{IsMaxSum, IsQuizGrade};
    ghost use Rattle.qz_shard.specs.Keeping.{TellsRows};

    type Found = Listed<(u32, Option<Grade>)>;

    ghost in_range = { λ q. (IsQuizGrade q.policy.now.grade) × (IsMaxSum q.policy.now.sum) };

    ghost says = { λ q. TellsRows q.quiz q.policy.now };

    fn look_up(
        &self,
        alloc: Global,
        shard: &mut Shard<K>,
    ) -> Result<Listed<(u32, Option<Grade>)>, Refusal> {
        rows_of::<K, Brand>(Blank::new(1), shard, alloc, self.quiz, self.policy)
    }
}

/// A look, and what it told.
#[derive(Drop)]
struct Looking<'q, Q, T> {
    alloc: Global,
    question: &'q Q,
    told: Option<Result<T, Refusal>>,
}

impl<'q, K: Keeper, Q: Question<K>> Errand<Part<K>> for Looking<'q, Q, Q::Found>
where
    Q::Found: Drop,
{
    ghost use Rattle.qz_shard_turns.specs.Tying.{WasLooked};

    ghost can = { λ _ _ it. Q.in_range it.question.now };

    ghost does = { λ it before after done.
        WasLooked K.faults (Q.says it.question.now) before after done.told };

    fn go(&mut self, part: &mut Part<K>) {
        let _found = part.shard.len();
        let told = self.question.look_up(self.alloc, &mut part.shard);
        let _left = part.shard.len();
        self.told = Some(told);
    }
}

// Looks something up in one turn.
fn look_up_in_turn<K: Keeper, Q: Question<K>, R: Wait>(
    parts: &Turns<Part<K>>,
    rt: &R,
    pass: &mut Pass<Part<K>>,
    alloc: Global,
    question: &Q,
) -> Result<Q::Found, Refusal>
where
    Q::Found: Drop,
    requires pass { pass.old.lock ≡ parts.now.lock }
    requires number { pass.old.numbers ≢ [] }
    requires in_range { Q.in_range question.now }
    ensures { UnderKey parts.now.lock (λ place. TurnCalls (IsLegal place.index place.count)
        (λ r. Err r) (Looks (Q.says question.now)) pass.old pass.new result) }
{
    let mut errand = Looking {
        alloc,
        question,
        told: None,
    };
    parts.turn(rt, pass, &mut errand);
    match errand.told {
        Some(told) => told,
        None => unreachable!(),
    }
}

/// How many records the shard has, and the first attempt after this one that hasn't ended, in order of user and then of number, over all
/// quizzes; `None` where there is none.
pub fn live<K: Keeper, R: Wait>(
    parts: &Turns<Part<K>>,
    rt: &R,
    pass: &mut Pass<Part<K>>,
    alloc: Global,
    attempt: AttemptId,
) -> Result<(u64, Option<AttemptId>), Refusal>
    requires pass { pass.old.lock ≡ parts.now.lock }
    requires number { pass.old.numbers ≢ [] }
    ensures { UnderKey parts.now.lock (λ place. TurnCalls (IsLegal place.index place.count)
        (λ r. Err r) (Looks (λ h told. told ≡ Ok (length h, live_after h attempt)))
        pass.old pass.new result) }
{
    look_up_in_turn(parts, rt, pass, alloc, &LiveAfter { attempt })
}

/// The grade (in 10^-5) at a quiz of each user who has an attempt of it in the shard, in order of user, each once. A user of whom no total
/// is taken has none. The policy's grade is from 0 to 10,000, and its sum of max marks from 0 to 2,000,000.
pub fn rows<K: Keeper, R: Wait>(
    parts: &Turns<Part<K>>,
    rt: &R,
    pass: &mut Pass<Part<K>>,
    alloc: Global,
    quiz: u32,
    policy: &Policy,
) -> Result<Listed<(u32, Option<Grade>)>, Refusal>
    requires pass { pass.old.lock ≡ parts.now.lock }
    requires number { pass.old.numbers ≢ [] }
    requires grade { IsQuizGrade policy.now.grade }
    requires sum { IsMaxSum policy.now.sum }
    ensures { UnderKey parts.now.lock (λ place. TurnCalls (IsLegal place.index place.count)
        (λ r. Err r) (Looks (TellsRows quiz policy.now)) pass.old pass.new result) }
{
    look_up_in_turn(parts, rt, pass, alloc, &RowsOf { quiz, policy })
}
