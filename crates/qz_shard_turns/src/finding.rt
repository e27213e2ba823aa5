//! The quiz of an attempt, found in a turn of its shard.

ghost use Rattle.std.specs.Prelude.{◌≡◌, ◌≢◌, [], Err, IfErr, IfOk};
ghost use Rattle.qz_keeper.specs.Lists.{Looks};
ghost use Rattle.qz_shard.specs.Keeping.{TellsQuiz};
ghost use Rattle.qz_terms.specs.Legal.{AllAgree, IsLegal};
ghost use Rattle.qz_turn.specs.Turns.{UnderKey};
ghost use Rattle.qz_catalog_turns.specs.Turning.{TurnCalls};
ghost use Rattle.qz_shard_turns.specs.Tying.{HasLooked, IsTiedTo};

use crate::part::Part;
use qz_catalog_turns::Records;
use qz_disks::Keeper;
use qz_grading::{AttemptId, Refusal};
use qz_turn::{Errand, Pass, Turns};
use std::alloc::Global;
use std::sync::Wait;

/// A look for the quiz of an attempt, what it told, and a note of what the shard's note has seen.
#[derive(Drop)]
struct Finding<'r, K: Keeper> {
    alloc: Global,
    records: &'r Turns<Records<K>>,
    attempt: AttemptId,
    told: Option<Result<u32, Refusal>>,
    note: Option<Pass<Records<K>>>,
}

impl<'r, K: Keeper> Errand<Part<K>> for Finding<'r, K> {
    ghost use Rattle.std.specs.Prelude.{◌≡◌};
    ghost use Rattle.qz_shard.specs.Keeping.{TellsQuiz};
    ghost use Rattle.qz_shard_turns.specs.Tying.{WasFound};

    ghost can = { λ place _ it. place.note.lock ≡ it.records.now.lock };

    ghost does = { λ it before after done.
        WasFound K.faults (TellsQuiz it.attempt) before after done.told done.note };

    fn go(&mut self, part: &mut Part<K>) {
        let _found = part.shard.len();
        let told = part.shard.quiz_of(self.alloc, self.attempt);
        let _left = part.shard.len();
        self.told = Some(told);
        self.note = Some(self.records.note(&mut part.note));
    }
}

/// The quiz of an attempt. Where there is no such attempt it is `Unknown`.
///
/// Where it is told, the pass of the catalogue, which takes no turn, has then seen a list with which the shard's records agree, so that the quiz is in it. Else
/// that pass stays as it is.
pub fn quiz_of<K: Keeper, R: Wait>(
    records: &Turns<Records<K>>,
    parts: &Turns<Part<K>>,
    rt: &R,
    seen: &mut Pass<Records<K>>,
    pass: &mut Pass<Part<K>>,
    alloc: Global,
    attempt: AttemptId,
) -> Result<u32, Refusal>
    requires seen { seen.old.lock ≡ records.now.lock }
    requires pass { pass.old.lock ≡ parts.now.lock }
    requires number { pass.old.numbers ≢ [] }
    requires tie { IsTiedTo parts.now.lock records.now.lock }
    ensures turn { UnderKey parts.now.lock (λ place. TurnCalls (IsLegal place.index place.count)
        (λ r. Err r) (Looks (TellsQuiz attempt)) pass.old pass.new result) }
    ensures seen { HasLooked seen.old seen.new }
    ensures agree { IfOk result (λ _. AllAgree seen.new.seen.list pass.new.seen.list) }
    ensures unseen { IfErr result (λ _. seen.new ≡ seen.old) }
{
    let mut errand = Finding {
        alloc,
        records,
        attempt,
        told: None,
        note: None,
    };
    parts.turn(rt, pass, &mut errand);
    let Finding { told, note, .. } = errand;
    let (Some(told), Some(note)) = (told, note) else {
        unreachable!()
    };
    let quiz = told?;
    records.join(seen, note);
    Ok(quiz)
}
