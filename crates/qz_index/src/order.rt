//! The attempts of one quiz, in order.

ghost use Rattle.std.specs.BTreeMap.{IsOrdered, get};
ghost use Rattle.std.specs.Prelude.{◌≡◌, ◌||◌, Bool, false, IsSome, OnOk, filter};
ghost use Rattle.qz_grading.specs.declared.refusal.AttemptId.{AttemptId};
ghost use Rattle.qz_terms.specs.History.{attempt_before, same_attempt};
ghost use Rattle.qz_terms.specs.Lists.{first_of};
ghost use Rattle.qz_index.specs.Orders.{all_ordered, is_ordered, key_of};
ghost use Rattle.qz_room.specs.Pairs.{pair_cmp};

use qz_grading::AttemptId;
use qz_room::{fill, make};
use qz_text::NoMemory;
use std::alloc::Global;
use std::collections::BTreeMap;
use std::ops::Bound as End;

/// Whether an attempt is one of the quiz, in order of user and number. One that is made for a start to come isn't.
#[derive(Drop)]
pub(crate) struct Order {
    pub(crate) attempts: BTreeMap<(u32, u32), bool>,
}

fn key_of(attempt: AttemptId) -> (u32, u32)
    ensures { result ≡ key_of attempt }
{
    (attempt.user, attempt.nth)
}

impl Order {
    pub(crate) fn new(alloc: Global) -> Order
        ensures { (a : AttemptId) → is_ordered result a ≡ false }
    {
        Order {
            attempts: BTreeMap::new(alloc),
        }
    }

    /// The first attempt after this one.
    pub(crate) fn after(&self, after: AttemptId) -> Option<AttemptId>
        ensures found { result ≡ first_of (filter (attempt_before after) (all_ordered self.now)) }
        ensures ordered { IsOrdered pair_cmp self.now.attempts }
    {
        let after = key_of(after);
        for (key, is_there) in self.attempts.range((End::Excluded(after), End::Unbounded)) {
            if *is_there {
                return Some(AttemptId {
                    user: key.0,
                    nth: key.1,
                });
            }
        }
        None
    }

    pub(crate) fn grow(&mut self, attempt: AttemptId) -> Result<(), NoMemory>
        ensures room { OnOk result (IsSome (get pair_cmp self.new.attempts (key_of attempt))) }
        ensures same { (a : AttemptId) → is_ordered self.new a ≡ is_ordered self.old a }
    {
        make(&mut self.attempts, key_of(attempt), false)
    }

    /// Puts an attempt at its place. It takes no memory.
    pub(crate) fn put(&mut self, attempt: AttemptId)
        requires { IsSome (get pair_cmp self.old.attempts (key_of attempt)) }
        ensures { (a : AttemptId) → is_ordered self.new a ≡ (is_ordered self.old a || same_attempt a attempt) }
    {
        fill(&mut self.attempts, key_of(attempt), true);
    }
}
