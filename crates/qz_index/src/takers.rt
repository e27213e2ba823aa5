//! The attempts of one quiz, by user.

ghost use Rattle.std.specs.BTreeMap.{IsOrdered, get};
ghost use Rattle.std.specs.Ordering.{nat_cmp};
ghost use Rattle.std.specs.Prelude.{◌≡◌, ◌++◌, ◌∷◌, ℕ, [], IfOk, IsSome, OnOk, if◌then◌else◌, ◌==◌};
ghost use Rattle.qz_index.specs.Attempts.{HasPlace, taken, takers_in};

use qz_grading::AttemptId;
use qz_room::make;
use qz_text::NoMemory;
use std::alloc::Global;
use std::collections::BTreeMap;

/// The attempts of a quiz by each user, in order of number. A user who has none may have an empty list.
#[derive(Drop)]
pub(crate) struct Takers {
    pub(crate) attempts: BTreeMap<u32, Vec<AttemptId>>,
}

impl Takers {
    pub(crate) fn new(alloc: Global) -> Takers
        ensures { (u : ℕ) → taken result u ≡ [] }
    {
        Takers {
            attempts: BTreeMap::new(alloc),
        }
    }

    pub(crate) fn attempts(&self, user: u32) -> &[AttemptId]
        ensures { result.now ≡ taken self.now user }
    {
        match self.attempts.get(&user) {
            Some(attempts) => attempts.as_slice(),
            None => &[],
        }
    }

    /// The users with an attempt, in order of number.
    pub(crate) fn users(&self, alloc: Global) -> Result<Vec<u32>, NoMemory>
        ensures found { IfOk result (λ found. found.items ≡ takers_in self.now) }
        ensures ordered { IsOrdered nat_cmp self.now.attempts }
    {
        let mut found = Vec::new(alloc);
        for (user, attempts) in self.attempts.iter() {
            if !attempts.is_empty() {
                found.push(*user)?;
            }
        }
        Ok(found)
    }

    pub(crate) fn grow(&mut self, alloc: Global, user: u32) -> Result<(), NoMemory>
        ensures room { OnOk result (HasPlace self.new user) }
        ensures same { (u : ℕ) → taken self.new u ≡ taken self.old u }
    {
        make(&mut self.attempts, user, Vec::new(alloc))?;
        self.reserve(user)
    }

    /// Makes room for one more attempt of a user who has a list.
    fn reserve(&mut self, user: u32) -> Result<(), NoMemory>
        requires { IsSome (get nat_cmp self.old.attempts user) }
        ensures room { OnOk result (HasPlace self.new user) }
        ensures same { (u : ℕ) → taken self.new u ≡ taken self.old u }
    {
        match self.attempts.get_mut(&user) {
            Some(attempts) => Ok(attempts.reserve(1)?),
            None => unreachable!(),
        }
    }

    /// Puts an attempt behind its user's. It takes no memory.
    pub(crate) fn put(&mut self, attempt: AttemptId)
        requires { HasPlace self.old attempt.user }
        ensures { (u : ℕ) → taken self.new u ≡ taken self.old u ++ (if attempt.user == u then attempt ∷ [] else []) }
    {
        match self.attempts.get_mut(&attempt.user) {
            Some(attempts) => attempts.push(attempt).unwrap(),
            None => unreachable!(),
        }
    }
}
