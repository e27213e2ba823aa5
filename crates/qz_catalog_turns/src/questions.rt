//! What is looked up in a catalogue.

ghost use Rattle.std.specs.Prelude.{◌≡◌, ℕ, List, Result, Err};
ghost use Rattle.qz_grading.specs.declared.refusal.Refusal.{Refusal};
ghost use Rattle.qz_keeper.specs.Lists.{Looks, OneCall};
ghost use Rattle.qz_keeper.specs.Recording.{GoesOn, HasFailed};
ghost use Rattle.qz_terms.specs.declared.record.Record.{Record};

use qz_catalog::Catalog;
use qz_disks::Keeper;
use qz_grading::Refusal;
use qz_terms::{Job, Plan, Policy, User};
use qz_text::{Listed, Text};
use std::alloc::Global;

/// What a catalogue gives for the report of a quiz.
#[derive(Drop)]
pub struct Heading {
    /// How many records there are.
    pub place: u64,
    /// How the quiz is graded.
    pub policy: Policy,
    /// The users' names, in order of number.
    pub names: Listed<Text>,
}

/// What is looked up in a catalogue.
pub(crate) trait Question<K: Keeper> {
    type Found;

    // What may be told of a list.
    ghost says: { Self → List Record → Result Self.Found Refusal → Type 0 };

    /// Looks it up. The list is mended first.
    fn look_up(&self, alloc: Global, catalog: &mut Catalog<K>) -> Result<Self::Found, Refusal>
        ensures told { OneCall (HasFailed (K.sound catalog.old.keeper)
            (K.faults catalog.old.keeper) (K.faults catalog.new.keeper)) (λ r. Err r)
            (Looks (says self.now)) catalog.old.held catalog.new.held result }
        ensures goes_on { GoesOn (K.sound catalog.old.keeper) (K.sound catalog.new.keeper)
            (K.faults catalog.old.keeper) (K.faults catalog.new.keeper) };
}

/// Whose a token is.
#[derive(Drop)]
pub(crate) struct OfToken<'a> {
    pub token: &'a Text,
}

impl<'a, K: Keeper> Question<K> for OfToken<'a> {
    ghost use Rattle.qz_catalog.specs.Keeping.{TellsUser};

    type Found = User;

    ghost says = { λ q. TellsUser q.token.now };

    fn look_up(&self, alloc: Global, catalog: &mut Catalog<K>) -> Result<User, Refusal> {
        catalog.user(alloc, self.token)
    }
}

/// The plan of a quiz for a user.
#[derive(Drop)]
pub(crate) struct PlanFor {
    pub quiz: u32,
    pub user: u32,
    pub whole: bool,
}

impl<K: Keeper> Question<K> for PlanFor {
    ghost use Rattle.qz_catalog.specs.Keeping.{TellsPlan};

    type Found = Plan;

    ghost says = { λ q. TellsPlan q.quiz q.user q.whole };

    fn look_up(&self, alloc: Global, catalog: &mut Catalog<K>) -> Result<Plan, Refusal> {
        catalog.plan(alloc, self.quiz, self.user, self.whole)
    }
}

/// A job.
#[derive(Drop)]
pub(crate) struct JobOf {
    pub number: u32,
}

impl<K: Keeper> Question<K> for JobOf {
    ghost use Rattle.qz_catalog.specs.Keeping.{TellsJob};

    type Found = Job;

    ghost says = { λ q. TellsJob q.number };

    fn look_up(&self, alloc: Global, catalog: &mut Catalog<K>) -> Result<Job, Refusal> {
        catalog.job(alloc, self.number)
    }
}

/// Nothing: the list is mended, and that is all.
#[derive(Drop)]
pub(crate) struct Mending;

impl<K: Keeper> Question<K> for Mending {
    ghost use Rattle.std.specs.Prelude.{Ok};

    type Found = ();

    ghost says = { λ _ _ told. told ≡ Ok tt };

    fn look_up(&self, alloc: Global, catalog: &mut Catalog<K>) -> Result<(), Refusal> {
        catalog.mend(alloc)
    }
}

/// What the catalogue gives for the report of a quiz.
#[derive(Drop)]
pub(crate) struct ReportOf {
    pub quiz: u32,
}

impl<K: Keeper> Question<K> for ReportOf {
    ghost use Rattle.qz_catalog_turns.specs.Headings.{TellsHeading};

    type Found = Heading;

    ghost says = { λ q. TellsHeading q.quiz };

    fn look_up(&self, alloc: Global, catalog: &mut Catalog<K>) -> Result<Heading, Refusal> {
        let policy = catalog.policy(alloc, self.quiz)?;
        let names = catalog.core().names(alloc)?;
        Ok(Heading {
            place: catalog.len(),
            policy,
            names,
        })
    }
}
