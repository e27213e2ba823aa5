//! Looks at a catalogue, each in a turn of its own.

ghost use Rattle.std.specs.Prelude.{◌≡◌, ◌≢◌, [], Err};
ghost use Rattle.qz_catalog.specs.Keeping.{IsJob, TellsJob, TellsPlan, TellsUser};
ghost use Rattle.qz_keeper.specs.Lists.{Looks};
ghost use Rattle.qz_terms.specs.Legal.{IsLegalCatalog};
ghost use Rattle.qz_catalog_turns.specs.Headings.{TellsHeading};
ghost use Rattle.qz_catalog_turns.specs.Turning.{TurnCalls};

use crate::questions::{Heading, JobOf, Mending, OfToken, PlanFor, Question, ReportOf};
use crate::records::Records;
use qz_disks::Keeper;
use qz_grading::Refusal;
use qz_terms::{Job, Plan, User};
use qz_text::Text;
use qz_turn::{Errand, Pass, Turns};
use std::alloc::Global;
use std::sync::Wait;

/// A look, and what it told.
#[derive(Drop)]
struct Look<'a, Q, T> {
    alloc: Global,
    question: &'a Q,
    told: Option<Result<T, Refusal>>,
}

impl<'a, K: Keeper, Q: Question<K>> Errand<Records<K>> for Look<'a, Q, Q::Found>
where
    Q::Found: Drop,
{
    ghost use Rattle.std.specs.Prelude.{Err};
    ghost use Rattle.qz_keeper.specs.Lists.{Looks};
    ghost use Rattle.qz_catalog_turns.specs.Turning.{Did};

    ghost can = { λ _ _ _. Unit {0} };

    ghost does = { λ look before after done. Did K.faults (λ r. Err r)
        (Looks (Q.says look.question.now)) before after done.told };

    fn go(&mut self, records: &mut Records<K>) {
        let _found = records.catalog.len();
        let told = self.question.look_up(self.alloc, &mut records.catalog);
        let _left = records.catalog.len();
        self.told = Some(told);
    }
}

// Looks something up in one turn.
fn look_up_in_turn<K: Keeper, Q: Question<K>, R: Wait>(
    turns: &Turns<Records<K>>,
    rt: &R,
    pass: &mut Pass<Records<K>>,
    alloc: Global,
    question: &Q,
) -> Result<Q::Found, Refusal>
where
    Q::Found: Drop,
    requires pass { pass.old.lock ≡ turns.now.lock }
    requires number { pass.old.numbers ≢ [] }
    ensures { TurnCalls IsLegalCatalog (λ r. Err r) (Looks (Q.says question.now))
        pass.old pass.new result }
{
    let mut errand = Look {
        alloc,
        question,
        told: None,
    };
    turns.turn(rt, pass, &mut errand);
    match errand.told {
        Some(told) => told,
        None => unreachable!(),
    }
}

/// A copy of the user who is known by a token. Where there is none it is `UnknownToken`.
pub fn user<K: Keeper, R: Wait>(
    turns: &Turns<Records<K>>,
    rt: &R,
    pass: &mut Pass<Records<K>>,
    alloc: Global,
    token: &Text,
) -> Result<User, Refusal>
    requires pass { pass.old.lock ≡ turns.now.lock }
    requires number { pass.old.numbers ≢ [] }
    ensures { TurnCalls IsLegalCatalog (λ r. Err r) (Looks (TellsUser token.now))
        pass.old pass.new result }
{
    look_up_in_turn(turns, rt, pass, alloc, &OfToken { token })
}

/// The plan of a quiz for a user, over all the records, with the questions of its slots where it is to be whole.
///
/// A quiz that isn't there is `Unknown`, and then a user who isn't there.
pub fn plan<K: Keeper, R: Wait>(
    turns: &Turns<Records<K>>,
    rt: &R,
    pass: &mut Pass<Records<K>>,
    alloc: Global,
    quiz: u32,
    user: u32,
    whole: bool,
) -> Result<Plan, Refusal>
    requires pass { pass.old.lock ≡ turns.now.lock }
    requires number { pass.old.numbers ≢ [] }
    ensures { TurnCalls IsLegalCatalog (λ r. Err r) (Looks (TellsPlan quiz user whole))
        pass.old pass.new result }
{
    look_up_in_turn(turns, rt, pass, alloc, &PlanFor { quiz, user, whole })
}

/// A job: its position, and the plan of its quiz over the records up to there.
///
/// A job that isn't there is `Unknown`.
pub fn job<K: Keeper, R: Wait>(
    turns: &Turns<Records<K>>,
    rt: &R,
    pass: &mut Pass<Records<K>>,
    alloc: Global,
    number: u32,
) -> Result<Job, Refusal>
    requires pass { pass.old.lock ≡ turns.now.lock }
    requires number { pass.old.numbers ≢ [] }
    ensures { TurnCalls IsLegalCatalog (λ r. Err r) (Looks (TellsJob number))
        pass.old pass.new result }
{
    look_up_in_turn(turns, rt, pass, alloc, &JobOf { number })
}

/// A job that the catalogue gave over what the pass has seen, given back without a copy: it is the same over all that is found now, since
/// a job stays as it was made.
///
/// Where the list can't be mended the job is dropped.
pub fn job_again<K: Keeper, R: Wait>(
    turns: &Turns<Records<K>>,
    rt: &R,
    pass: &mut Pass<Records<K>>,
    alloc: Global,
    job: Job,
) -> Result<Job, Refusal>
    requires pass { pass.old.lock ≡ turns.now.lock }
    requires number { pass.old.numbers ≢ [] }
    requires job { IsJob pass.old.seen.list job.number job }
    ensures { TurnCalls IsLegalCatalog (λ r. Err r) (Looks (TellsJob job.number))
        pass.old pass.new result }
{
    match look_up_in_turn(turns, rt, pass, alloc, &Mending) {
        Ok(()) => Ok(job),
        Err(why) => Err(why),
    }
}

/// What the report of a quiz says besides its rows: how many records there are, how the quiz is graded, and the users' names.
///
/// A quiz that isn't there is `Unknown`.
pub fn heading<K: Keeper, R: Wait>(
    turns: &Turns<Records<K>>,
    rt: &R,
    pass: &mut Pass<Records<K>>,
    alloc: Global,
    quiz: u32,
) -> Result<Heading, Refusal>
    requires pass { pass.old.lock ≡ turns.now.lock }
    requires number { pass.old.numbers ≢ [] }
    ensures { TurnCalls IsLegalCatalog (λ r. Err r) (Looks (TellsHeading quiz))
        pass.old pass.new result }
{
    look_up_in_turn(turns, rt, pass, alloc, &ReportOf { quiz })
}
