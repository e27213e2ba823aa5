//! What is refused for reasons of time.

ghost use Rattle.std.specs.Prelude.{◌≡◌, true, None, Some, OnOk, IfErr};
ghost use Rattle.qz_terms.specs.Access.{start_cause, answer_cause, finish_cause, closed_at};
ghost use Rattle.qz_terms.specs.Kept.{is_moment};

use crate::ends::{due, expired};
use qz_grading::{AttemptId, Refusal};
use qz_terms::Settings;

/// Whether an attempt may start at this moment, with the number of attempts made so far and the first of them that goes on.
///
/// The first cause of these that holds is told: the quiz isn't ready or hasn't opened (`NotOpen`), it has closed (`Late`), all
/// attempts that are allowed are made (`NoAttemptsLeft`), or one goes on (`Unfinished`).
pub fn may_start(
    settings: &Settings,
    ready: bool,
    moment: u64,
    made: u64,
    unfinished: Option<AttemptId>,
) -> Result<(), Refusal>
    ensures free { OnOk result (start_cause settings.now ready moment made unfinished ≡ None) }
    ensures refused { IfErr result (λ r. start_cause settings.now ready moment made unfinished ≡ Some r) }
{
    let opens = settings.opens;
    let due = settings.closes;
    let allowed = settings.allowed;
    if !ready {
        return Err(Refusal::NotOpen { opens: 0 });
    }
    if moment < opens {
        return Err(Refusal::NotOpen { opens });
    }
    if due != 0 && due < moment {
        return Err(Refusal::Late { due });
    }
    if allowed != 0 && u64::from(allowed) <= made {
        return Err(Refusal::NoAttemptsLeft { allowed });
    }
    match unfinished {
        Some(attempt) => Err(Refusal::Unfinished { attempt }),
        None => Ok(()),
    }
}

/// Refuses what comes after the end of an attempt, which has this place.
fn while_open(ended: Option<u64>) -> Result<(), Refusal>
    ensures free { OnOk result (closed_at ended ≡ None) }
    ensures refused { IfErr result (λ r. closed_at ended ≡ Some r) }
{
    match ended {
        Some(place) => Err(Refusal::Closed { place }),
        None => Ok(()),
    }
}

/// Whether an answer may be given at this moment, in an attempt that started at that one and ended at this place, if it did.
///
/// The first cause of these that holds is told: the attempt was due before (`Late`), also where it may still be finished, or it
/// has ended (`Closed`).
pub fn may_answer(
    settings: &Settings,
    start: u64,
    moment: u64,
    ended: Option<u64>,
) -> Result<(), Refusal>
    requires { is_moment start ≡ true }
    ensures free { OnOk result (answer_cause settings.now start moment ended ≡ None) }
    ensures refused { IfErr result (λ r. answer_cause settings.now start moment ended ≡ Some r) }
{
    match due(settings, start) {
        Some(due) if due < moment => Err(Refusal::Late { due }),
        Some(_) | None => while_open(ended),
    }
}

/// Whether an attempt that started at this moment may be finished at that one, if it hasn't ended at this place.
///
/// The first cause of these that holds is told: the attempt is expired (`Late`, with the moment at which it was due), or it has
/// ended (`Closed`).
pub fn may_finish(
    settings: &Settings,
    start: u64,
    moment: u64,
    ended: Option<u64>,
) -> Result<(), Refusal>
    requires { is_moment start ≡ true }
    ensures free { OnOk result (finish_cause settings.now start moment ended ≡ None) }
    ensures refused { IfErr result (λ r. finish_cause settings.now start moment ended ≡ Some r) }
{
    match due(settings, start) {
        Some(due) if expired(settings, start, moment) => Err(Refusal::Late { due }),
        Some(_) | None => while_open(ended),
    }
}
