//! The outcome of an adaptive slot, one step at a time.
//!
//! Moodle's manual page "Question behaviours" calls it "Adaptive mode": a student tries until the answer is right, each try
//! costs the penalty once more than the one before, and the best try counts.

ghost use Rattle.std.specs.Prelude.{◌≡◌, ◌+◌, ◌-◌, ◌^◌, ◌<◌, ◌≤◌, ◌++◌, ◌∷◌, [], List, true, false, pos, neg_ℤ, ◌-ℤ◌, ◌*ℤ◌, Some, IfSome, unwrap_or, if◌then◌else◌};
ghost use Rattle.std.specs.Option.{option_copied};
ghost use Rattle.std.specs.Int.{int_max};
ghost use Rattle.qz_decimal.specs.Numbers.{one, IsWithin, IsEarnedFraction};
ghost use Rattle.qz_decimal.specs.Reading.{IsWrittenFraction};
ghost use Rattle.qz_grading.specs.declared.response.Step.{Step};
ghost use Rattle.qz_grading.specs.declared.response.Step.TheVariants as step;
ghost use Rattle.qz_grading.specs.Grading.{fits};
ghost use Rattle.qz_grading.specs.Questions.{IsQuestion};
ghost use Rattle.qz_grading.specs.Steps.{has_finish, last_of};
ghost use Rattle.qz_grading.specs.Behaviours.{outcome, penalty_under};
ghost use Rattle.qz_grading.specs.Behaviours as behaviours;
ghost use Rattle.qz_tries.specs.Progress.{is_adaptive};
ghost use Rattle.qz_tries.specs.Parts.{is_new, gradable_last};

use crate::fractions::reduced;
use qz_decimal::Fraction;
use qz_grading::{Behaviour, Outcome, Question, Response, State, Steps, grade, same};
use std::sync::ledger::Ledger;

/// What a try costs more than the one before.
pub(crate) fn penalty_under(behaviour: Behaviour, question: &Question) -> Fraction
    ensures { result ≡ penalty_under behaviour question.now }
{
    match behaviour {
        Behaviour::AdaptiveNoPenalty => Fraction(0),
        _ => question.penalty,
    }
}

/// Whether a response differs from the one before, if any.
pub(crate) fn is_new(before: Option<&Response>, response: &Response) -> bool
    ensures { result ≡ is_new (option_copied before.entry) response.now }
{
    match before {
        Some(before) => !same(before, response),
        None => true,
    }
}

/// The best of the tries so far: the greatest of 0 and what each counted.
fn best(so_far: Outcome) -> Fraction
    ensures value { result ≡ unwrap_or so_far.fraction (pos 0) }
    ensures earned { IfSome so_far.fraction IsEarnedFraction → IsEarnedFraction result }
{
    so_far.fraction.unwrap_or(Fraction(0))
}

/// The best of the tries so far and one more with this grade.
fn best_with(so_far: Outcome, grade: Fraction, penalty: Fraction) -> Fraction
    requires grade { IsWithin (neg_ℤ (pos one)) (pos one) grade }
    requires penalty { IsWrittenFraction penalty }
    ensures value { result ≡ int_max (unwrap_or so_far.fraction (pos 0)) (grade -ℤ pos so_far.tries *ℤ penalty) }
    ensures earned { IfSome so_far.fraction IsEarnedFraction → IsEarnedFraction result }
{
    let counts = reduced(grade, so_far.tries, penalty);
    let best = best(so_far);
    Fraction(best.0.max(counts.0))
}

/// The outcome after one more try with this grade. `right` tells whether it or one before it was right.
pub(crate) fn after_try(so_far: Outcome, right: bool, grade: Fraction, penalty: Fraction) -> Outcome
    requires grade { IsWithin (neg_ℤ (pos one)) (pos one) grade }
    requires penalty { IsWrittenFraction penalty }
    requires room { so_far.tries < 2 ^ 32 - 1 }
    ensures value { result ≡ record { state = if right then State.Complete else State.Todo; fraction = Some (int_max (unwrap_or so_far.fraction (pos 0)) (grade -ℤ pos so_far.tries *ℤ penalty)); ended = false; needs_again = false; tries = so_far.tries + 1 } }
    ensures earned { IfSome so_far.fraction IsEarnedFraction → IfSome result.fraction IsEarnedFraction }
{
    let tries = so_far.tries + 1;
    Outcome {
        state: if right { State::Complete } else { State::Todo },
        fraction: Some(best_with(so_far, grade, penalty)),
        ended: false,
        needs_again: false,
        tries,
    }
}

/// The outcome of a slot that has ended, where the best try counts.
fn ended(state: State, best: Fraction, tries: u32) -> Outcome
    ensures { result ≡ record { state = state; fraction = Some best; ended = true; needs_again = false; tries = tries } }
{
    Outcome {
        state,
        fraction: Some(best),
        ended: true,
        needs_again: false,
        tries,
    }
}

/// The outcome after the Finish. `last` is the last response, if it can be graded; it is a further try where it differs from
/// the last complete Submit, `handed_in`.
pub(crate) fn after_finish<L: Ledger>(
    so_far: Outcome,
    behaviour: Behaviour,
    question: &Question,
    last: Option<&Response>,
    handed_in: Option<&Response>,
    steps: &mut Steps<L>,
) -> Outcome
    requires adaptive { is_adaptive behaviour ≡ true }
    requires question { IsQuestion question.now }
    requires fits { IfSome (option_copied last) (λ r. fits question.now r behaviour ≡ true) }
    requires room { so_far.tries < 2 ^ 32 - 1 }
    ensures outcome { (s : List Step) → has_finish s ≡ false → so_far ≡ outcome behaviour question.now s
        → option_copied last.entry ≡ gradable_last question.now s → option_copied handed_in.entry ≡ last_of (behaviours.handed_in behaviour question.now s)
        → result ≡ outcome behaviour question.now (s ++ step.Finish ∷ []) }
    ensures earned { IfSome so_far.fraction IsEarnedFraction → IfSome result.fraction IsEarnedFraction }
    ensures tries { result.tries ≤ so_far.tries + 1 }
    ensures count { steps.new ≤ steps.old + 1 }
{
    let tries = so_far.tries;
    let Some(last) = last else {
        return ended(State::GaveUp, best(so_far), tries);
    };
    let grade = grade(question, last, steps);
    if !is_new(handed_in, last) {
        return ended(State::graded(grade), best(so_far), tries);
    }
    let penalty = penalty_under(behaviour, question);
    ended(
        State::graded(grade),
        best_with(so_far, grade, penalty),
        tries + 1,
    )
}
