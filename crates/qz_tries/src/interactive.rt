//! The outcome of an interactive slot, one step at a time.
//!
//! Moodle's manual page "Question behaviours" calls it "Interactive with multiple tries": after a try that isn't right a hint
//! is shown, and each further try costs the penalty once more. There is one try more than there are hints.

ghost use Rattle.std.specs.Prelude.{◌≡◌, ◌+◌, ◌-◌, ◌^◌, ◌<◌, ◌≤◌, ◌++◌, ◌∷◌, [], ◌==◌, ◌||◌, List, true, false, pos, neg_ℤ, ◌-ℤ◌, ◌*ℤ◌, Some, IfSome};
ghost use Rattle.std.specs.Option.{option_copied};
ghost use Rattle.std.specs.Int.{int_max};
ghost use Rattle.qz_decimal.specs.Numbers.{one, IsWithin, IsEarnedFraction};
ghost use Rattle.qz_grading.specs.declared.outcome.Behaviour.TheVariants as behaviour;
ghost use Rattle.qz_grading.specs.declared.response.Step.{Step};
ghost use Rattle.qz_grading.specs.declared.response.Step.TheVariants as step;
ghost use Rattle.qz_grading.specs.Grading.{complete, fits};
ghost use Rattle.qz_grading.specs.Questions.{IsQuestion};
ghost use Rattle.qz_grading.specs.Steps.{has_finish};
ghost use Rattle.qz_grading.specs.Behaviours.{outcome, is_right, graded, tries_allowed};
ghost use Rattle.qz_tries.specs.Parts.{gradable_last};

use crate::fractions::{is_right, reduced};
use qz_decimal::Fraction;
use qz_grading::{Outcome, Question, Response, State, Steps, grade};
use std::sync::ledger::Ledger;

/// Whether a try with this grade ends the slot: it is right, or by its number, from 1, the last that the question allows.
fn ends_slot(question: &Question, number: u32, grade: Fraction) -> bool
    requires { IsQuestion question.now }
    ensures { result ≡ (is_right grade || (number == tries_allowed question.now)) }
{
    is_right(grade) || number as usize == question.hints.as_slice().len() + 1
}

/// The outcome of a slot that ends with this grade after so many penalties.
fn ends_with(question: &Question, grade: Fraction, penalties: u32, tries: u32) -> Outcome
    requires question { IsQuestion question.now }
    requires grade { IsWithin (neg_ℤ (pos one)) (pos one) grade }
    ensures value { result ≡ record { state = graded grade; fraction = Some (int_max (pos 0) (grade -ℤ pos penalties *ℤ question.now.penalty)); ended = true; needs_again = false; tries = tries } }
    ensures earned { IfSome result.fraction IsEarnedFraction }
{
    let left = reduced(grade, penalties, question.penalty);
    Outcome {
        state: State::graded(grade),
        fraction: Some(Fraction(left.0.max(0))),
        ended: true,
        needs_again: false,
        tries,
    }
}

/// The outcome after one more complete Submit. It ends the slot where it is right or the last try allowed, and each try before
/// it cost one penalty.
pub(crate) fn after_try<L: Ledger>(
    so_far: Outcome,
    question: &Question,
    response: &Response,
    steps: &mut Steps<L>,
) -> Outcome
    requires question { IsQuestion question.now }
    requires fits { fits question.now response.now behaviour.Interactive ≡ true }
    requires complete { complete question.now response.now ≡ true }
    requires room { so_far.tries < 2 ^ 32 - 1 }
    ensures outcome { (s : List Step) → has_finish s ≡ false → so_far ≡ outcome behaviour.Interactive question.now s
        → result ≡ outcome behaviour.Interactive question.now (s ++ step.Submit response.now ∷ []) }
    ensures earned { IfSome so_far.fraction IsEarnedFraction → IfSome result.fraction IsEarnedFraction }
    ensures tries { result.tries ≡ so_far.tries + 1 }
    ensures count { steps.new ≤ steps.old + 1 }
{
    let tries = so_far.tries + 1;
    if so_far.ended {
        return Outcome { tries, ..so_far };
    }
    let grade = grade(question, response, steps);
    if ends_slot(question, tries, grade) {
        return ends_with(question, grade, so_far.tries, tries);
    }
    Outcome {
        state: State::Todo,
        fraction: None,
        ended: false,
        needs_again: true,
        tries,
    }
}

/// The outcome after the Finish, where this is the last response if it can be graded.
pub(crate) fn after_finish<L: Ledger>(
    so_far: Outcome,
    question: &Question,
    last: Option<&Response>,
    steps: &mut Steps<L>,
) -> Outcome
    requires question { IsQuestion question.now }
    requires fits { IfSome (option_copied last) (λ r. fits question.now r behaviour.Interactive ≡ true) }
    ensures outcome { (s : List Step) → has_finish s ≡ false → so_far ≡ outcome behaviour.Interactive question.now s
        → option_copied last.entry ≡ gradable_last question.now s
        → result ≡ outcome behaviour.Interactive question.now (s ++ step.Finish ∷ []) }
    ensures earned { IfSome so_far.fraction IsEarnedFraction → IfSome result.fraction IsEarnedFraction }
    ensures tries { result.tries ≡ so_far.tries }
    ensures count { steps.new ≤ steps.old + 1 }
{
    if so_far.ended {
        return so_far;
    }
    let Some(last) = last else {
        return Outcome {
            state: State::GaveUp,
            fraction: None,
            ended: true,
            needs_again: false,
            tries: so_far.tries,
        };
    };
    let grade = grade(question, last, steps);
    ends_with(question, grade, so_far.tries, so_far.tries)
}
