//! Whether a response is complete, and what it earns.

ghost use Rattle.std.specs.Prelude.{◌≡◌, ◌+◌, ◌≤◌, true, pos, neg_ℤ, ◌*ℤ◌, IfSome};
ghost use Rattle.qz_decimal.specs.Numbers.{one, IsWithin, IsEarnedFraction};
ghost use Rattle.qz_grading.specs.Grading.{fits};
ghost use Rattle.qz_grading.specs.Questions.{IsQuestion};
ghost use Rattle.qz_grading.specs.Behaviours.{complete_under, lost, times, by_certainty, by_grade};
ghost use Rattle.qz_behave.specs.Following.{going_on, ended_with};

use qz_decimal::{Fraction, Tone, tone_of};
use qz_grading::{Behaviour, Outcome, Question, Response, State, Steps, complete, grade};
use std::sync::ledger::Ledger;

/// Whether a response is complete. Where certainty is asked for, it has to be given too.
pub(crate) fn is_complete(behaviour: Behaviour, question: &Question, response: &Response) -> bool
    ensures { result ≡ complete_under behaviour question.now response.now }
{
    complete(question, response) && (!behaviour.asks_certainty() || response.certainty > 0)
}

/// What a wrong response earns: nothing at certainty 1, -2 at 2, and -6 at 3.
fn lost(certainty: u8) -> Fraction
    ensures { result ≡ lost certainty }
{
    match certainty {
        3 => Fraction(-60_000_000),
        2 => Fraction(-20_000_000),
        _ => Fraction(0),
    }
}

/// What any other response earns: its fraction, twice or three times at certainty 2 or 3.
fn multiplied(certainty: u8, fraction: Fraction) -> Fraction
    requires part { IsWithin (neg_ℤ (pos one)) (pos one) fraction }
    requires certainty { certainty ≤ 3 }
    ensures value { result ≡ fraction *ℤ times certainty }
    ensures earned { IsEarnedFraction result }
{
    match certainty {
        3 => Fraction(3 * fraction.0),
        2 => Fraction(2 * fraction.0),
        _ => fraction,
    }
}

/// What certainty makes of a fraction. One that isn't given counts as 1.
fn by_certainty(behaviour: Behaviour, certainty: u8, fraction: Fraction) -> Fraction
    requires part { IsWithin (neg_ℤ (pos one)) (pos one) fraction }
    requires certainty { certainty ≤ 3 }
    ensures value { result ≡ by_certainty behaviour certainty fraction }
    ensures earned { IsEarnedFraction result }
{
    if !behaviour.asks_certainty() {
        return fraction;
    }
    match tone_of(fraction) {
        Tone::Wrong => lost(certainty),
        Tone::Partial | Tone::Right => multiplied(certainty, fraction),
    }
}

/// The outcome of a slot that ends with this response. The state is that of the fraction before certainty changes it.
pub(crate) fn graded_outcome<L: Ledger>(
    behaviour: Behaviour,
    question: &Question,
    response: &Response,
    steps: &mut Steps<L>,
) -> Outcome
    requires question { IsQuestion question.now }
    requires fits { fits question.now response.now behaviour ≡ true }
    ensures value { result ≡ ended_with (by_grade behaviour question.now response.now) }
    ensures earned { IfSome result.fraction IsEarnedFraction }
    ensures count { steps.new ≡ steps.old + 1 }
{
    let fraction = grade(question, response, steps);
    ended(
        State::graded(fraction),
        Some(by_certainty(behaviour, response.certainty, fraction)),
    )
}

/// The outcome of a slot that goes on.
pub(crate) fn going_on(state: State) -> Outcome
    ensures { result ≡ going_on state }
{
    Outcome {
        state,
        fraction: None,
        ended: false,
        needs_again: false,
        tries: 0,
    }
}

/// The outcome of a slot that has ended.
pub(crate) fn ended(state: State, fraction: Option<Fraction>) -> Outcome
    ensures { result ≡ ended_with (state, fraction) }
{
    Outcome {
        state,
        fraction,
        ended: true,
        needs_again: false,
        tries: 0,
    }
}
