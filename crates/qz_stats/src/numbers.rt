//! The numbers that are told of a question: its choices, from 1, and 0 for no answer.

ghost use Rattle.std.specs.Option.{option_copied};
ghost use Rattle.std.specs.Prelude.{◌≡◌, ◌≤◌, filter_map, unwrap_or};
ghost use Rattle.qz_grading.specs.declared.limits.TheConstants.{MOST_PARTS};
ghost use Rattle.qz_grading.specs.Grading.{blank};
ghost use Rattle.qz_grading.specs.Questions.{parts};
ghost use Rattle.qz_grading.specs.Steps.{before, last_of, response_of};
ghost use Rattle.qz_stats.specs.Picks.{number_count, picks, tells};

use qz_grading::{Answer, Kind, Response, Step};

/// How many numbers are told of a question of this kind, which has at most 64 choices.
pub(crate) fn number_count(kind: &Kind) -> u8
    requires { parts kind.now ≤ MOST_PARTS }
    ensures { result ≡ number_count kind.now }
{
    match kind {
        Kind::TrueFalse { .. } => 3,
        Kind::One(choices) | Kind::Several(choices) => choices.as_slice().len() as u8 + 1,
        Kind::Description
        | Kind::Essay
        | Kind::Matching(_)
        | Kind::ShortAnswer(_)
        | Kind::Numerical(_) => 0,
    }
}

/// The last response before the first Finish, if there is one.
pub(crate) fn last_response(steps: &[Step]) -> Option<&Response>
    ensures { option_copied result ≡ last_of (filter_map response_of (before steps.now)) }
{
    let mut last = None;
    for step in steps {
        if step.is_finish() {
            return last;
        }
        last = step.response().or(last);
    }
    last
}

/// Whether an answer picks the choice with this number.
fn picks(number: u8, answer: &Answer) -> bool
    ensures { result ≡ picks number answer.now }
{
    match answer {
        Answer::Pick(choice) => *choice == number,
        Answer::Picks(choices) => choices.as_slice().iter().any(|choice| *choice == number),
        Answer::Blank | Answer::Match(_) | Answer::Words(_) => false,
    }
}

/// Whether a response, or the blank one where there is none, tells a number.
pub(crate) fn tells(number: u8, response: Option<&Response>) -> bool
    ensures { result ≡ tells number (unwrap_or (option_copied response.entry) blank).answer }
{
    let Some(response) = response else {
        return number == 0;
    };
    if number == 0 {
        return matches!(response.answer, Answer::Blank);
    }
    picks(number, &response.answer)
}
