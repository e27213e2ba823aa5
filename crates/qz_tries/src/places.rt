//! Responses by their places in a list of steps.

ghost use Rattle.std.specs.Prelude.{◌≡◌};
ghost use Rattle.std.specs.Option.{option_copied};
ghost use Rattle.qz_grading.specs.Grading.{complete};
ghost use Rattle.qz_grading.specs.Steps.{response_at};
ghost use Rattle.qz_grading.specs.Behaviours.{ends_in_submit};
ghost use Rattle.qz_tries.specs.After.{submitted_at};
ghost use Rattle.qz_tries.specs.Parts.{if_gradable};

use qz_grading::{Question, Response, Step, complete, gradable, last_submitted, response_at};

/// The response at a place, where it can be graded.
pub(crate) fn gradable_at<'a>(
    question: &Question,
    steps: &'a [Step],
    place: Option<usize>,
) -> Option<&'a Response>
    ensures { option_copied result ≡ if_gradable question.now (response_at steps.now place) }
{
    let response = response_at(steps, place)?;
    if gradable(question, response) {
        Some(response)
    } else {
        None
    }
}

/// The response of a Submit at a place.
pub(crate) fn submitted_at(steps: &[Step], place: Option<usize>) -> Option<&Response>
    ensures { option_copied result ≡ submitted_at steps.now place }
{
    steps.get(place?)?.submitted()
}

/// Whether the last step is a Submit of a complete response.
pub(crate) fn ends_complete(question: &Question, steps: &[Step]) -> bool
    ensures { result ≡ ends_in_submit (complete question.now) steps.now }
{
    match last_submitted(steps) {
        Some(last) => complete(question, last),
        None => false,
    }
}
