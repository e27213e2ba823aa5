//! What one more step is to the steps before it.

ghost use Rattle.std.specs.Prelude.{◌≡◌, None, unwrap_or, option_map, option_and_then};
ghost use Rattle.std.specs.Option.{option_copied};
ghost use Rattle.qz_grading.specs.Grading.{same};
ghost use Rattle.qz_grading.specs.Steps.{is_finish, is_mark, is_answering, last, last_of, response_of, submitted, step_at, response_at};
ghost use Rattle.qz_grading.specs.Behaviours.{moved, ends_in_submit};

use crate::{Answer, Moved, Response, Step, same};

impl Step {
    /// Whether the attempt ends with it.
    pub fn is_finish(&self) -> bool
        ensures { result ≡ is_finish self.now }
    {
        matches!(self, Step::Finish)
    }

    /// Whether a teacher gives a mark.
    pub fn is_mark(&self) -> bool
        ensures { result ≡ is_mark self.now }
    {
        matches!(self, Step::Mark { .. })
    }

    /// Whether a student answers: a Save, a Submit or an Again.
    pub fn is_answering(&self) -> bool
        ensures { result ≡ is_answering self.now }
    {
        matches!(self, Step::Save(_) | Step::Submit(_) | Step::Again)
    }

    /// The response of a Save or a Submit.
    pub fn response(&self) -> Option<&Response>
        ensures { option_copied result ≡ response_of self.now }
    {
        match self {
            Step::Save(response) | Step::Submit(response) => Some(response),
            Step::Again | Step::Finish | Step::Mark { .. } => None,
        }
    }

    /// The response of a Submit.
    pub fn submitted(&self) -> Option<&Response>
        ensures { option_copied result ≡ submitted self.now }
    {
        match self {
            Step::Submit(response) => Some(response),
            Step::Save(_) | Step::Again | Step::Finish | Step::Mark { .. } => None,
        }
    }
}

/// The response of the step at a place, from 0, if there is one.
pub fn response_at(steps: &[Step], place: Option<usize>) -> Option<&Response>
    ensures { option_copied result ≡ option_and_then response_of (step_at steps.now place) }
{
    steps.get(place?)?.response()
}

/// The response of the last step, where that is a Submit.
#[tactic(auto, using(crate::proofs::StepLemmas::last_read))]
pub fn last_submitted(steps: &[Step]) -> Option<&Response>
    ensures { option_copied result ≡ unwrap_or (option_map submitted (last_of steps.now)) None }
{
    steps.last()?.submitted()
}

/// Whether a step adds something to the steps before it. A Save of the last response doesn't, nor a Submit again of the Submit
/// right before. The place is that of the last response before a Finish, if there is one; the last response is else the blank one.
pub fn moved(before: &[Step], place: Option<usize>, step: &Step) -> Moved
    requires { response_at before.now place ≡ last before.now }
    ensures { result ≡ moved before.now step.now }
{
    let is_same = match step {
        Step::Save(response) => is_same_at(before, place, response),
        Step::Submit(response) => ends_with_submit_of(before, response),
        Step::Again | Step::Finish | Step::Mark { .. } => false,
    };
    if is_same { Moved::Same } else { Moved::Kept }
}

/// Whether the response at a place, or the blank one where there is none, is this one.
fn is_same_at(steps: &[Step], place: Option<usize>, response: &Response) -> bool
    ensures { result ≡ same response.now (response_at steps.now place) }
{
    match response_at(steps, place) {
        Some(other) => same(response, other),
        None => response.certainty == 0 && matches!(response.answer, Answer::Blank),
    }
}

/// Whether the last step is a Submit of this response.
fn ends_with_submit_of(steps: &[Step], response: &Response) -> bool
    ensures { result ≡ ends_in_submit (same response.now) steps.now }
{
    match last_submitted(steps) {
        Some(last) => same(response, last),
        None => false,
    }
}
