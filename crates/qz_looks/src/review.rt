//! What a student is shown of own marks, states and grades. Moodle's manual page "Review options" describes it.

ghost use Rattle.std.specs.Prelude.{◌≡◌};
ghost use Rattle.qz_terms.specs.Review.{past_closing, shows_marks, shows_grade, shown_state, shown_value, tells_grade};

use qz_decimal::{Grade, Mark};
use qz_grading::State;
use qz_terms::{Review, Settings, Shown};

/// Whether the quiz has closed, or never does.
fn past_closing(settings: &Settings, moment: u64) -> bool
    ensures { result ≡ past_closing settings.now moment }
{
    settings.closes == 0 || settings.closes < moment
}

/// Whether marks are shown, in an attempt that has ended or not.
pub(crate) fn shows_marks(settings: &Settings, ended: bool, moment: u64) -> bool
    ensures { result ≡ shows_marks settings.now ended moment }
{
    match settings.review {
        Review::Always => true,
        Review::Finish => ended,
        Review::Close => ended && past_closing(settings, moment),
    }
}

/// Whether the grade of the quiz is shown.
pub fn shows_grade(settings: &Settings, moment: u64) -> bool
    ensures { result ≡ shows_grade settings.now moment }
{
    match settings.review {
        Review::Close => past_closing(settings, moment),
        Review::Always | Review::Finish => true,
    }
}

/// Whether a state comes after a finish, and tells how it went.
fn tells_grade(state: State) -> bool
    ensures { result ≡ tells_grade state }
{
    match state {
        State::Todo | State::Complete | State::Invalid | State::Finished => false,
        State::NeedsGrading
        | State::GaveUp
        | State::GradedWrong
        | State::GradedPartial
        | State::GradedRight
        | State::MangrWrong
        | State::MangrPartial
        | State::MangrRight => true,
    }
}

/// A state as it is shown: where marks are hidden, one that tells how it went is shown as finished.
pub fn shown_state(visible: bool, state: State) -> State
    ensures { result ≡ shown_state visible state }
{
    if !visible && tells_grade(state) {
        State::Finished
    } else {
        state
    }
}

/// A mark or a total as it is shown.
pub(crate) fn shown_mark(visible: bool, mark: Option<Mark>) -> Shown<Mark>
    ensures { result ≡ shown_value visible mark }
{
    match mark {
        _ if !visible => Shown::Hidden,
        Some(mark) => Shown::Value(mark),
        None => Shown::None,
    }
}

/// A grade as it is shown.
pub fn shown_grade(visible: bool, grade: Option<Grade>) -> Shown<Grade>
    ensures { result ≡ shown_value visible grade }
{
    match grade {
        _ if !visible => Shown::Hidden,
        Some(grade) => Shown::Value(grade),
        None => Shown::None,
    }
}
