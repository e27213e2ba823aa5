//! Attempts that are finished, in order of quiz, user and number.

ghost use Rattle.std.specs.Prelude.{◌≡◌};
ghost use Rattle.qz_gradebook.specs.Totals.{comes_before, is_attempt, is_by};
ghost use Rattle.qz_gradebook.specs.Orders.{comes_before_user};

use qz_decimal::Mark;
use qz_grading::AttemptId;

/// A finished attempt of a quiz, and its total (in 10^-7), if it has one.
#[derive(Clone, Copy)]
pub(crate) struct Finished {
    pub(crate) quiz: u32,
    pub(crate) attempt: AttemptId,
    pub(crate) total: Option<Mark>,
}

impl Finished {
    /// Whether it comes before another, in order of quiz, user and number.
    pub(crate) fn comes_before(&self, other: &Finished) -> bool
        ensures { result ≡ comes_before self.now other.now }
    {
        self.quiz < other.quiz
            || self.quiz == other.quiz
                && (self.attempt.user < other.attempt.user
                    || self.attempt.user == other.attempt.user
                        && self.attempt.nth < other.attempt.nth)
    }

    /// Whether it is this attempt of this quiz.
    pub(crate) fn is_attempt(&self, quiz: u32, attempt: AttemptId) -> bool
        ensures { result ≡ is_attempt quiz attempt self.now }
    {
        self.quiz == quiz && self.attempt == attempt
    }

    /// Whether it comes before all attempts of a quiz by a user.
    pub(crate) fn comes_before_user(&self, quiz: u32, user: u32) -> bool
        ensures { result ≡ comes_before_user quiz user self.now }
    {
        self.quiz < quiz || self.quiz == quiz && self.attempt.user < user
    }

    /// Whether it is an attempt of a quiz by a user.
    pub(crate) fn is_by(&self, quiz: u32, user: u32) -> bool
        ensures { result ≡ is_by quiz user self.now }
    {
        self.quiz == quiz && self.attempt.user == user
    }
}
