//! The totals that are put, and the grades over them.

ghost use Rattle.std.specs.Prelude.{◌≡◌, ◌+◌, ◌<◌, ◌≤◌, ◌^◌, All, [], false, true, length, map, option_map, slice_get, unwrap_or, IfSome, OnErr, OnOk};
ghost use Rattle.qz_decimal.specs.Numbers.{IsMaxSum, IsQuizGrade};
ghost use Rattle.qz_terms.specs.Rows.{IsTotal, row_of};
ghost use Rattle.qz_gradebook.specs.Orders.{IsPlace};
ghost use Rattle.qz_gradebook.specs.Totals.{is_attempt, is_there, total, total_at, totals_of, with_total};

use crate::finished::Finished;
use crate::methods::row_of;
use qz_decimal::{Grade, Mark};
use qz_grading::AttemptId;
use qz_terms::Policy;
use qz_text::NoMemory;
use std::alloc::Global;
use std::marker::Model;

/// The gradebook's rows: finished attempts with their totals, from which each row's grade is read.
///
/// It is seen as the list of attempts, in order of quiz, user and number, and the room for more. A row is found in a time that
/// grows with the logarithm of the number of attempts, and with the number of the row's own. A new attempt moves those that come
/// after it.
#[derive(Drop)]
pub struct Rows {
    finished: Vec<Finished>,
}

impl Model for Rows {
    ghost use Rattle.std.specs.Prelude.{◌-◌, vec_len, vec_capacity};
    ghost use Rattle.qz_gradebook.specs.Totals.{Gradebook};

    ghost Value = { Gradebook };

    ghost use Rattle.qz_gradebook.specs.Orders.{IsGradebook};

    ghost view = { λ r. record { finished = r.finished.items; room = vec_capacity r.finished - vec_len r.finished } };

    ghost invariant = { λ r. IsGradebook r.finished.items };
}

impl Rows {
    /// Rows without an attempt. It takes no memory.
    pub fn new(alloc: Global) -> Rows
        ensures { result ≡ record { finished = []; room = 0 } }
    {
        Rows {
            finished: Vec::new(alloc),
        }
    }

    /// Makes room for one more attempt. Where memory is wanting all is as before.
    pub fn reserve(&mut self) -> Result<(), NoMemory>
        ensures room { OnOk result (0 < self.new.room) }
        ensures rest { self.new ≡ record self.old { room = self.new.room } }
        ensures kept { self.old.room ≤ self.new.room }
        ensures unchanged { OnErr result (self.new ≡ self.old) }
    {
        Ok(self.finished.reserve(1)?)
    }

    /// Puts the total of a finished attempt of a quiz (in 10^-7, from -12,000,000 to 12,000,000 marks), or that it has none. Where
    /// one was put before, this one takes its place and the room stays; for a new attempt there has to be room. All other attempts
    /// stay. Attempts are numbered from 1. It takes no memory.
    pub fn put_total(&mut self, quiz: u32, attempt: AttemptId, total: Option<Mark>)
        requires room { is_there quiz attempt self.old.finished ≡ false → 0 < self.old.room }
        requires number { 0 < attempt.nth }
        requires range { IfSome total IsTotal }
        ensures put { self.new.finished ≡ with_total quiz attempt total self.old.finished }
        ensures room { self.old.room ≤ self.new.room + 1 }
        ensures changed { is_there quiz attempt self.old.finished ≡ true → self.new.room ≡ self.old.room }
    {
        let new = Finished {
            quiz,
            attempt,
            total,
        };
        let place = self.place_of(&new);
        if self.stands_at(place, quiz, attempt) {
            self.finished[place] = new;
        } else {
            // There is room, so this takes no memory.
            self.finished.insert(place, new).unwrap();
        }
    }

    /// The grade (in 10^-5) of a user at a quiz, over the totals of the user's finished attempts of it in order of number, and none
    /// where no total is taken. The grade is from 0 to 10,000, and the sum of the max marks from 0 to 2,000,000. It takes no memory.
    ///
    /// The highest total and the average skip attempts without a total, and the average is rounded once; the first and the last
    /// attempt give no grade where they have none. Moodle's manual page "Quiz settings" describes the grading methods.
    pub fn row(&self, quiz: u32, policy: &Policy, user: u32) -> Option<Grade>
        requires grade { IsQuizGrade policy.now.grade }
        requires sum { IsMaxSum policy.now.sum }
        ensures { result ≡ row_of policy.now (totals_of self.now.finished quiz user) }
    {
        row_of(policy, self.attempts(quiz, user))
    }

    /// The total that was put last of an attempt of a quiz (in 10^-7), and none where it has none or none was put. Its time
    /// grows with the logarithm of the number of attempts, and it takes no memory.
    pub fn total(&self, quiz: u32, attempt: AttemptId) -> Option<Mark>
        ensures value { result ≡ total_at quiz attempt self.now.finished }
        ensures range { IfSome result IsTotal }
    {
        let place = self.place_of(&Finished {
            quiz,
            attempt,
            total: None,
        });
        let old = self.finished.get(place)?;
        if old.is_attempt(quiz, attempt) {
            old.total
        } else {
            None
        }
    }

    /// The attempts of a quiz by a user, in order of number.
    fn attempts(&self, quiz: u32, user: u32) -> &[Finished]
        ensures attempts { map total result.now ≡ totals_of self.now.finished quiz user }
        ensures totals { All (λ f. IfSome f.total IsTotal) result.now }
        ensures few { length result.now < 2 ^ 32 }
    {
        let first = self
            .finished
            .partition_point(|old| old.comes_before_user(quiz, user));
        let rest = self.finished.split_at(first).1;
        let count = rest.partition_point(|old| old.is_by(quiz, user));
        rest.split_at(count).0
    }

    /// Where an attempt stands, or would stand.
    fn place_of(&self, attempt: &Finished) -> usize
        ensures { IsPlace self.now.finished attempt.now result }
    {
        self.finished
            .partition_point(|old| old.comes_before(attempt))
    }

    /// Whether an attempt stands at this place.
    fn stands_at(&self, place: usize, quiz: u32, attempt: AttemptId) -> bool
        ensures { result ≡ unwrap_or (option_map (is_attempt quiz attempt) (slice_get self.now.finished place)) false }
    {
        match self.finished.get(place) {
            Some(old) => old.is_attempt(quiz, attempt),
            None => false,
        }
    }
}
