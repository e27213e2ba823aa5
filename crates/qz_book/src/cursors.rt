//! How far jobs have come, so that a search for a target goes on where the last one ended.

ghost use Rattle.std.specs.BTreeMap.{get};
ghost use Rattle.std.specs.Ordering.{nat_cmp};
ghost use Rattle.std.specs.Prelude.{◌≡◌, ◌&&◌, ◌==◌, ℕ, IsSome, None, OnErr, OnOk, Some, if◌then◌else◌, option_map};
ghost use Rattle.qz_terms.specs.History.{attempt_before};
ghost use Rattle.qz_book.specs.Cursors.{cursor_at, cursor_of, followed, moved_back, passed_by, plan_position};

use qz_grading::AttemptId;
use qz_terms::{Event, Record};
use qz_text::NoMemory;
use std::alloc::Global;
use std::collections::BTreeMap;

/// It comes before all attempts, which are numbered from 1.
const FRONT: AttemptId = AttemptId { user: 0, nth: 0 };

/// How far a job with this position has come: no slot of an attempt up to this one is left to it.
#[derive(Clone, Copy)]
pub(crate) struct Cursor {
    pub position: u64,
    pub passed: AttemptId,
}

/// Whether an attempt comes before another, in order of user and number.
fn is_before(one: AttemptId, other: AttemptId) -> bool
    ensures { result ≡ attempt_before one other }
{
    one.user < other.user || (one.user == other.user && one.nth < other.nth)
}

/// The position of a start's plan.
fn plan_position(record: &Record) -> u64
    ensures { result ≡ plan_position «record».now }
{
    match &record.terms {
        Some(terms) => terms.at,
        None => 0,
    }
}

impl Cursor {
    /// Moves it back before an attempt that starts behind it, whose slots are left to the job where their plan is older than that.
    fn move_back(&mut self, attempt: AttemptId, plan: u64)
        ensures { self.new ≡ moved_back attempt plan self.old }
    {
        if plan < self.position && !is_before(self.passed, attempt) {
            self.passed = AttemptId {
                user: attempt.user,
                nth: attempt.nth.saturating_sub(1),
            };
        }
    }
}

/// The cursors of the jobs of one quiz.
#[derive(Drop)]
pub(crate) struct Track {
    pub jobs: BTreeMap<u32, Cursor>,
}

impl Track {
    fn move_back(&mut self, attempt: AttemptId, plan: u64)
        ensures { (job : ℕ) → get nat_cmp self.new.jobs job
            ≡ option_map (moved_back attempt plan) (get nat_cmp self.old.jobs job) }
    {
        self.jobs.retain(|_, cursor| {
            cursor.move_back(attempt, plan);
            true
        });
    }
}

/// The cursors of the jobs that are at work, one for each, by quiz. A job that is done has none.
#[derive(Drop)]
pub struct Cursors {
    pub(crate) quizzes: BTreeMap<u32, Track>,
}

impl Cursors {
    /// Of no job. It takes no memory.
    pub fn new(alloc: Global) -> Cursors
        ensures { (q job : ℕ) → cursor_at result q job ≡ None }
    {
        Cursors {
            quizzes: BTreeMap::new(alloc),
        }
    }

    fn cursor(&self, quiz: u32, job: u32) -> Option<Cursor>
        ensures { result ≡ cursor_at self.now quiz job }
    {
        self.quizzes.get(&quiz)?.jobs.get(&job).copied()
    }

    /// The attempt up to which nothing is left to a job: one before all attempts, where nothing is known.
    pub(crate) fn passed(&self, job: u32, quiz: u32, position: u64) -> AttemptId
        ensures { result ≡ passed_by position (cursor_at self.now quiz job) }
    {
        match self.cursor(quiz, job) {
            Some(cursor) if cursor.position == position => cursor.passed,
            _ => FRONT,
        }
    }

    /// Makes room for the cursors of a quiz.
    fn make(&mut self, alloc: Global, quiz: u32) -> Result<(), NoMemory>
        ensures same { (q job : ℕ) → cursor_at self.new q job ≡ cursor_at self.old q job }
        ensures room { OnOk result (IsSome (get nat_cmp self.new.quizzes quiz)) }
    {
        if !self.quizzes.contains_key(&quiz) {
            self.quizzes.insert(
                quiz,
                Track {
                    jobs: BTreeMap::new(alloc),
                },
            )?;
        }
        Ok(())
    }

    /// Keeps how far a job has come. Where memory is wanting nothing changes.
    pub(crate) fn keep(
        &mut self,
        alloc: Global,
        job: u32,
        quiz: u32,
        position: u64,
        passed: AttemptId,
    ) -> Result<(), NoMemory>
        ensures kept { OnOk result ((q j : ℕ) → cursor_at self.new q j
            ≡ (if (quiz == q) && (job == j) then Some (cursor_of position passed) else cursor_at self.old q j)) }
        ensures unchanged { OnErr result ((q j : ℕ) → cursor_at self.new q j ≡ cursor_at self.old q j) }
    {
        self.make(alloc, quiz)?;
        match self.quizzes.get_mut(&quiz) {
            Some(track) => {
                track.jobs.insert(job, Cursor { position, passed })?;
                Ok(())
            }
            None => unreachable!(),
        }
    }

    /// Moves the cursors of a quiz back before an attempt that starts.
    fn start(&mut self, quiz: u32, attempt: AttemptId, plan: u64)
        ensures { (q job : ℕ) → cursor_at self.new q job
            ≡ (if quiz == q then option_map (moved_back attempt plan) (cursor_at self.old q job)
            else cursor_at self.old q job) }
    {
        if let Some(track) = self.quizzes.get_mut(&quiz) {
            track.move_back(attempt, plan);
        }
    }

    /// Drops the cursor of a job.
    fn finish(&mut self, quiz: u32, job: u32)
        ensures { (q j : ℕ) → cursor_at self.new q j
            ≡ (if (quiz == q) && (job == j) then None else cursor_at self.old q j) }
    {
        if let Some(track) = self.quizzes.get_mut(&quiz) {
            track.jobs.remove(&job);
        }
    }

    /// Follows a record that was put. A start is the one that gives a job more slots, and a job that is done has no cursor. It takes
    /// no memory.
    pub fn follow(&mut self, record: &Record)
        ensures { (q job : ℕ) → cursor_at self.new q job
            ≡ followed «record».now q job (cursor_at self.old q job) }
    {
        match &record.event {
            Event::Started { quiz, nth, .. } => {
                let attempt = AttemptId {
                    user: record.owner,
                    nth: *nth,
                };
                self.start(*quiz, attempt, plan_position(record));
            }
            Event::JobDone { job, quiz, .. } => self.finish(*quiz, *job),
            Event::Founded { .. }
            | Event::Asked { .. }
            | Event::Acted { .. }
            | Event::Noted { .. }
            | Event::Ended { .. }
            | Event::Rebound { .. }
            | Event::Skipped { .. } => {}
        }
    }
}
