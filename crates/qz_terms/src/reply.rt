//! What is answered.

ghost use Rattle.std.specs.Prelude.{◌≡◌, IfOk};

use crate::How;
use crate::ask::copy_of_text;
use qz_decimal::{Grade, Mark};
use qz_grading::{AttemptId, Question, Refusal, Shape, State};
use qz_text::{Listed, NoMemory, Text, TryCopy};
use std::alloc::Global;

/// A value as it is shown: there is none, it is hidden from its student, or it is this.
#[derive(Clone, Copy)]
pub enum Shown<T> {
    None,
    Hidden,
    Value(T),
}

/// Whether an attempt goes on, or how it ended.
#[derive(Clone, Copy, PartialEq, Eq)]
pub enum Status {
    Live,
    Finished,
    Abandoned,
}

/// A slot on a page: the question's text, the slot's state and mark, the hint where "try again" is needed, the
/// feedbacks of the last response, and the general feedback. Feedbacks that aren't shown are empty.
#[derive(Drop)]
pub struct Part {
    pub text: Text,
    pub state: State,
    pub mark: Shown<Mark>,
    pub hint: Option<Text>,
    pub feedback: Listed<Text>,
    pub general: Text,
}

/// A user's grade in a report. The name is empty where the catalogue that was read doesn't have the user yet.
#[derive(Drop)]
pub struct Row {
    pub user: u32,
    pub name: Text,
    pub grade: Option<Grade>,
}

/// What was done, or what was looked at. A moment that is due is in seconds since 1970, marks and totals are in
/// 10^-7, grades in 10^-5.
#[derive(Drop)]
pub enum Done {
    /// A user, a group or a quiz was made, with this number.
    Made {
        number: u32,
    },
    /// It was done.
    Done,
    /// So many entries were made, the first with this number (0 where there are none).
    Imported {
        first: u32,
        count: u32,
    },
    /// An entry has this latest version.
    Version {
        entry: u32,
        version: u32,
    },
    /// A quiz has this slot.
    Slot {
        number: u16,
    },
    /// A job was made.
    Job {
        number: u32,
    },
    /// An attempt was started, with so many slots, and is due at a moment, if any.
    Started {
        attempt: AttemptId,
        slots: u32,
        due: Option<u64>,
    },
    /// A step was taken; the slot's state and mark.
    Stepped {
        state: State,
        mark: Shown<Mark>,
    },
    /// A step was the same as the one before, and changed nothing.
    Same {
        state: State,
        mark: Shown<Mark>,
    },
    /// An attempt was finished, with this total.
    Finished {
        total: Shown<Mark>,
    },
    /// A slot was marked by a teacher.
    Marked {
        state: State,
        mark: Shown<Mark>,
    },
    /// A job bound a slot anew; its state and mark now.
    Rebound {
        attempt: AttemptId,
        slot: u16,
        state: State,
        mark: Shown<Mark>,
    },
    /// A job left a slot as it was, since these shapes differ.
    Skipped {
        attempt: AttemptId,
        slot: u16,
        bound: Shape,
        newer: Shape,
    },
    /// A job is done in a shard.
    JobDone {
        job: u32,
    },
    /// A job was done in a shard before.
    AlreadyDone {
        job: u32,
    },
    /// An attempt whose time was over ended.
    Settled {
        attempt: AttemptId,
        how: How,
    },
    /// An attempt wasn't to be settled.
    Idle,
    /// The next attempt that hasn't ended, if any.
    Live {
        attempt: Option<AttemptId>,
    },
    /// So many jobs there are.
    Jobs {
        count: u32,
    },
    /// A slot's state and mark, the version bound, and the number of its Save, Submit and Again steps.
    SlotView {
        state: State,
        mark: Shown<Mark>,
        version: u32,
        steps: u32,
    },
    /// Where an attempt stands.
    Attempt {
        status: Status,
        total: Shown<Mark>,
        due: Option<u64>,
    },
    /// An attempt as a page: the quiz's name, and a part per slot.
    Page {
        attempt: AttemptId,
        quiz: Text,
        due: Option<u64>,
        parts: Listed<Part>,
    },
    /// A grade.
    Grade {
        grade: Shown<Grade>,
    },
    /// The grades of a quiz.
    Report {
        rows: Listed<Row>,
    },
    /// A question.
    Gift {
        question: Question,
    },
}

/// An answer. The place of an accepted one is the number of the user's records so far in the shard, where it is
/// about a user's attempt or grade; for a job that is done the place of its record in the shard; for `Live` the
/// number of the shard's records; else the position in the catalogue.
#[derive(Drop)]
pub enum Reply {
    Ok { place: u64, done: Done },
    Refused(Refusal),
}

impl TryCopy for Part {
    fn try_copy(&self, alloc: Global) -> Result<Part, NoMemory> {
        Ok(Part {
            text: self.text.try_copy(alloc)?,
            state: self.state,
            mark: self.mark,
            hint: copy_of_text(&self.hint, alloc)?,
            feedback: self.feedback.try_copy(alloc)?,
            general: self.general.try_copy(alloc)?,
        })
    }
}

impl TryCopy for Row {
    fn try_copy(&self, alloc: Global) -> Result<Row, NoMemory> {
        Ok(Row {
            user: self.user,
            name: self.name.try_copy(alloc)?,
            grade: self.grade,
        })
    }
}

impl TryCopy for Done {
    fn try_copy(&self, alloc: Global) -> Result<Done, NoMemory> {
        match self {
            Done::Made { number } => Ok(Done::Made { number: *number }),
            Done::Done => Ok(Done::Done),
            Done::Imported { first, count } => Ok(Done::Imported {
                first: *first,
                count: *count,
            }),
            Done::Version { entry, version } => Ok(Done::Version {
                entry: *entry,
                version: *version,
            }),
            Done::Slot { number } => Ok(Done::Slot { number: *number }),
            Done::Job { number } => Ok(Done::Job { number: *number }),
            Done::Started {
                attempt,
                slots,
                due,
            } => Ok(Done::Started {
                attempt: *attempt,
                slots: *slots,
                due: *due,
            }),
            Done::Stepped { state, mark } => Ok(Done::Stepped {
                state: *state,
                mark: *mark,
            }),
            Done::Same { state, mark } => Ok(Done::Same {
                state: *state,
                mark: *mark,
            }),
            Done::Finished { total } => Ok(Done::Finished { total: *total }),
            Done::Marked { state, mark } => Ok(Done::Marked {
                state: *state,
                mark: *mark,
            }),
            Done::Rebound {
                attempt,
                slot,
                state,
                mark,
            } => Ok(Done::Rebound {
                attempt: *attempt,
                slot: *slot,
                state: *state,
                mark: *mark,
            }),
            Done::Skipped {
                attempt,
                slot,
                bound,
                newer,
            } => Ok(Done::Skipped {
                attempt: *attempt,
                slot: *slot,
                bound: *bound,
                newer: *newer,
            }),
            Done::JobDone { job } => Ok(Done::JobDone { job: *job }),
            Done::AlreadyDone { job } => Ok(Done::AlreadyDone { job: *job }),
            Done::Settled { attempt, how } => Ok(Done::Settled {
                attempt: *attempt,
                how: *how,
            }),
            Done::Idle => Ok(Done::Idle),
            Done::Live { attempt } => Ok(Done::Live { attempt: *attempt }),
            Done::Jobs { count } => Ok(Done::Jobs { count: *count }),
            Done::SlotView {
                state,
                mark,
                version,
                steps,
            } => Ok(Done::SlotView {
                state: *state,
                mark: *mark,
                version: *version,
                steps: *steps,
            }),
            Done::Attempt { status, total, due } => Ok(Done::Attempt {
                status: *status,
                total: *total,
                due: *due,
            }),
            Done::Page {
                attempt,
                quiz,
                due,
                parts,
            } => Ok(Done::Page {
                attempt: *attempt,
                quiz: quiz.try_copy(alloc)?,
                due: *due,
                parts: parts.try_copy(alloc)?,
            }),
            Done::Grade { grade } => Ok(Done::Grade { grade: *grade }),
            Done::Report { rows } => Ok(Done::Report {
                rows: rows.try_copy(alloc)?,
            }),
            Done::Gift { question } => Ok(Done::Gift {
                question: question.try_copy(alloc)?,
            }),
        }
    }
}

impl TryCopy for Reply {
    fn try_copy(&self, alloc: Global) -> Result<Reply, NoMemory> {
        match self {
            Reply::Ok { place, done } => Ok(Reply::Ok {
                place: *place,
                done: done.try_copy(alloc)?,
            }),
            Reply::Refused(refusal) => Ok(Reply::Refused(*refusal)),
        }
    }
}
