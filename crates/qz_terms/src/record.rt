//! The records that the catalogue and the shards keep. Nothing else is kept.

ghost use Rattle.std.specs.Prelude.{◌≡◌, IfOk};

use crate::ask::copy_of_text;
use crate::{Bound, Request, Settings};
use qz_grading::{AttemptId, Behaviour, Question, Shape, Step};
use qz_text::{Listed, NoMemory, Text, TryCopy};
use std::alloc::Global;

/// A version of an entry as a shard has learned it.
#[derive(Drop)]
pub struct Learned {
    pub entry: u32,
    pub version: u32,
    pub question: Question,
}

/// The length of the catalogue under which a student's record was made, and the student's settings there.
#[derive(Clone, Copy, PartialEq, Eq)]
pub struct Terms {
    pub at: u64,
    pub settings: Settings,
}

/// How an attempt ended.
#[derive(Clone, Copy, PartialEq, Eq)]
pub enum How {
    Finished,
    Abandoned,
}

/// What happened. The first two stand in the catalogue, the others in shards.
#[derive(Drop)]
pub enum Event {
    /// The school was founded, with so many shards and its manager's token.
    Founded {
        shards: u8,
        token: Text,
    },
    /// A request to the catalogue was accepted.
    Asked {
        request: Request,
    },
    /// The owner started an attempt with this number. It learned the versions that were new to the shard.
    Started {
        quiz: u32,
        nth: u32,
        behaviour: Behaviour,
        bounds: Listed<Bound>,
        learned: Listed<Learned>,
    },
    /// A step was taken.
    Acted {
        attempt: AttemptId,
        slot: u16,
        step: Step,
    },
    /// A step was the same as the one before, and changed nothing.
    Noted {
        attempt: AttemptId,
        slot: u16,
        step: Step,
    },
    /// An attempt ended.
    Ended {
        attempt: AttemptId,
        how: How,
    },
    /// A job bound a newer version to a slot.
    Rebound {
        job: u32,
        attempt: AttemptId,
        slot: u16,
        bound: Bound,
        learned: Listed<Learned>,
    },
    /// A job left a slot as it was, since the newer version has another shape.
    Skipped {
        job: u32,
        attempt: AttemptId,
        slot: u16,
        bound: Shape,
        newer: Shape,
    },
    /// A job had no slot left to bind.
    JobDone {
        job: u32,
        quiz: u32,
        position: u64,
    },
}

/// One record: its moment in seconds since 1970, the number of the user who asked (0 for a worker), the user whose
/// attempt it is (0 where it is nobody's), the key of the request, if it had one, and, in records that a student's
/// request or a settling made, the terms under which it was made.
#[derive(Drop)]
pub struct Record {
    pub moment: u64,
    pub caller: u32,
    pub owner: u32,
    pub key: Option<Text>,
    pub terms: Option<Terms>,
    pub event: Event,
}

impl TryCopy for Learned {
    fn try_copy(&self, alloc: Global) -> Result<Learned, NoMemory> {
        Ok(Learned {
            entry: self.entry,
            version: self.version,
            question: self.question.try_copy(alloc)?,
        })
    }
}

impl TryCopy for Event {
    fn try_copy(&self, alloc: Global) -> Result<Event, NoMemory> {
        match self {
            Event::Founded { shards, token } => Ok(Event::Founded {
                shards: *shards,
                token: token.try_copy(alloc)?,
            }),
            Event::Asked { request } => Ok(Event::Asked {
                request: request.try_copy(alloc)?,
            }),
            Event::Started {
                quiz,
                nth,
                behaviour,
                bounds,
                learned,
            } => Ok(Event::Started {
                quiz: *quiz,
                nth: *nth,
                behaviour: *behaviour,
                bounds: bounds.try_copy(alloc)?,
                learned: learned.try_copy(alloc)?,
            }),
            Event::Acted {
                attempt,
                slot,
                step,
            } => Ok(Event::Acted {
                attempt: *attempt,
                slot: *slot,
                step: step.try_copy(alloc)?,
            }),
            Event::Noted {
                attempt,
                slot,
                step,
            } => Ok(Event::Noted {
                attempt: *attempt,
                slot: *slot,
                step: step.try_copy(alloc)?,
            }),
            Event::Ended { attempt, how } => Ok(Event::Ended {
                attempt: *attempt,
                how: *how,
            }),
            Event::Rebound {
                job,
                attempt,
                slot,
                bound,
                learned,
            } => Ok(Event::Rebound {
                job: *job,
                attempt: *attempt,
                slot: *slot,
                bound: *bound,
                learned: learned.try_copy(alloc)?,
            }),
            Event::Skipped {
                job,
                attempt,
                slot,
                bound,
                newer,
            } => Ok(Event::Skipped {
                job: *job,
                attempt: *attempt,
                slot: *slot,
                bound: *bound,
                newer: *newer,
            }),
            Event::JobDone {
                job,
                quiz,
                position,
            } => Ok(Event::JobDone {
                job: *job,
                quiz: *quiz,
                position: *position,
            }),
        }
    }
}

impl TryCopy for Record {
    fn try_copy(&self, alloc: Global) -> Result<Record, NoMemory> {
        Ok(Record {
            moment: self.moment,
            caller: self.caller,
            owner: self.owner,
            key: copy_of_text(&self.key, alloc)?,
            terms: self.terms,
            event: self.event.try_copy(alloc)?,
        })
    }
}
