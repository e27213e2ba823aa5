//! What may be asked.

ghost use Rattle.std.specs.Prelude.{◌≡◌, IfOk};

use crate::{Handling, Method, Review, Role};
use qz_decimal::{Fraction, Grade, Mark};
use qz_grading::{Answer, AttemptId, Bank, Behaviour, Question};
use qz_text::{Listed, NoMemory, Text, TryCopy};
use std::alloc::Global;

/// For whom something is set otherwise.
#[derive(Clone, Copy, PartialEq, Eq)]
pub enum Whom {
    User,
    Group,
}

/// A request. The first fourteen, `Jobs` and `Bank` go to the catalogue, `Work` and `Live` to the shard that they name,
/// `Report` to every shard, and the others to the shard of the user whose attempt or grade they name. Moments and times
/// are in seconds, marks, penalties and max marks in 10^-7, grades in 10^-5.
#[derive(Drop)]
pub enum Request {
    /// A user is made.
    User {
        name: Text,
        role: Role,
        token: Text,
    },
    /// A group is made.
    Group {
        name: Text,
    },
    /// A user becomes a member of a group.
    Member {
        group: u32,
        user: u32,
    },
    /// The questions of a GIFT text become entries of the bank.
    Import {
        gift: Bank,
    },
    /// An entry gets a new version, which keeps the penalty and hints of the one before.
    Edit {
        entry: u32,
        gift: Question,
    },
    /// An entry gets a new version, which is the one before with this penalty and these hints.
    Tune {
        entry: u32,
        penalty: Fraction,
        hints: Listed<Text>,
    },
    /// A quiz is made.
    Quiz {
        name: Text,
        behaviour: Behaviour,
    },
    /// A quiz that isn't ready yet gets one slot more.
    Slot {
        quiz: u32,
        entry: u32,
        max: Mark,
    },
    /// A quiz may be taken from now on, and its slots stay.
    Ready {
        quiz: u32,
    },
    /// A slot gets another max mark, for starts and regrades to come.
    Remax {
        quiz: u32,
        slot: u16,
        max: Mark,
    },
    /// How a quiz is graded.
    Policy {
        quiz: u32,
        method: Method,
        grade: Grade,
    },
    /// The settings of a quiz.
    Times {
        quiz: u32,
        opens: u64,
        closes: u64,
        limit: u32,
        allowed: u32,
        handling: Handling,
        grace: u32,
        review: Review,
    },
    /// What is set otherwise for a user or a group, in place of what was before.
    Override {
        quiz: u32,
        whom: Whom,
        number: u32,
        opens: Option<u64>,
        closes: Option<u64>,
        limit: Option<u32>,
        allowed: Option<u32>,
    },
    /// A job is made that binds each slot of a quiz's attempts to its entry's latest version.
    Regrade {
        quiz: u32,
    },
    /// The student starts an attempt.
    Start {
        quiz: u32,
    },
    /// An answer is kept.
    Save {
        attempt: AttemptId,
        slot: u16,
        certainty: u8,
        response: Answer,
    },
    /// An answer is handed in for a try.
    Submit {
        attempt: AttemptId,
        slot: u16,
        certainty: u8,
        response: Answer,
    },
    /// The student goes on after a try.
    Again {
        attempt: AttemptId,
        slot: u16,
    },
    /// The attempt ends.
    Finish {
        attempt: AttemptId,
    },
    /// A teacher marks a slot.
    Mark {
        attempt: AttemptId,
        slot: u16,
        mark: Mark,
    },
    /// One slot of a job is bound anew in a shard, or the job is done there.
    Work {
        job: u32,
        shard: u8,
    },
    /// An attempt whose time is over ends.
    Settle {
        attempt: AttemptId,
    },
    /// Which attempt of a shard, after this one, hasn't ended.
    Live {
        shard: u8,
        attempt: AttemptId,
    },
    /// How many jobs there are.
    Jobs,
    /// Where a slot stands.
    View {
        attempt: AttemptId,
        slot: u16,
    },
    /// Where an attempt stands.
    Total {
        attempt: AttemptId,
    },
    /// An attempt as a page.
    Page {
        attempt: AttemptId,
    },
    /// The grade of a user at a quiz.
    Grade {
        quiz: u32,
        user: u32,
    },
    /// The grades of a quiz.
    Report {
        quiz: u32,
    },
    /// A version of an entry.
    Bank {
        entry: u32,
        version: u32,
    },
}

impl TryCopy for Request {
    fn try_copy(&self, alloc: Global) -> Result<Request, NoMemory> {
        match self {
            Request::User { name, role, token } => Ok(Request::User {
                name: name.try_copy(alloc)?,
                role: *role,
                token: token.try_copy(alloc)?,
            }),
            Request::Group { name } => Ok(Request::Group {
                name: name.try_copy(alloc)?,
            }),
            Request::Member { group, user } => Ok(Request::Member {
                group: *group,
                user: *user,
            }),
            Request::Import { gift } => Ok(Request::Import {
                gift: gift.try_copy(alloc)?,
            }),
            Request::Edit { entry, gift } => Ok(Request::Edit {
                entry: *entry,
                gift: gift.try_copy(alloc)?,
            }),
            Request::Tune {
                entry,
                penalty,
                hints,
            } => Ok(Request::Tune {
                entry: *entry,
                penalty: *penalty,
                hints: hints.try_copy(alloc)?,
            }),
            Request::Quiz { name, behaviour } => Ok(Request::Quiz {
                name: name.try_copy(alloc)?,
                behaviour: *behaviour,
            }),
            Request::Slot { quiz, entry, max } => Ok(Request::Slot {
                quiz: *quiz,
                entry: *entry,
                max: *max,
            }),
            Request::Ready { quiz } => Ok(Request::Ready { quiz: *quiz }),
            Request::Remax { quiz, slot, max } => Ok(Request::Remax {
                quiz: *quiz,
                slot: *slot,
                max: *max,
            }),
            Request::Policy {
                quiz,
                method,
                grade,
            } => Ok(Request::Policy {
                quiz: *quiz,
                method: *method,
                grade: *grade,
            }),
            Request::Times {
                quiz,
                opens,
                closes,
                limit,
                allowed,
                handling,
                grace,
                review,
            } => Ok(Request::Times {
                quiz: *quiz,
                opens: *opens,
                closes: *closes,
                limit: *limit,
                allowed: *allowed,
                handling: *handling,
                grace: *grace,
                review: *review,
            }),
            Request::Override {
                quiz,
                whom,
                number,
                opens,
                closes,
                limit,
                allowed,
            } => Ok(Request::Override {
                quiz: *quiz,
                whom: *whom,
                number: *number,
                opens: *opens,
                closes: *closes,
                limit: *limit,
                allowed: *allowed,
            }),
            Request::Regrade { quiz } => Ok(Request::Regrade { quiz: *quiz }),
            Request::Start { quiz } => Ok(Request::Start { quiz: *quiz }),
            Request::Save {
                attempt,
                slot,
                certainty,
                response,
            } => Ok(Request::Save {
                attempt: *attempt,
                slot: *slot,
                certainty: *certainty,
                response: response.try_copy(alloc)?,
            }),
            Request::Submit {
                attempt,
                slot,
                certainty,
                response,
            } => Ok(Request::Submit {
                attempt: *attempt,
                slot: *slot,
                certainty: *certainty,
                response: response.try_copy(alloc)?,
            }),
            Request::Again { attempt, slot } => Ok(Request::Again {
                attempt: *attempt,
                slot: *slot,
            }),
            Request::Finish { attempt } => Ok(Request::Finish { attempt: *attempt }),
            Request::Mark {
                attempt,
                slot,
                mark,
            } => Ok(Request::Mark {
                attempt: *attempt,
                slot: *slot,
                mark: *mark,
            }),
            Request::Work { job, shard } => Ok(Request::Work {
                job: *job,
                shard: *shard,
            }),
            Request::Settle { attempt } => Ok(Request::Settle { attempt: *attempt }),
            Request::Live { shard, attempt } => Ok(Request::Live {
                shard: *shard,
                attempt: *attempt,
            }),
            Request::Jobs => Ok(Request::Jobs),
            Request::View { attempt, slot } => Ok(Request::View {
                attempt: *attempt,
                slot: *slot,
            }),
            Request::Total { attempt } => Ok(Request::Total { attempt: *attempt }),
            Request::Page { attempt } => Ok(Request::Page { attempt: *attempt }),
            Request::Grade { quiz, user } => Ok(Request::Grade {
                quiz: *quiz,
                user: *user,
            }),
            Request::Report { quiz } => Ok(Request::Report { quiz: *quiz }),
            Request::Bank { entry, version } => Ok(Request::Bank {
                entry: *entry,
                version: *version,
            }),
        }
    }
}
