//! Why a request is refused.

ghost use Rattle.std.specs.Prelude.{◌≡◌};
ghost use Rattle.qz_grading.specs.declared.refusal.Refusal.TheVariants as refusal;

use crate::{Behaviour, Shape, State};
use qz_decimal::Mark;
use qz_text::NoMemory;
use std::alloc::{AllocError, AllocFailed};

/// An attempt: its student, and its number among that student's attempts, from 1.
#[derive(Clone, Copy, Debug, PartialEq, Eq)]
pub struct AttemptId {
    pub user: u32,
    pub nth: u32,
}

/// What a request named that isn't there.
#[derive(Clone, Copy, Debug, PartialEq, Eq)]
pub enum Thing {
    User,
    Group,
    Entry,
    Version,
    Quiz,
    Slot,
    Attempt,
    Job,
    Shard,
}

/// Why a request is refused, in the order in which the causes are tested. A refused request adds no record.
#[derive(Clone, Copy, PartialEq, Eq)]
pub enum Refusal {
    /// The text is outside the grammar, at this word or line; `rule` is 0 or the number of a GIFT rule.
    Malformed { place: u32, rule: u8 },
    /// No user has the token.
    UnknownToken,
    /// The rule of callers with this number denies the request.
    Forbidden { rule: u8 },
    /// What was named isn't there.
    Unknown { what: Thing },
    /// The key stands with another request, whose record has this place.
    KeyReused { place: u64 },
    /// The quiz isn't ready (0), or opens at this moment.
    NotOpen { opens: u64 },
    /// The moment that counts has passed.
    Late { due: u64 },
    /// What was to change was closed at this place.
    Closed { place: u64 },
    /// The user has made so many attempts, which is all that are allowed.
    NoAttemptsLeft { allowed: u32 },
    /// The user has an attempt that hasn't ended.
    Unfinished { attempt: AttemptId },
    /// The behaviour doesn't take the step.
    WrongAction { behaviour: Behaviour },
    /// The slot has ended, in this state.
    SlotEnded { state: State },
    /// "Try again" has to come first.
    NeedsTryAgain,
    /// The response doesn't fit the question.
    Misfit,
    /// The mark is below 0 or above this, the greatest mark allowed (in 10^-7).
    OutOfRange { max: Mark },
    /// The attempt isn't finished.
    NotFinished,
    /// The newer version has another shape than the one bound.
    Incompatible { bound: Shape, newer: Shape },
    /// This limit is reached.
    TooMany { limit: u32 },
    /// The keeper of the records failed in this call.
    KeepFault,
    /// Memory was wanting.
    Memory,
}

impl From<NoMemory> for Refusal {
    ghost from_gives = { λ _ given. given ≡ refusal.Memory };

    fn from(_: NoMemory) -> Self {
        Refusal::Memory
    }
}

impl From<AllocError> for Refusal {
    ghost from_gives = { λ _ given. given ≡ refusal.Memory };

    fn from(_: AllocError) -> Self {
        Refusal::Memory
    }
}

impl<T: Drop> From<AllocFailed<T>> for Refusal {
    ghost from_gives = { λ _ given. given ≡ refusal.Memory };

    fn from(_: AllocFailed<T>) -> Self {
        Refusal::Memory
    }
}
