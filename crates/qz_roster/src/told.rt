//! What one record tells.

ghost use Rattle.std.specs.Prelude.{◌≡◌, ◌<◌, ◌^◌, is_some, length, option_copied, option_map};
ghost use Rattle.qz_terms.specs.Catalog.{Person, asked, group_by, imports_by, made_user, policy_by, quiz_by, readies, regrade_by, slot_by, times_by};
ghost use Rattle.qz_roster.specs.Members.{joined};
ghost use Rattle.qz_roster.specs.Overrides.{set_otherwise};
ghost use Rattle.qz_roster.specs.People.{asked_key, role_told};
ghost use Rattle.qz_roster.specs.Quizzes.{quiz_told};
ghost use Rattle.qz_roster.specs.Told.{named_in};

use qz_decimal::{Grade, Mark};
use qz_grading::Behaviour;
use qz_terms::{Event, Method, Override, Record, Request, Role, Settings, Whom};
use qz_text::Text;

/// The token of the user that a record makes.
pub(crate) fn made_token(record: &Record) -> Option<&Text>
    ensures { option_copied result ≡ option_map (λ (p : Person). p.token) (made_user «record».now) }
{
    match &record.event {
        Event::Founded { token, .. }
        | Event::Asked {
            request: Request::User { token, .. },
        } => Some(token),
        _ => None,
    }
}

/// The role of the user that a record makes.
pub(crate) fn made_role(record: &Record) -> Option<Role>
    ensures { result ≡ role_told «record».now }
{
    match &record.event {
        Event::Founded { .. } => Some(Role::Manager),
        Event::Asked {
            request: Request::User { role, .. },
        } => Some(*role),
        _ => None,
    }
}

/// The key under which a request made a record, if it has one. A founding may have any key, and no request repeats it.
pub(crate) fn asked_key(record: &Record) -> Option<&Text>
    ensures { option_copied result ≡ asked_key «record».now }
{
    match &record.event {
        Event::Asked { .. } => record.key.as_ref(),
        _ => None,
    }
}

/// The name and behaviour of a quiz.
#[derive(Clone, Copy)]
pub struct Named<'a> {
    pub name: &'a Text,
    pub behaviour: Behaviour,
}

/// The quiz that a record makes.
pub(crate) fn quiz_by(record: &Record) -> Option<Named>
    ensures { option_map named_in result ≡ quiz_by (asked «record».now) }
{
    match &record.event {
        Event::Asked {
            request: Request::Quiz { name, behaviour },
        } => Some(Named {
            name,
            behaviour: *behaviour,
        }),
        _ => None,
    }
}

/// The entry and the first max mark (in 10^-7) of the slot that a record makes, if it is the quiz's.
pub(crate) fn slot_by(quiz: u32, record: &Record) -> Option<(u32, Mark)>
    ensures { result ≡ slot_by quiz (asked «record».now) }
{
    match &record.event {
        Event::Asked {
            request: Request::Slot {
                quiz: other,
                entry,
                max,
            },
        } if *other == quiz => Some((*entry, *max)),
        _ => None,
    }
}

/// Whether a record makes a quiz ready.
pub(crate) fn readies(quiz: u32, record: &Record) -> bool
    ensures { result ≡ readies quiz «record».now }
{
    match &record.event {
        Event::Asked {
            request: Request::Ready { quiz: other },
        } => *other == quiz,
        _ => false,
    }
}

/// The settings that a record gives to a quiz, if it does.
pub(crate) fn times_by(quiz: u32, record: &Record) -> Option<Settings>
    ensures { result ≡ times_by quiz (asked «record».now) }
{
    match &record.event {
        Event::Asked {
            request: Request::Times {
                quiz: other,
                opens,
                closes,
                limit,
                allowed,
                handling,
                grace,
                review,
            },
        } if *other == quiz => Some(Settings {
            opens: *opens,
            closes: *closes,
            limit: *limit,
            allowed: *allowed,
            handling: *handling,
            grace: *grace,
            review: *review,
        }),
        _ => None,
    }
}

/// How a record says that a quiz is graded, if it does.
pub(crate) fn policy_by(quiz: u32, record: &Record) -> Option<(Method, Grade)>
    ensures { result ≡ policy_by quiz (asked «record».now) }
{
    match &record.event {
        Event::Asked {
            request: Request::Policy {
                quiz: other,
                method,
                grade,
            },
        } if *other == quiz => Some((*method, *grade)),
        _ => None,
    }
}

/// How many entries a record imports.
pub(crate) fn import_count(record: &Record) -> usize
    ensures value { result ≡ length (imports_by (asked «record».now)) }
    ensures few { result < 2 ^ 63 }
{
    match &record.event {
        Event::Asked {
            request: Request::Import { gift },
        } => gift.items.as_slice().len(),
        _ => 0,
    }
}

/// Whether a record makes a group.
pub(crate) fn makes_group(record: &Record) -> bool
    ensures { result ≡ is_some (group_by (asked «record».now)) }
{
    matches!(
        record.event,
        Event::Asked {
            request: Request::Group { .. }
        }
    )
}

/// The position and the quiz of the job that a record at this place, from 1, makes.
pub fn regrade_by(place: u64, record: &Record) -> Option<(u64, u32)>
    ensures { result ≡ regrade_by place (asked «record».now) }
{
    match &record.event {
        Event::Asked {
            request: Request::Regrade { quiz },
        } => Some((place, *quiz)),
        _ => None,
    }
}

/// The quiz of whose own slots, times or terms a record tells.
pub(crate) fn quiz_told(record: &Record) -> Option<u32>
    ensures { result ≡ quiz_told (asked «record».now) }
{
    match &record.event {
        Event::Asked {
            request: Request::Slot { quiz, .. }
            | Request::Remax { quiz, .. }
            | Request::Ready { quiz }
            | Request::Policy { quiz, .. }
            | Request::Times { quiz, .. },
        } => Some(*quiz),
        _ => None,
    }
}

/// The group and the user that a record makes a member of it.
pub(crate) fn joined(record: &Record) -> Option<(u32, u32)>
    ensures { result ≡ joined (asked «record».now) }
{
    match &record.event {
        Event::Asked {
            request: Request::Member { group, user },
        } => Some((*group, *user)),
        _ => None,
    }
}

/// A user or a group, at a quiz.
#[derive(Clone, Copy)]
pub(crate) struct Target {
    pub(crate) quiz: u32,
    pub(crate) whom: Whom,
    pub(crate) number: u32,
}

/// What a record sets otherwise, and for whom.
pub(crate) fn set_otherwise(record: &Record) -> Option<(Target, Override)>
    ensures { result ≡ set_otherwise (asked «record».now) }
{
    let Event::Asked {
        request: Request::Override {
            quiz,
            whom,
            number,
            opens,
            closes,
            limit,
            allowed,
        },
    } = &record.event
    else {
        return None;
    };
    let target = Target {
        quiz: *quiz,
        whom: *whom,
        number: *number,
    };
    let set = Override {
        opens: *opens,
        closes: *closes,
        limit: *limit,
        allowed: *allowed,
    };
    Some((target, set))
}
