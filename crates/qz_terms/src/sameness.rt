//! Whether two requests to the catalogue are the same as values. A comparison takes no memory.

ghost use Rattle.std.specs.Prelude.{◌≡◌};
ghost use Rattle.qz_terms.specs.Sameness.{same_setting, same_roster, same_change, same_quiz, same_rules, same_request};

use crate::Request;
use qz_grading::{same_bank, same_question, same_texts};

/// Of users and groups.
fn same_roster(one: &Request, other: &Request) -> bool
    ensures { result ≡ same_roster one.now other.now }
{
    match (one, other) {
        (
            Request::User { name, role, token },
            Request::User {
                name: called,
                role: part,
                token: sign,
            },
        ) => {
            name.as_bytes() == called.as_bytes()
                && role == part
                && token.as_bytes() == sign.as_bytes()
        }
        (Request::Group { name }, Request::Group { name: called }) => {
            name.as_bytes() == called.as_bytes()
        }
        (
            Request::Member { group, user },
            Request::Member {
                group: set,
                user: member,
            },
        ) => group == set && user == member,
        _ => false,
    }
}

/// Of the bank.
fn same_change(one: &Request, other: &Request) -> bool
    ensures { result ≡ same_change one.now other.now }
{
    match (one, other) {
        (Request::Import { gift }, Request::Import { gift: bank }) => same_bank(gift, bank),
        (
            Request::Edit { entry, gift },
            Request::Edit {
                entry: place,
                gift: question,
            },
        ) => entry == place && same_question(gift, question),
        (
            Request::Tune {
                entry,
                penalty,
                hints,
            },
            Request::Tune {
                entry: place,
                penalty: cost,
                hints: helps,
            },
        ) => {
            entry == place && penalty.0 == cost.0 && same_texts(hints.as_slice(), helps.as_slice())
        }
        _ => false,
    }
}

/// Of quizzes and their slots.
fn same_quiz(one: &Request, other: &Request) -> bool
    ensures { result ≡ same_quiz one.now other.now }
{
    match (one, other) {
        (
            Request::Quiz { name, behaviour },
            Request::Quiz {
                name: called,
                behaviour: manner,
            },
        ) => name.as_bytes() == called.as_bytes() && behaviour == manner,
        (
            Request::Slot { quiz, entry, max },
            Request::Slot {
                quiz: test,
                entry: place,
                max: most,
            },
        ) => quiz == test && entry == place && max.0 == most.0,
        (
            Request::Remax { quiz, slot, max },
            Request::Remax {
                quiz: test,
                slot: place,
                max: most,
            },
        ) => quiz == test && slot == place && max.0 == most.0,
        (Request::Ready { quiz }, Request::Ready { quiz: test })
        | (Request::Regrade { quiz }, Request::Regrade { quiz: test }) => quiz == test,
        _ => false,
    }
}

fn same_moment(one: Option<u64>, other: Option<u64>) -> bool
    ensures { result ≡ same_setting one other }
{
    match (one, other) {
        (None, None) => true,
        (Some(one), Some(other)) => one == other,
        _ => false,
    }
}

fn same_count(one: Option<u32>, other: Option<u32>) -> bool
    ensures { result ≡ same_setting one other }
{
    match (one, other) {
        (None, None) => true,
        (Some(one), Some(other)) => one == other,
        _ => false,
    }
}

/// Of how a quiz is graded and when it may be taken.
fn same_rules(one: &Request, other: &Request) -> bool
    ensures { result ≡ same_rules one.now other.now }
{
    match (one, other) {
        (
            Request::Policy {
                quiz,
                method,
                grade,
            },
            Request::Policy {
                quiz: test,
                method: rule,
                grade: scale,
            },
        ) => quiz == test && method == rule && grade.0 == scale.0,
        (
            Request::Times {
                quiz,
                opens,
                closes,
                limit,
                allowed,
                handling,
                grace,
                review,
            },
            Request::Times {
                quiz: test,
                opens: first,
                closes: last,
                limit: length,
                allowed: count,
                handling: fate,
                grace: delay,
                review: shown,
            },
        ) => {
            quiz == test
                && opens == first
                && closes == last
                && limit == length
                && allowed == count
                && handling == fate
                && grace == delay
                && review == shown
        }
        (
            Request::Override {
                quiz,
                whom,
                number,
                opens,
                closes,
                limit,
                allowed,
            },
            Request::Override {
                quiz: test,
                whom: whose,
                number: place,
                opens: first,
                closes: last,
                limit: length,
                allowed: count,
            },
        ) => {
            quiz == test
                && whom == whose
                && number == place
                && same_moment(*opens, *first)
                && same_moment(*closes, *last)
                && same_count(*limit, *length)
                && same_count(*allowed, *count)
        }
        _ => false,
    }
}

/// Whether two requests that the catalogue keeps are the same: the same command with the same arguments. Any other request is the
/// same as none.
pub fn same_request(one: &Request, other: &Request) -> bool
    ensures { result ≡ same_request one.now other.now }
{
    same_roster(one, other)
        || same_change(one, other)
        || same_quiz(one, other)
        || same_rules(one, other)
}
