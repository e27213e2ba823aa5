//! The settings of one student: those of the quiz, and what is set otherwise.

ghost use Rattle.std.specs.Prelude.{◌≡◌, option_copied};
ghost use Rattle.qz_terms.specs.Access.{effective};
ghost use Rattle.qz_access.specs.Lenient.{is_longer, longer, more_lenient, most_lenient, none_set};

use crate::ends::lesser;
use qz_terms::{Override, Settings};

/// Nothing is set otherwise.
fn none_set() -> Override
    ensures { result ≡ none_set }
{
    Override {
        opens: None,
        closes: None,
        limit: None,
        allowed: None,
    }
}

/// Whether the second of two ends is the longer, where 0 stands for none at all, which is the longest.
fn is_longer(one: u64, other: u64) -> bool
    ensures { result ≡ is_longer one other }
{
    one != 0 && (other == 0 || one < other)
}

/// The longer of two times, of those that are set.
fn longer_time(one: Option<u64>, other: Option<u64>) -> Option<u64>
    ensures { result ≡ longer one other }
{
    match (one, other) {
        (Some(end), Some(later)) if is_longer(end, later) => other,
        (Some(_), _) => one,
        (None, _) => other,
    }
}

/// The longer of two lengths or numbers, of those that are set.
fn longer(one: Option<u32>, other: Option<u32>) -> Option<u32>
    ensures { result ≡ longer one other }
{
    match (one, other) {
        (Some(end), Some(later)) if is_longer(u64::from(end), u64::from(later)) => other,
        (Some(_), _) => one,
        (None, _) => other,
    }
}

/// The more lenient of two, in each setting by itself.
fn more_lenient(one: &Override, other: &Override) -> Override
    ensures { result ≡ more_lenient one.now other.now }
{
    Override {
        opens: lesser(one.opens, other.opens),
        closes: longer_time(one.closes, other.closes),
        limit: longer(one.limit, other.limit),
        allowed: longer(one.allowed, other.allowed),
    }
}

/// The most lenient of what is set for the groups, in each setting by itself.
fn most_lenient(groups: &[Override]) -> Override
    ensures { result ≡ most_lenient groups.now }
{
    let mut found = none_set();
    for group in groups {
        found = more_lenient(&found, group);
    }
    found
}

/// The settings of a student at a quiz, each by itself: what is set for the user counts, else the most lenient of what is set for
/// the groups, else the quiz's own. The most lenient opening is the earliest; of other settings it is none at all (0) where it is
/// there, else the greatest.
pub fn effective(quiz: &Settings, user: Option<&Override>, groups: &[Override]) -> Settings
    ensures { result ≡ effective quiz.now (option_copied user.entry) groups.now }
{
    let groups = most_lenient(groups);
    let opens = user.and_then(|user| user.opens);
    let closes = user.and_then(|user| user.closes);
    let limit = user.and_then(|user| user.limit);
    let allowed = user.and_then(|user| user.allowed);
    Settings {
        opens: opens.unwrap_or(groups.opens.unwrap_or(quiz.opens)),
        closes: closes.unwrap_or(groups.closes.unwrap_or(quiz.closes)),
        limit: limit.unwrap_or(groups.limit.unwrap_or(quiz.limit)),
        allowed: allowed.unwrap_or(groups.allowed.unwrap_or(quiz.allowed)),
        handling: quiz.handling,
        grace: quiz.grace,
        review: quiz.review,
    }
}
