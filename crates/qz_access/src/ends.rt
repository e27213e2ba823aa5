//! When the time of an attempt is over.

ghost use Rattle.std.specs.Prelude.{◌≡◌, true};
ghost use Rattle.qz_terms.specs.Access.{if_set, lesser, due, grace_of, expired};
ghost use Rattle.qz_terms.specs.Kept.{is_moment};

use qz_terms::{Handling, Settings};

/// A moment, unless the setting that it comes from is 0.
fn if_set(setting: u64, moment: u64) -> Option<u64>
    ensures { result ≡ if_set setting moment }
{
    if setting == 0 { None } else { Some(moment) }
}

/// The lesser of two moments, of those that are there.
pub(crate) fn lesser(one: Option<u64>, other: Option<u64>) -> Option<u64>
    ensures { result ≡ lesser one other }
{
    match (one, other) {
        (Some(one), Some(other)) => Some(one.min(other)),
        (Some(one), None) => Some(one),
        (None, other) => other,
    }
}

/// The moment at which an attempt that started at this moment is due, if any: the lesser of the end of the quiz and the end of
/// the time. Moments are in seconds since 1970.
pub fn due(settings: &Settings, start: u64) -> Option<u64>
    requires { is_moment start ≡ true }
    ensures { result ≡ due settings.now start }
{
    let closes = if_set(settings.closes, settings.closes);
    let limit = u64::from(settings.limit);
    lesser(closes, if_set(limit, start + limit))
}

/// How much longer an attempt may be finished, in seconds.
fn grace(settings: &Settings) -> u64
    ensures { result ≡ grace_of settings.now }
{
    match settings.handling {
        Handling::GracePeriod => u64::from(settings.grace),
        Handling::AutoSubmit | Handling::AutoAbandon => 0,
    }
}

/// Whether an attempt that started at this moment is expired at that one: the moment at which it is due is past, and under a
/// grace period the grace after it too.
pub fn expired(settings: &Settings, start: u64, moment: u64) -> bool
    requires { is_moment start ≡ true }
    ensures { result ≡ expired settings.now start moment }
{
    match due(settings, start) {
        Some(end) => end < moment.saturating_sub(grace(settings)),
        None => false,
    }
}
