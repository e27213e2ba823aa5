//! What one record tells.

ghost use Rattle.std.specs.Prelude.{◌≡◌, is_some};
ghost use Rattle.qz_terms.specs.History.{learned_by, started};

use qz_terms::{Event, Learned, Record};

/// Whether a record starts an attempt.
pub(crate) fn is_start(record: &Record) -> bool
    ensures { result ≡ is_some (started «record».now) }
{
    matches!(record.event, Event::Started { .. })
}

/// The versions that a record learned.
pub fn learned_by(record: &Record) -> &[Learned]
    ensures { result.now ≡ learned_by («record».now).event }
{
    match &record.event {
        Event::Started { learned, .. } | Event::Rebound { learned, .. } => learned.as_slice(),
        _ => &[],
    }
}
