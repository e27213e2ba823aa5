//! Keys in a list of records.

ghost use Rattle.std.specs.Prelude.{◌≡◌, position};
ghost use Rattle.qz_terms.specs.Cause.{has_key};

use crate::Record;
use qz_text::Text;

/// Whether a record has this caller and key.
fn has_key(caller: u32, key: &Text, record: &Record) -> bool
    ensures { result ≡ has_key caller key.now «record».now }
{
    record.caller == caller
        && match &record.key {
            Some(other) => other.as_bytes() == key.as_bytes(),
            None => false,
        }
}

/// The place in a list, from 0, of the first record with this caller and key.
pub fn place_of(records: &[Record], caller: u32, key: &Text) -> Option<usize>
    ensures { result ≡ position (has_key caller key.now) records.now }
{
    records
        .iter()
        .position(|record| has_key(caller, key, record))
}
