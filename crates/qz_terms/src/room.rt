//! Room in a list of records.

ghost use Rattle.std.specs.Prelude.{◌≡◌, ◌+◌, ◌-◌, ◌<◌, ◌^◌, length, OnOk, vec_len, vec_capacity};

use crate::Record;
use qz_text::NoMemory;

/// So many records a list holds, since what they make is numbered in 32 bits.
const MOST_RECORDS: usize = 4_294_967_293;

/// Makes room for one more record. A list that has its greatest number of records grows no more, and that is a want of memory.
pub fn make_room(records: &mut Vec<Record>) -> Result<(), NoMemory>
    ensures few { OnOk result (length records.old.items + 1 < 2 ^ 32 - 1) }
    ensures room { OnOk result (vec_len records.new < vec_capacity records.new) }
    ensures unchanged { records.new.items ≡ records.old.items }
{
    if records.len() >= MOST_RECORDS {
        return Err(NoMemory);
    }
    Ok(records.reserve(1)?)
}
