//! When an attempt is due, as a clock in UTC shows it.

ghost use Rattle.std.specs.Prelude.{◌≡◌, ◌≤◌, ◌++◌, pos, OnOk, string_bytes};
ghost use Rattle.jiff.specs.Words.{civil_nanos, iso_datetime_text, nanos_of_seconds};
ghost use Rattle.qz_pages.specs.Dates.{civil_text, due_text, last_civil};

use jiff::Timestamp;
use jiff::civil::DateTime;
use jiff::tz::Offset;
use qz_text::NoMemory;

/// The last moment that is shown as a date, the last second of 2100.
const LAST_CIVIL: u64 = 4_133_980_799;

/// What a clock in UTC shows so many seconds after 1970 began, up to the end of 2100.
pub fn civil(moment: u64) -> DateTime
    requires { moment ≤ last_civil }
    ensures utc { civil_nanos result ≡ nanos_of_seconds (pos moment) }
    ensures text { iso_datetime_text result ≡ civil_text moment }
{
    match Timestamp::from_second(moment as i64) {
        Ok(instant) => Offset::UTC.to_datetime(instant),
        Err(_) => unreachable!(),
    }
}

/// When an attempt is due, or a dash where it never is.
pub(crate) fn due_onto(out: &mut String, due: Option<u64>) -> Result<(), NoMemory>
    ensures { OnOk result (string_bytes out.new ≡ string_bytes out.old ++ due_text due) }
{
    let Some(moment) = due else {
        return Ok(out.push_str("-")?);
    };
    if moment > LAST_CIVIL {
        write!(out, "{moment}")?;
        return Ok(());
    }
    let shown = civil(moment);
    write!(out, "{shown}Z")?;
    Ok(())
}
