//! Texts with a format.

ghost use Rattle.std.specs.Prelude.{◌≡◌, ◌++◌, OnOk, string_bytes};
ghost use Rattle.qz_grading.specs.Canonical.{same_format, begins_with, rich_text, rich_behind};

use crate::escaping::{Escape, text_onto};
use qz_grading::{Format, Rich};
use qz_text::NoMemory;

fn same_format(one: Format, other: Format) -> bool
    ensures { result ≡ same_format one other }
{
    one.sign().as_bytes() == other.sign().as_bytes()
}

/// Whether a text begins with this byte.
pub(crate) fn begins_with(first: u8, text: &[u8]) -> bool
    ensures { result ≡ begins_with first text.now }
{
    match text {
        [byte, ..] => *byte == first,
        [] => false,
    }
}

/// Adds a text, with a format mark where its format isn't this one or the text begins with a bracket.
pub(crate) fn rich_onto(out: &mut String, default: Format, rich: &Rich) -> Result<(), NoMemory>
    ensures { OnOk result (string_bytes out.new ≡ string_bytes out.old ++ rich_text default rich.now) }
{
    if !same_format(default, rich.format) || begins_with(b'[', rich.text.as_bytes()) {
        out.push_str(rich.format.sign())?;
    }
    text_onto(out, Escape::Signs, rich.text.as_str())
}

/// Adds this sign and a text, where the text isn't empty.
pub(crate) fn rich_behind_onto(
    out: &mut String,
    sign: &str,
    default: Format,
    rich: &Rich,
) -> Result<(), NoMemory>
    ensures { OnOk result (string_bytes out.new
        ≡ string_bytes out.old ++ rich_behind sign.now default rich.now) }
{
    if rich.text.as_bytes().is_empty() {
        return Ok(());
    }
    out.push_str(sign)?;
    rich_onto(out, default, rich)
}
