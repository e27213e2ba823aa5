//! Bytes as text, or the line where they stop being text.

ghost use Rattle.std.specs.Prelude.{◌≡◌, true, false, length, IfOk, IfErr};
ghost use Rattle.std.specs.Str.{is_utf8};
ghost use Rattle.gift_lex.specs.Gathering.{split_lines};
ghost use Rattle.gift_read.specs.Gift.{line_of_bad_byte};

use simdutf8::compat::from_utf8;

/// Bytes as text. Where they aren't UTF-8, the line of the first byte behind the longest front that is.
pub(crate) fn as_text(bytes: &[u8]) -> Result<&str, usize>
    ensures text { IfOk result (λ text. text.now ≡ bytes.now) }
    ensures utf8 { IfOk result (λ text. is_utf8 bytes.now ≡ true) }
    ensures not_utf8 { IfErr result (λ line. is_utf8 bytes.now ≡ false) }
    ensures line { IfErr result (λ line. line ≡ line_of_bad_byte bytes.now) }
{
    match from_utf8(bytes) {
        Ok(text) => Ok(text),
        Err(fault) => {
            let (front, _) = bytes.split_at(fault.valid_up_to());
            Err(line_count(front))
        }
    }
}

/// How many lines the bytes of a text have: one more than there are breaks.
fn line_count(text: &[u8]) -> usize
    ensures { result ≡ length (split_lines text.now) }
{
    let mut breaks = 0;
    let mut after_return = false;
    let mut rest = text;
    while let [byte, after @ ..] = rest {
        let is_return = *byte == b'\r';
        if is_return || (*byte == b'\n' && !after_return) {
            breaks += 1;
        }
        after_return = is_return;
        rest = after;
    }
    breaks + 1
}
