//! Texts for pages.

ghost use Rattle.std.specs.Prelude.{◌≡◌, ◌++◌, IfOk, OnOk, true, not, string_bytes, encode_utf8};
ghost use Rattle.std.specs.List.{list_all};
ghost use Rattle.qz_text.specs.Html.{html_of, is_own_mark, text_of_html};

use crate::{NoMemory, Text};
use std::alloc::Global;

/// The text as it stands in HTML: `&`, `<`, `>`, `"` and `'` become character references, so that none of them is left as it
/// was, and a reader of HTML is shown the text.
pub fn escape(alloc: Global, text: &Text) -> Result<Text, NoMemory>
    ensures html { IfOk result (λ html. html ≡ html_of text.now) }
    ensures unmarked { IfOk result (λ html. list_all (λ c. not (is_own_mark c)) html ≡ true) }
    ensures back { IfOk result (λ html. text_of_html html ≡ text.now) }
{
    Ok(Text {
        items: html_of(alloc, text.as_str())?,
    })
}

fn html_of(alloc: Global, text: &str) -> Result<String, NoMemory>
    ensures { IfOk result (λ html. string_bytes html ≡ html_of text.now) }
{
    let mut html = String::with_capacity(alloc, text.len())?;
    for c in text.chars() {
        char_onto(&mut html, c)?;
    }
    Ok(html)
}

/// Adds one character.
fn char_onto(out: &mut String, c: char) -> Result<(), NoMemory>
    ensures { OnOk result (string_bytes out.new ≡ string_bytes out.old ++ html_of (encode_utf8 c)) }
{
    if c == '&' {
        return Ok(out.push_str("&amp;")?);
    }
    if c == '<' {
        return Ok(out.push_str("&lt;")?);
    }
    if c == '>' {
        return Ok(out.push_str("&gt;")?);
    }
    if c == '"' {
        return Ok(out.push_str("&quot;")?);
    }
    if c == '\'' {
        return Ok(out.push_str("&#39;")?);
    }
    Ok(out.push(c)?)
}
