//! The fields of a head, looked for by name.

ghost use Rattle.std.specs.Prelude.{◌≡◌, All, List, length, map, option_copied, ℕ};
ghost use Rattle.std.specs.List.{list_any};
ghost use Rattle.httparse.specs.Spans.{IsHeaderWithin, header_bytes};
ghost use Rattle.qz_http.specs.Heads.{is_same_word, value_if, values, size_of};
ghost use Rattle.qz_http.specs.Found.{Finds, passes, with_value};

use httparse::spans::HeaderSpan;

/// The fields with one name.
#[derive(Clone, Copy)]
pub enum Found<'b> {
    None,
    /// The value of the only one.
    One(&'b [u8]),
    /// The value of the first of several.
    Several(&'b [u8]),
}

fn is_same_word(a: &[u8], b: &[u8]) -> bool
    ensures { result ≡ is_same_word a.now b.now }
{
    a.eq_ignore_ascii_case(b)
}

fn value_if<'b>(bytes: &'b [u8], header: HeaderSpan, name: &[u8]) -> Option<&'b [u8]>
    requires { IsHeaderWithin (length bytes.now) header }
    ensures { option_copied result ≡ value_if name.now (header_bytes bytes.now header) }
{
    if is_same_word(header.name.of(bytes), name) {
        Some(header.value.of(bytes))
    } else {
        None
    }
}

fn with_one_more<'b>(found: Found<'b>, value: Option<&'b [u8]>) -> Found<'b>
    ensures { (before : List (List ℕ)) → Finds before found.entry
        → Finds (with_value before (option_copied value.entry)) result }
{
    let Some(value) = value else {
        return found;
    };
    match found {
        Found::None => Found::One(value),
        Found::One(first) => Found::Several(first),
        Found::Several(first) => Found::Several(first),
    }
}

/// The fields that have this name, in any ASCII case.
pub fn found_by_name<'b>(bytes: &'b [u8], headers: &[HeaderSpan], name: &[u8]) -> Found<'b>
    requires { All (IsHeaderWithin (length bytes.now)) headers.now }
    ensures { Finds (values name.now (map (header_bytes bytes.now) headers.now)) result }
{
    let mut found = Found::None;
    for header in headers {
        found = with_one_more(found, value_if(bytes, *header, name));
    }
    found
}

fn is_value(found: Option<&[u8]>, value: &[u8]) -> bool
    ensures { result ≡ passes (λ v. is_same_word v value.now) (option_copied found.entry) }
{
    match found {
        Some(found) => is_same_word(found, value),
        None => false,
    }
}

/// Whether a field has this name and this value, both in any ASCII case.
pub fn has_field(bytes: &[u8], headers: &[HeaderSpan], name: &[u8], value: &[u8]) -> bool
    requires { All (IsHeaderWithin (length bytes.now)) headers.now }
    ensures { result ≡ list_any (λ v. is_same_word v value.now)
        (values name.now (map (header_bytes bytes.now) headers.now)) }
{
    let mut has = false;
    for header in headers {
        has |= is_value(value_if(bytes, *header, name), value);
    }
    has
}

/// The number of 1 to 10 digits that a value is.
pub fn size_in(value: &[u8]) -> Option<u64>
    ensures { result ≡ size_of value.now }
{
    if value.is_empty() || value.len() > 10 {
        return None;
    }
    let mut size = 0u64;
    for digit in value {
        if !digit.is_ascii_digit() {
            return None;
        }
        size = 10 * size + u64::from(*digit - b'0');
    }
    Some(size)
}
