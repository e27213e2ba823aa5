//! The head of a request, judged by the bytes that have come so far.

ghost use Rattle.std.specs.Prelude.{◌≡◌, ◌<◌, ◌≤◌, All, IsUtf8, length, map, option_copied, MatchOption, Some, None, codes};
ghost use Rattle.httparse.specs.Grammar.{RequestHead};
ghost use Rattle.httparse.specs.Spans.{IsWithin, IsHeaderWithin, header_bytes, span_bytes};
ghost use Rattle.qz_http.specs.Heads.{fault_of, coding_fault, length_fault, size_fault, body_of, closes, authorization_of, values};
ghost use Rattle.qz_http.specs.Judgements.{first_bytes, IsRead, IsUnfinished, JudgesRead, Judges};

use crate::fields::{Found, found_by_name, has_field, size_in};
use crate::targets::is_past_target;
use httparse::Status;
use httparse::spans::{HeaderSpan, RequestSpans, parse_request};

/// A head is whole within so many bytes.
const MOST_BYTES: usize = 8192;

/// As many fields as these bytes can hold.
pub const ROOM: usize = 2731;

const MOST_FIELDS: usize = 64;

const MOST_BODY: u64 = 1_048_576;

/// What a head says, which isn't refused.
#[derive(Clone, Copy)]
pub struct Head<'b> {
    pub method: &'b [u8],
    /// In UTF-8.
    pub target: &'b [u8],
    /// The value of the first `Authorization`.
    pub authorization: Option<&'b [u8]>,
    /// Whether the link ends after this request.
    pub closes: bool,
    /// How many bytes the body has.
    pub body: usize,
    /// How many bytes the head has.
    pub len: usize,
}

/// What is judged of the bytes of a request so far.
#[derive(Clone, Copy)]
pub enum Judgement<'b> {
    /// More bytes are needed.
    More,
    Whole(Head<'b>),
    /// The status of the refusal.
    Bad(u16),
}

fn size_fault(size: Option<u64>) -> Option<u16>
    ensures { result ≡ size_fault size }
{
    match size {
        None => Some(400),
        Some(size) if size > MOST_BODY => Some(413),
        Some(_) => None,
    }
}

fn length_fault(bytes: &[u8], method: &[u8], headers: &[HeaderSpan]) -> Option<u16>
    requires { All (IsHeaderWithin (length bytes.now)) headers.now }
    ensures { result ≡ length_fault method.now
        (values (codes "content-length") (map (header_bytes bytes.now) headers.now)) }
{
    match found_by_name(bytes, headers, b"content-length") {
        Found::None => if method == b"POST".as_slice() {
            Some(411)
        } else {
            None
        },
        Found::One(value) => size_fault(size_in(value)),
        Found::Several(_) => Some(400),
    }
}

/// The status of a head with this method and these fields, where it is refused.
fn fault(bytes: &[u8], method: &[u8], headers: &[HeaderSpan]) -> Option<u16>
    requires { All (IsHeaderWithin (length bytes.now)) headers.now }
    ensures { result ≡ fault_of method.now (map (header_bytes bytes.now) headers.now) }
{
    if headers.len() > MOST_FIELDS {
        return Some(431);
    }
    match found_by_name(bytes, headers, b"transfer-encoding") {
        Found::None => length_fault(bytes, method, headers),
        Found::One(_) | Found::Several(_) => Some(501),
    }
}

fn body(bytes: &[u8], headers: &[HeaderSpan]) -> usize
    requires { All (IsHeaderWithin (length bytes.now)) headers.now }
    ensures { result ≡ body_of (map (header_bytes bytes.now) headers.now) }
{
    match found_by_name(bytes, headers, b"content-length") {
        Found::None => 0,
        Found::One(value) | Found::Several(value) => size_in(value).unwrap_or(0) as usize,
    }
}

fn closes(version: u8, bytes: &[u8], headers: &[HeaderSpan]) -> bool
    requires { All (IsHeaderWithin (length bytes.now)) headers.now }
    ensures { result ≡ closes version (map (header_bytes bytes.now) headers.now) }
{
    version == 0 || has_field(bytes, headers, b"connection", b"close")
}

fn authorization<'b>(bytes: &'b [u8], headers: &[HeaderSpan]) -> Option<&'b [u8]>
    requires { All (IsHeaderWithin (length bytes.now)) headers.now }
    ensures { option_copied result ≡ authorization_of (map (header_bytes bytes.now) headers.now) }
{
    match found_by_name(bytes, headers, b"authorization") {
        Found::None => None,
        Found::One(value) | Found::Several(value) => Some(value),
    }
}

/// The judgement of a whole head, which was read into these spans.
fn judge_read<'b>(bytes: &'b [u8], spans: RequestSpans, headers: &[HeaderSpan]) -> Judgement<'b>
    requires within { All (IsHeaderWithin (length bytes.now)) headers.now }
    requires method { IsWithin (length bytes.now) spans.method }
    requires path { IsWithin (length bytes.now) spans.path }
    ensures { (h : RequestHead) → IsRead bytes.now spans headers.now h → JudgesRead h result }
{
    let method = spans.method.of(bytes);
    match fault(bytes, method, headers) {
        Some(status) => Judgement::Bad(status),
        None => Judgement::Whole(Head {
            method,
            target: spans.path.of(bytes),
            authorization: authorization(bytes, headers),
            closes: closes(spans.version, bytes, headers),
            body: body(bytes, headers),
            len: spans.len,
        }),
    }
}

fn first_bytes(bytes: &[u8]) -> &[u8]
    ensures { result.now ≡ first_bytes bytes.now }
{
    if bytes.len() > MOST_BYTES {
        &bytes[..MOST_BYTES]
    } else {
        bytes
    }
}

/// The judgement of bytes that hold no whole head, where they can go on to one.
fn judge_unfinished<'b>(bytes: &'b [u8]) -> Judgement<'b>
    ensures { IsUnfinished bytes.now → Judges bytes.now result }
{
    if bytes.len() < MOST_BYTES {
        Judgement::More
    } else {
        Judgement::Bad(431)
    }
}

/// The judgement of the bytes of a request so far: whether they begin with a head, and whether it is refused. `room` is used anew by
/// each call, so that none takes memory.
pub fn judge<'b>(bytes: &'b [u8], room: &mut [HeaderSpan]) -> Judgement<'b>
    requires { length room.old ≡ ROOM }
    ensures { Judges bytes.now result }
{
    let first = first_bytes(bytes);
    match parse_request(first, room) {
        Ok(Status::Complete(spans)) => judge_read(first, spans, &room[..spans.headers]),
        Ok(Status::Partial) => judge_unfinished(bytes),
        Err(_) => if is_past_target(first) {
            Judgement::Bad(400)
        } else {
            judge_unfinished(bytes)
        },
    }
}
