//! Responses, byte for byte.

ghost use Rattle.std.specs.Prelude.{◌≡◌, ◌++◌, IfOk, IsTrue, OnOk, codes, decimal, string_bytes};
ghost use Rattle.qz_http.specs.Responses.{phrase, type_text, connection_text, status_line, field_line, head_text, response, bare_response, refusal_status, reply_status, is_gift, gift_text, done_body, done_text, shown_body, shown_text, reply_response};
ghost use Rattle.qz_json.specs.Replies.{reply_text};
ghost use Rattle.qz_pages.specs.Pages.{is_page};
ghost use Rattle.qz_pages.specs.Reports.{is_report};

use gift_write::question_onto;
use http::StatusCode;
use qz_grading::Refusal;
use qz_json::json_of;
use qz_pages::{page, report_csv, report_text};
use qz_terms::{Done, Reply};
use qz_text::{Bytes, NoMemory, Text};
use std::alloc::Global;

/// What the body of a response is.
#[derive(Clone, Copy, PartialEq, Eq)]
pub enum Body {
    Empty,
    /// A text in UTF-8.
    Text,
    /// A page in UTF-8.
    Html,
    /// A table of comma-separated values in UTF-8.
    Csv,
    Json,
}

/// The path and method that a request came by.
#[derive(Clone, Copy, PartialEq, Eq)]
pub enum Route {
    /// `POST /api/ask`, whose body is the request.
    Ask,
    /// `GET /entry/{entry}/{version}`, the text of a question.
    Entry,
    /// `GET /attempt/{attempt}`, the page of an attempt.
    Page,
    /// `GET /quiz/{quiz}/grades.txt`.
    TextReport,
    /// `GET /quiz/{quiz}/grades.csv`.
    CsvReport,
}

fn phrase(status: u16) -> &'static str
    ensures { result.now ≡ phrase status }
{
    match StatusCode::from_u16(status) {
        Ok(code) => code.canonical_reason().unwrap_or(""),
        Err(_) => "",
    }
}

fn type_text(kind: Body) -> &'static str
    ensures { result.now ≡ type_text kind }
{
    match kind {
        Body::Empty => "text/plain",
        Body::Text => "text/plain; charset=utf-8",
        Body::Html => "text/html; charset=utf-8",
        Body::Csv => "text/csv; charset=utf-8",
        Body::Json => "application/json",
    }
}

fn connection_text(closes: bool) -> &'static str
    ensures { result.now ≡ connection_text closes }
{
    if closes { "close" } else { "keep-alive" }
}

#[tactic(auto, unfolding(crate::specs::Responses::status_line))]
fn status_line_onto(out: &mut String, status: u16) -> Result<(), NoMemory>
    ensures { OnOk result (string_bytes out.new ≡ string_bytes out.old ++ status_line status) }
{
    let phrase = phrase(status);
    write!(out, "HTTP/1.1 {status} {phrase}\r\n")?;
    Ok(())
}

#[tactic(auto, unfolding(crate::specs::Responses::field_line))]
fn field_onto(out: &mut String, name: &str, value: &str) -> Result<(), NoMemory>
    ensures { OnOk result (string_bytes out.new ≡ string_bytes out.old ++ field_line name.now value.now) }
{
    write!(out, "{name}: {value}\r\n")?;
    Ok(())
}

#[tactic(auto, unfolding(crate::specs::Responses::field_line))]
fn length_onto(out: &mut String, size: usize) -> Result<(), NoMemory>
    ensures { OnOk result (string_bytes out.new ≡ string_bytes out.old ++ field_line (codes "Content-Length") (decimal size)) }
{
    write!(out, "Content-Length: {size}\r\n")?;
    Ok(())
}

#[tactic(auto, unfolding(crate::specs::Responses::head_text))]
fn head_text(
    alloc: Global,
    status: u16,
    kind: Body,
    closes: bool,
    size: usize,
) -> Result<String, NoMemory>
    ensures { IfOk result (λ head. string_bytes head ≡ head_text status kind closes size) }
{
    let mut head = String::new(alloc);
    status_line_onto(&mut head, status)?;
    field_onto(&mut head, "Content-Type", type_text(kind))?;
    length_onto(&mut head, size)?;
    field_onto(&mut head, "Connection", connection_text(closes))?;
    head.push_str("\r\n")?;
    Ok(head)
}

/// A response with this body.
#[tactic(auto, unfolding(crate::specs::Responses::response))]
fn response(
    alloc: Global,
    status: u16,
    kind: Body,
    closes: bool,
    body: &[u8],
) -> Result<Bytes, NoMemory>
    ensures { IfOk result (λ bytes. bytes ≡ response status kind closes body.now) }
{
    let mut bytes = Bytes {
        items: head_text(alloc, status, kind, closes, body.len())?.into_bytes(),
    };
    bytes.items.extend_from_slice(body)?;
    Ok(bytes)
}

/// A response without a body.
pub fn bare_response(alloc: Global, status: u16, closes: bool) -> Result<Bytes, NoMemory>
    ensures { IfOk result (λ bytes. bytes ≡ bare_response status closes) }
{
    response(alloc, status, Body::Empty, closes, &[])
}

fn refusal_status(refusal: Refusal) -> u16
    ensures { result ≡ refusal_status refusal }
{
    match refusal {
        Refusal::Malformed { .. } => 400,
        Refusal::UnknownToken => 401,
        Refusal::Forbidden { .. } => 403,
        Refusal::Unknown { .. } => 404,
        Refusal::KeyReused { .. }
        | Refusal::NotOpen { .. }
        | Refusal::Late { .. }
        | Refusal::Closed { .. }
        | Refusal::NoAttemptsLeft { .. }
        | Refusal::Unfinished { .. }
        | Refusal::WrongAction { .. }
        | Refusal::SlotEnded { .. }
        | Refusal::NeedsTryAgain
        | Refusal::NotFinished => 409,
        Refusal::Misfit
        | Refusal::OutOfRange { .. }
        | Refusal::Incompatible { .. }
        | Refusal::TooMany { .. } => 422,
        Refusal::KeepFault => 503,
        Refusal::Memory => 507,
    }
}

fn reply_status(reply: &Reply) -> u16
    ensures { result ≡ reply_status reply.now }
{
    match reply {
        Reply::Ok { .. } => 200,
        Reply::Refused(refusal) => refusal_status(*refusal),
    }
}

// ---- what a route asks for

fn is_gift(done: &Done) -> bool
    ensures { result ≡ is_gift done.now }
{
    matches!(done, Done::Gift { .. })
}

fn is_page(done: &Done) -> bool
    ensures { result ≡ is_page done.now }
{
    matches!(done, Done::Page { .. })
}

fn is_report(done: &Done) -> bool
    ensures { result ≡ is_report done.now }
{
    matches!(done, Done::Report { .. })
}

/// The question as GIFT.
fn gift_text(alloc: Global, done: &Done) -> Result<Text, NoMemory>
    requires { IsTrue (is_gift done.now) }
    ensures { IfOk result (λ text. text ≡ gift_text done.now) }
{
    let Done::Gift { question } = done else {
        unreachable!()
    };
    let mut items = String::new(alloc);
    question_onto(&mut items, question)?;
    Ok(Text { items })
}

fn done_body(route: Route, done: &Done) -> Body
    ensures { result ≡ done_body route done.now }
{
    match route {
        Route::Entry if is_gift(done) => Body::Text,
        Route::Page if is_page(done) => Body::Html,
        Route::TextReport if is_report(done) => Body::Text,
        Route::CsvReport if is_report(done) => Body::Csv,
        Route::Ask | Route::Entry | Route::Page | Route::TextReport | Route::CsvReport => {
            Body::Json
        }
    }
}

fn shown_body(route: Route, reply: &Reply) -> Body
    ensures { result ≡ shown_body route reply.now }
{
    match reply {
        Reply::Ok { done, .. } => done_body(route, done),
        Reply::Refused(_) => Body::Json,
    }
}

/// An accepted reply as its route shows it.
fn done_text(alloc: Global, route: Route, done: &Done, reply: &Reply) -> Result<Text, NoMemory>
    ensures { IfOk result (λ text. text ≡ done_text route done.now (reply_text reply.now)) }
{
    match route {
        Route::Entry if is_gift(done) => gift_text(alloc, done),
        Route::Page if is_page(done) => page(alloc, done),
        Route::TextReport if is_report(done) => report_text(alloc, done),
        Route::CsvReport if is_report(done) => report_csv(alloc, done),
        Route::Ask | Route::Entry | Route::Page | Route::TextReport | Route::CsvReport => {
            json_of(alloc, reply)
        }
    }
}

fn shown_text(alloc: Global, route: Route, reply: &Reply) -> Result<Text, NoMemory>
    ensures { IfOk result (λ text. text ≡ shown_text route reply.now) }
{
    match reply {
        Reply::Ok { done, .. } => done_text(alloc, route, done, reply),
        Reply::Refused(_) => json_of(alloc, reply),
    }
}

/// The response to a request of this route, which the reply answers.
pub fn reply_response(
    alloc: Global,
    route: Route,
    closes: bool,
    reply: &Reply,
) -> Result<Bytes, NoMemory>
    ensures { IfOk result (λ bytes. bytes ≡ reply_response route closes reply.now) }
{
    let text = shown_text(alloc, route, reply)?;
    response(
        alloc,
        reply_status(reply),
        shown_body(route, reply),
        closes,
        text.as_bytes(),
    )
}
