//! What the requests of a link ask, one after the other, and its end.

ghost use Rattle.std.specs.Prelude.{◌≡◌, Result, IfOk, IfSome, option_copied};
ghost use Rattle.httparse.specs.Grammar.{RequestHead};
ghost use Rattle.qz_terms.specs.declared.ask.Ask.{Ask};
ghost use Rattle.qz_wire.specs.Brief.{IsBriefToken};
ghost use Rattle.qz_wire.specs.Faults.{Fault, ReadsOr, at_word};
ghost use Rattle.qz_wire.specs.Numbered.{or_line as or_word};
ghost use Rattle.qz_wire.specs.Words.{number_of};
ghost use Rattle.qz_http.specs.Judgements.{IsHead};
ghost use Rattle.qz_json.specs.Bodies.{ask_of_body};
ghost use Rattle.qz_http.specs.Items.{token_in, caller_of, item_by, item_got, ask_of_entry, ask_of_page, ask_of_report, item_at, item_of, AsksAskable, IsAskedBy};
ghost use Rattle.qz_http.specs.Routes.{IsPath, Way};

use crate::heads::Head;
use crate::routes::{Path, path_in};
use qz_grading::Refusal;
use qz_json::ask_of_json;
use qz_terms::{Ask, Caller, Request};
use qz_text::{NoMemory, Text};
use qz_wire::{after, attempt_in, number};
use std::alloc::Global;

/// How a link ended.
#[derive(Clone, Copy, PartialEq, Eq)]
pub enum LinkEnd {
    /// The bytes ended between requests.
    End,
    /// They ended inside a request, of which so many had come.
    Cut { left: u32 },
    /// The last request asked to close, or had version 1.0.
    Closed,
    /// A head was refused with this status.
    Bad { status: u16 },
    /// A thousand requests were answered.
    Full,
    /// A read failed.
    ReadFault,
    /// A write failed.
    WriteFault,
    /// Memory was wanting.
    Memory,
}

/// What a link gives next.
#[derive(Drop)]
pub enum Item {
    /// A request, to be answered with its reply.
    Ask(Ask),
    /// A request that is refused before it is asked.
    Refused(Refusal),
    /// A request that no route takes, with its status.
    Bare(u16),
    /// Nothing more comes.
    Over(LinkEnd),
    /// More bytes have to be fed first.
    Need,
}

/// The token behind `Bearer `, of the form of a token.
fn token_in(authorization: Option<&[u8]>) -> Option<&str>
    ensures value { option_copied result ≡ token_in (option_copied authorization.entry) }
    ensures brief { IfSome (option_copied result) IsBriefToken }
{
    let authorization = authorization?;
    let token = after(authorization, b"Bearer ")?;
    qz_wire::token_in(token)
}

fn caller_of(alloc: Global, token: Option<&str>) -> Result<Caller, NoMemory>
    ensures { IfOk result (λ caller. caller ≡ caller_of (option_copied token.entry)) }
{
    match token {
        None => Ok(Caller::Worker),
        Some(token) => Ok(Caller::Token(Text::of(alloc, token)?)),
    }
}

fn item_by(token: Option<&str>, reading: Result<Ask, Refusal>) -> Result<Item, NoMemory>
    ensures value { (r : Result Ask Fault) → ReadsOr (λ x. x) reading r
        → IfOk result (λ item. item ≡ item_by (option_copied token.entry) r) }
    ensures asked { IfSome (option_copied token.entry) IsBriefToken
        → IfOk reading (IsAskedBy (option_copied token.entry)) → IfOk result AsksAskable }
{
    match reading {
        Err(Refusal::Malformed { place, rule }) => Ok(Item::Refused(Refusal::Malformed {
            place,
            rule,
        })),
        // Only want of memory is left.
        Err(_) => Err(NoMemory),
        Ok(ask) => match token {
            None => Ok(Item::Refused(Refusal::UnknownToken)),
            Some(_) => Ok(Item::Ask(ask)),
        },
    }
}

fn parameter(word: &[u8], place: u32) -> Result<u32, Refusal>
    ensures { ReadsOr (λ x. x) result (at_word (or_word place (number_of word.now))) }
{
    number(word, 0, u32::MAX).ok_or(Refusal::Malformed { place, rule: 0 })
}

fn ask_of_body(alloc: Global, token: Option<&str>, body: &[u8]) -> Result<Ask, Refusal>
    ensures value { ReadsOr (λ x. x) result (ask_of_body (caller_of (option_copied token.entry)) body.now) }
    ensures asked { IfOk result (IsAskedBy (option_copied token.entry)) }
{
    let caller = caller_of(alloc, token)?;
    ask_of_json(alloc, caller, body)
}

#[tactic(auto, unfolding(crate::specs::Items::ask_of_entry))]
fn ask_of_entry(
    alloc: Global,
    token: Option<&str>,
    entry: &[u8],
    version: &[u8],
) -> Result<Ask, Refusal>
    ensures value { ReadsOr (λ x. x) result
        (ask_of_entry (caller_of (option_copied token.entry)) entry.now version.now) }
    ensures asked { IfOk result (IsAskedBy (option_copied token.entry)) }
{
    let caller = caller_of(alloc, token)?;
    let entry = parameter(entry, 5)?;
    let version = parameter(version, 6)?;
    Ok(Ask {
        caller,
        key: None,
        request: Request::Bank { entry, version },
    })
}

/// The page of an attempt.
#[tactic(auto, unfolding(crate::specs::Items::ask_of_page))]
fn ask_of_page(alloc: Global, token: Option<&str>, attempt: &[u8]) -> Result<Ask, Refusal>
    ensures value { ReadsOr (λ x. x) result (ask_of_page (caller_of (option_copied token.entry)) attempt.now) }
    ensures asked { IfOk result (IsAskedBy (option_copied token.entry)) }
{
    let caller = caller_of(alloc, token)?;
    let attempt = attempt_in(attempt).ok_or(Refusal::Malformed { place: 5, rule: 0 })?;
    Ok(Ask {
        caller,
        key: None,
        request: Request::Page { attempt },
    })
}

/// The grades of a quiz.
#[tactic(auto, unfolding(crate::specs::Items::ask_of_report))]
fn ask_of_report(alloc: Global, token: Option<&str>, quiz: &[u8]) -> Result<Ask, Refusal>
    ensures value { ReadsOr (λ x. x) result (ask_of_report (caller_of (option_copied token.entry)) quiz.now) }
    ensures asked { IfOk result (IsAskedBy (option_copied token.entry)) }
{
    let caller = caller_of(alloc, token)?;
    let quiz = parameter(quiz, 5)?;
    Ok(Ask {
        caller,
        key: None,
        request: Request::Report { quiz },
    })
}

fn item_got(
    method: &[u8],
    token: Option<&str>,
    reading: Result<Ask, Refusal>,
) -> Result<Item, NoMemory>
    ensures value { (r : Result Ask Fault) → ReadsOr (λ x. x) reading r
        → IfOk result (λ item. item ≡ item_got method.now (option_copied token.entry) r) }
    ensures asked { IfSome (option_copied token.entry) IsBriefToken
        → IfOk reading (IsAskedBy (option_copied token.entry)) → IfOk result AsksAskable }
{
    if method == b"GET".as_slice() {
        item_by(token, reading)
    } else {
        Ok(Item::Bare(405))
    }
}

fn item_at(
    alloc: Global,
    path: Path<'_>,
    method: &[u8],
    token: Option<&str>,
    body: &[u8],
) -> Result<Item, NoMemory>
    ensures value { (way : Way) → IsPath way path.entry
        → IfOk result (λ item. item ≡ item_at way method.now (option_copied token.entry) body.now) }
    ensures asked { IfSome (option_copied token.entry) IsBriefToken → IfOk result AsksAskable }
{
    match path {
        Path::Nowhere => Ok(Item::Bare(404)),
        Path::Ask => if method == b"POST".as_slice() {
            item_by(token, ask_of_body(alloc, token, body))
        } else {
            Ok(Item::Bare(405))
        },
        Path::Entry { entry, version } => {
            item_got(method, token, ask_of_entry(alloc, token, entry, version))
        }
        Path::Page(attempt) => item_got(method, token, ask_of_page(alloc, token, attempt)),
        Path::TextReport(quiz) | Path::CsvReport(quiz) => {
            item_got(method, token, ask_of_report(alloc, token, quiz))
        }
    }
}

/// What a request asks by its head and its body: a bare 404 where its target leads nowhere, a bare 405 where its way takes another
/// method, the refusal of a body or a parameter that can't be read, then that of a token that is missing, and else an ask.
pub fn item_of(alloc: Global, head: Head<'_>, body: &[u8]) -> Result<Item, NoMemory>
    ensures value { (h : RequestHead) → IsHead h head.entry → IfOk result (λ item. item ≡ item_of h body.now) }
    ensures asked { IfOk result AsksAskable }
{
    item_at(
        alloc,
        path_in(head.target),
        head.method,
        token_in(head.authorization),
        body,
    )
}
