//! What the body of a request asks.

ghost use Rattle.std.specs.Prelude.{◌≡◌, IfOk, IfSome, codes};
ghost use Rattle.serde_json.specs.Find.{get};
ghost use Rattle.serde_json.specs.View.{view};
ghost use Rattle.qz_wire.specs.Brief.{IsBriefToken};
ghost use Rattle.qz_wire.specs.Faults.{ReadsOr, at_word};
ghost use Rattle.qz_wire.specs.Numbered.{or_line as or_word};
ghost use Rattle.qz_json.specs.Bodies.{data_of, key_in, verb_in, ask_of_data, ask_of_body, CanBeAsked};

use crate::arguments::{has_no_other, words_in};
use qz_grading::Refusal;
use qz_terms::{Ask, Caller};
use qz_text::Text;
use qz_wire::{Verb, request, takes_key, token_in};
use serde_json::Value;
use std::alloc::Global;

fn malformed(place: u32) -> Refusal
    ensures { result ≡ Refusal.Malformed place 0 }
{
    Refusal::Malformed { place, rule: 0 }
}

fn data_in(alloc: Global, bytes: &[u8]) -> Result<Value, Refusal>
    ensures { ReadsOr (λ x. view x) result (at_word (or_word 0 (data_of bytes.now))) }
{
    match Value::from_slice(alloc, bytes) {
        Ok(body) => Ok(body),
        Err(error) => if error.is_memory() {
            Err(Refusal::Memory)
        } else {
            Err(malformed(0))
        },
    }
}

fn key_in(alloc: Global, body: &Value) -> Result<Option<Text>, Refusal>
    ensures value { ReadsOr (λ x. x) result (at_word (or_word 3 (key_in (get (codes "key") (view body.now))))) }
    ensures brief { IfOk result (λ key. IfSome key IsBriefToken) }
{
    let Some(member) = body.get("key") else {
        return Ok(None);
    };
    match member.as_str().and_then(|word| token_in(word.as_bytes())) {
        Some(key) => Ok(Some(Text::of(alloc, key)?)),
        None => Err(malformed(3)),
    }
}

fn verb_in(body: &Value) -> Result<Verb, Refusal>
    ensures { ReadsOr (λ x. x) result (at_word (or_word 4 (verb_in (get (codes "do") (view body.now))))) }
{
    let member = body.get("do").and_then(Value::as_str);
    match member.and_then(|word| qz_wire::verb_in(word.as_bytes())) {
        Some(verb) => Ok(verb),
        None => Err(malformed(4)),
    }
}

#[tactic(auto, unfolding(crate::specs::Bodies::ask_of_data))]
fn ask_in(alloc: Global, caller: Caller, body: &Value) -> Result<Ask, Refusal>
    ensures value { ReadsOr (λ x. x) result (ask_of_data caller (view body.now)) }
    ensures caller { IfOk result (λ ask. ask.caller ≡ caller) }
    ensures asked { IfOk result CanBeAsked }
{
    let Some(members) = body.as_object() else {
        return Err(malformed(0));
    };
    let key = key_in(alloc, body)?;
    let verb = verb_in(body)?;
    if !takes_key(verb, &key) {
        return Err(malformed(3));
    }
    let words = words_in(alloc, verb, body)?;
    let request = request(alloc, verb, words.as_bytes())?;
    if !has_no_other(verb, members) {
        return Err(malformed(0));
    }
    Ok(Ask {
        caller,
        key,
        request,
    })
}

/// The request of a body: a JSON object with the command as `do`, the key, where there is one, as `key`, and one member for each
/// argument, by its name and in the form of its word. A plain number is a whole number, and any other argument the text that its
/// word spells. No other member stands. Of a member that stands twice the last counts, as `serde_json` reads it.
///
/// `Malformed` is the first fault in the order of the words: the number that the word has in a line (3 the key, 4 the command, from
/// 5 on the arguments), or 0 where the body isn't such an object otherwise, with rule 0; or of a GIFT text its line and rule, as in
/// `ask_of_line`. Only want of memory may stand in the place of an answer, as `Memory`; no other refusal comes.
#[tactic(auto, unfolding(crate::specs::Bodies::ask_of_body))]
pub fn ask_of_json(alloc: Global, token: Caller, body: &[u8]) -> Result<Ask, Refusal>
    ensures value { ReadsOr (λ x. x) result (ask_of_body token body.now) }
    ensures caller { IfOk result (λ ask. ask.caller ≡ token) }
    ensures asked { IfOk result CanBeAsked }
{
    let body = data_in(alloc, body)?;
    ask_in(alloc, token, &body)
}
