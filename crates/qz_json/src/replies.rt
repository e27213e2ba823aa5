//! Replies as JSON.

ghost use Rattle.std.specs.Prelude.{◌≡◌, IfOk};
ghost use Rattle.serde_json.specs.View.{view};
ghost use Rattle.qz_json.specs.Replies.{texts, accepted_data, refused_data, reply_data, reply_text};

use qz_replies::done_onto;
use qz_terms::Reply;
use qz_text::{Listed, NoMemory, Text};
use qz_wire::{refusal_number, refusal_onto};
use serde_json::{Value, json};
use std::alloc::{AllocError, Global};

/// The list of these texts.
fn texts(alloc: Global, words: Listed<Text>) -> Result<Value, NoMemory>
    ensures { IfOk result (λ value. view value ≡ texts words) }
{
    let mut items = Vec::with_capacity(alloc, words.items.len())?;
    for word in words.items {
        items.push(Value::String(word.items))?;
    }
    Ok(Value::Array(items))
}

/// The object of an accepted reply.
fn accepted(alloc: Global, place: u64, words: Value) -> Result<Value, AllocError>
    ensures { IfOk result (λ value. view value ≡ accepted_data place (view words)) }
{
    json!(in alloc; {"ok": true, "place": place, "words": words})
}

/// The object of a refusal.
fn refused(alloc: Global, number: u8, words: Value) -> Result<Value, AllocError>
    ensures { IfOk result (λ value. view value ≡ refused_data number (view words)) }
{
    json!(in alloc; {"ok": false, "refusal": number, "words": words})
}

fn value_of(alloc: Global, reply: &Reply) -> Result<Value, NoMemory>
    ensures { IfOk result (λ value. view value ≡ reply_data reply.now) }
{
    let mut words = Listed::empty(alloc);
    match reply {
        Reply::Ok { place, done } => {
            done_onto(&mut words, done)?;
            Ok(accepted(alloc, *place, texts(alloc, words)?)?)
        }
        Reply::Refused(refusal) => {
            refusal_onto(&mut words, *refusal)?;
            let number = refusal_number(*refusal);
            Ok(refused(alloc, number, texts(alloc, words)?)?)
        }
    }
}

/// A reply as one JSON object without white space: `{"ok":true,"place":P,"words":[..]}`, or
/// `{"ok":false,"refusal":N,"words":[..]}` for a refusal. The words are those of the reply's line, each as the text that it
/// spells, behind the place or the number. Only want of memory is an error.
pub fn json_of(alloc: Global, reply: &Reply) -> Result<Text, NoMemory>
    ensures { IfOk result (λ text. text ≡ reply_text reply.now) }
{
    let value = value_of(alloc, reply)?;
    Ok(Text {
        items: value.to_string(alloc)?,
    })
}
