//! The arguments of each command, and the words that the members of a body give for them.

ghost use Rattle.std.specs.Prelude.{◌≡◌, [], ◌∷◌, ◌++◌, map, IfOk, OnOk, decimal, option_map, string_bytes, unwrap_or};
ghost use Rattle.serde_json.specs.Find.{get};
ghost use Rattle.serde_json.specs.View.{view, members_view};
ghost use Rattle.qz_wire.specs.Escapes.{text_word};
ghost use Rattle.qz_wire.specs.Words.{words_after};
ghost use Rattle.qz_json.specs.Arguments.{arguments_of, word_for, words_for, is_argument, is_wanted, has_no_other};

use qz_text::NoMemory;
use qz_wire::{Verb, text_word_onto};
use serde_json::{Map, Value};
use std::alloc::Global;

/// How an argument is given.
#[derive(Clone, Copy, PartialEq, Eq)]
pub enum Form {
    /// As a whole number.
    Number,
    /// As the text that its word spells.
    Text,
    /// As a whole number, or as a dash where it stays unset.
    Setting,
}

/// The arguments of a command in their order, each with its name and its form.
fn arguments(verb: Verb) -> &'static [(&'static str, Form)]
    ensures { map (λ a. (a.0.now, a.1)) result.now ≡ arguments_of verb }
{
    match verb {
        Verb::User => &[
            ("name", Form::Text),
            ("role", Form::Text),
            ("token", Form::Text),
        ],
        Verb::Group => &[("name", Form::Text)],
        Verb::Member => &[("group", Form::Number), ("user", Form::Number)],
        Verb::Import => &[("gift", Form::Text)],
        Verb::Edit => &[("entry", Form::Number), ("gift", Form::Text)],
        Verb::Tune => &[
            ("entry", Form::Number),
            ("penalty", Form::Text),
            ("hints", Form::Text),
        ],
        Verb::Quiz => &[("name", Form::Text), ("behaviour", Form::Text)],
        Verb::Slot => &[
            ("quiz", Form::Number),
            ("entry", Form::Number),
            ("max", Form::Text),
        ],
        Verb::Ready => &[("quiz", Form::Number)],
        Verb::Remax => &[
            ("quiz", Form::Number),
            ("slot", Form::Number),
            ("max", Form::Text),
        ],
        Verb::Policy => &[
            ("quiz", Form::Number),
            ("method", Form::Text),
            ("grade", Form::Text),
        ],
        Verb::Times => &[
            ("quiz", Form::Number),
            ("opens", Form::Number),
            ("closes", Form::Number),
            ("limit", Form::Number),
            ("allowed", Form::Number),
            ("handling", Form::Text),
            ("grace", Form::Number),
            ("review", Form::Text),
        ],
        Verb::Override => &[
            ("quiz", Form::Number),
            ("whom", Form::Text),
            ("number", Form::Number),
            ("opens", Form::Setting),
            ("closes", Form::Setting),
            ("limit", Form::Setting),
            ("allowed", Form::Setting),
        ],
        Verb::Regrade | Verb::Start | Verb::Report => &[("quiz", Form::Number)],
        Verb::Save | Verb::Submit => &[
            ("attempt", Form::Text),
            ("slot", Form::Number),
            ("certainty", Form::Number),
            ("response", Form::Text),
        ],
        Verb::Again | Verb::View => &[("attempt", Form::Text), ("slot", Form::Number)],
        Verb::Finish | Verb::Settle | Verb::Total | Verb::Page => &[("attempt", Form::Text)],
        Verb::Mark => &[
            ("attempt", Form::Text),
            ("slot", Form::Number),
            ("mark", Form::Text),
        ],
        Verb::Work => &[("job", Form::Number), ("shard", Form::Number)],
        Verb::Jobs => &[],
        Verb::Live => &[("shard", Form::Number), ("attempt", Form::Text)],
        Verb::Grade => &[("quiz", Form::Number), ("user", Form::Number)],
        Verb::Bank => &[("entry", Form::Number), ("version", Form::Number)],
    }
}

// ---- the words of a line

fn number_onto(line: &mut String, number: u64) -> Result<(), NoMemory>
    ensures { OnOk result (words_after (string_bytes line.new)
        ≡ words_after (string_bytes line.old) ++ decimal number ∷ []) }
{
    write!(line, " {number}")?;
    Ok(())
}

fn text_onto(line: &mut String, text: &str) -> Result<(), NoMemory>
    ensures { OnOk result (words_after (string_bytes line.new)
        ≡ words_after (string_bytes line.old) ++ text_word text.now ∷ []) }
{
    line.push_str(" ")?;
    text_word_onto(line, text)?;
    Ok(())
}

/// The word without a byte, which is no argument.
fn nothing_onto(line: &mut String) -> Result<(), NoMemory>
    ensures { OnOk result (words_after (string_bytes line.new) ≡ words_after (string_bytes line.old) ++ [] ∷ []) }
{
    Ok(line.push_str(" ")?)
}

fn number_or_nothing_onto(line: &mut String, number: Option<u64>) -> Result<(), NoMemory>
    ensures { OnOk result (words_after (string_bytes line.new)
        ≡ words_after (string_bytes line.old) ++ unwrap_or (option_map decimal number) [] ∷ []) }
{
    match number {
        Some(number) => number_onto(line, number),
        None => nothing_onto(line),
    }
}

/// The word of an argument, which has this name and this form.
fn argument_onto(line: &mut String, body: &Value, name: &str, form: Form) -> Result<(), NoMemory>
    ensures { OnOk result (words_after (string_bytes line.new)
        ≡ words_after (string_bytes line.old) ++ word_for form (get name.now (view body.now)) ∷ []) }
{
    let member = body.get(name);
    let text = member.and_then(Value::as_str);
    let number = member.and_then(Value::as_u64);
    match form {
        Form::Number => number_or_nothing_onto(line, number),
        Form::Text => match text {
            Some(text) => text_onto(line, text),
            None => nothing_onto(line),
        },
        Form::Setting => if text.unwrap_or("") == "-" {
            text_onto(line, "-")
        } else {
            number_or_nothing_onto(line, number)
        },
    }
}

/// The words that the line of the same request has behind its command, each behind a space.
pub fn words_in(alloc: Global, verb: Verb, body: &Value) -> Result<String, NoMemory>
    ensures { IfOk result (λ line. words_after (string_bytes line) ≡ words_for (arguments_of verb) (view body.now)) }
{
    let mut line = String::new(alloc);
    for (name, form) in arguments(verb) {
        argument_onto(&mut line, body, *name, *form)?;
    }
    Ok(line)
}

// ---- no other member

fn is_argument(verb: Verb, name: &str) -> bool
    ensures { result ≡ is_argument verb name.now }
{
    arguments(verb).iter().any(|argument| name == argument.0)
}

fn is_wanted(verb: Verb, name: &str) -> bool
    ensures { result ≡ is_wanted verb name.now }
{
    name == "do" || name == "key" || is_argument(verb, name)
}

/// Whether each member is the command, the key or an argument.
pub fn has_no_other(verb: Verb, members: &Map<String, Value>) -> bool
    ensures { result ≡ has_no_other verb (members_view members.now.entries) }
{
    members.keys().all(|name| is_wanted(verb, name.as_str()))
}
