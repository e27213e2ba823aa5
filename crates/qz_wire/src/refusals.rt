//! The words of refusals, one by one and on a line.

ghost use Rattle.std.specs.Prelude.{◌≡◌, ◌++◌, OnOk, string_bytes};
ghost use Rattle.qz_wire.specs.Refusals.{thing_number, shape_list, refusal_number, refusal_list, refused_words};

use crate::listed::{attempt_onto, behind_onto, number_onto, word_onto};
use qz_grading::{Refusal, Shape, Spelled, Thing};
use qz_text::{Listed, NoMemory, Text};

/// A shape: the word of its kind, and its two numbers.
pub fn shape_onto(words: &mut Listed<Text>, shape: Shape) -> Result<(), NoMemory>
    ensures { OnOk result (words.new ≡ words.old ++ shape_list shape) }
{
    word_onto(words, shape.kind_word())?;
    number_onto(words, u64::from(shape.first))?;
    number_onto(words, u64::from(shape.second))
}

/// The number by which a refusal names a sort of thing.
fn thing_number(what: Thing) -> u8
    ensures { result ≡ thing_number what }
{
    match what {
        Thing::User => 1,
        Thing::Group => 2,
        Thing::Entry => 3,
        Thing::Version => 4,
        Thing::Quiz => 5,
        Thing::Slot => 6,
        Thing::Attempt => 7,
        Thing::Job => 8,
        Thing::Shard => 9,
    }
}

/// The number of a refusal.
pub fn refusal_number(refusal: Refusal) -> u8
    ensures { result ≡ refusal_number refusal }
{
    match refusal {
        Refusal::Malformed { .. } => 1,
        Refusal::UnknownToken => 2,
        Refusal::Forbidden { .. } => 3,
        Refusal::Unknown { .. } => 4,
        Refusal::KeyReused { .. } => 5,
        Refusal::NotOpen { .. } => 6,
        Refusal::Late { .. } => 7,
        Refusal::Closed { .. } => 8,
        Refusal::NoAttemptsLeft { .. } => 9,
        Refusal::Unfinished { .. } => 10,
        Refusal::WrongAction { .. } => 11,
        Refusal::SlotEnded { .. } => 12,
        Refusal::NeedsTryAgain => 13,
        Refusal::Misfit => 14,
        Refusal::OutOfRange { .. } => 15,
        Refusal::NotFinished => 16,
        Refusal::Incompatible { .. } => 17,
        Refusal::TooMany { .. } => 18,
        Refusal::KeepFault => 19,
        Refusal::Memory => 20,
    }
}

/// The words behind the number of a refusal.
pub fn refusal_onto(words: &mut Listed<Text>, refusal: Refusal) -> Result<(), NoMemory>
    ensures { OnOk result (words.new ≡ words.old ++ refusal_list refusal) }
{
    match refusal {
        Refusal::Malformed { place, rule } => {
            number_onto(words, u64::from(place))?;
            number_onto(words, u64::from(rule))
        }
        Refusal::UnknownToken
        | Refusal::NeedsTryAgain
        | Refusal::Misfit
        | Refusal::NotFinished
        | Refusal::KeepFault
        | Refusal::Memory => Ok(()),
        Refusal::Forbidden { rule } => number_onto(words, u64::from(rule)),
        Refusal::Unknown { what } => number_onto(words, u64::from(thing_number(what))),
        Refusal::KeyReused { place } => number_onto(words, place),
        Refusal::NotOpen { opens } => number_onto(words, opens),
        Refusal::Late { due } => number_onto(words, due),
        Refusal::Closed { place } => number_onto(words, place),
        Refusal::NoAttemptsLeft { allowed } => number_onto(words, u64::from(allowed)),
        Refusal::Unfinished { attempt } => attempt_onto(words, attempt),
        Refusal::WrongAction { behaviour } => word_onto(words, behaviour.word()),
        Refusal::SlotEnded { state } => word_onto(words, state.word()),
        Refusal::OutOfRange { max } => {
            let text = max.text(*words.items.allocator())?;
            Ok(words.items.push(text)?)
        }
        Refusal::Incompatible { bound, newer } => {
            shape_onto(words, bound)?;
            shape_onto(words, newer)
        }
        Refusal::TooMany { limit } => number_onto(words, u64::from(limit)),
    }
}

fn numbered_onto(out: &mut String, refusal: &Refusal) -> Result<(), NoMemory>
    ensures { OnOk result (string_bytes out.new ≡ string_bytes out.old ++ refused_words refusal.now) }
{
    let number = refusal_number(*refusal);
    let mut words = Listed::empty(*out.allocator());
    refusal_onto(&mut words, *refusal)?;
    write!(out, "{number}")?;
    behind_onto(out, words.as_slice())?;
    Ok(())
}

/// The number of a refusal and its words.
pub fn refused_onto(out: &mut String, refusal: Refusal) -> Result<(), NoMemory>
    ensures { OnOk result (string_bytes out.new ≡ string_bytes out.old ++ refused_words refusal) }
{
    numbered_onto(out, &refusal)
}
