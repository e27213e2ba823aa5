//! The lines that a script says of replies.

ghost use Rattle.std.specs.Prelude.{◌≡◌, ◌++◌, IfOk, OnOk, string_bytes};
ghost use Rattle.qz_replies.specs.Replies.{done_list, reply_words, reply_line};
ghost use Rattle.qz_wire.specs.Spaced.{behind};

use crate::said::done_onto;
use qz_terms::{Done, Reply};
use qz_text::{Listed, NoMemory, Text};
use qz_wire::{behind_onto, refused_onto};
use std::alloc::Global;

/// The words behind the place, with a space before each.
fn done_words_onto(out: &mut String, done: &Done) -> Result<(), NoMemory>
    ensures { OnOk result (string_bytes out.new ≡ string_bytes out.old ++ behind (done_list done.now)) }
{
    let mut words = Listed::empty(*out.allocator());
    done_onto(&mut words, done)?;
    behind_onto(out, words.as_slice())
}

fn words_onto(out: &mut String, reply: &Reply) -> Result<(), NoMemory>
    ensures { OnOk result (string_bytes out.new ≡ string_bytes out.old ++ reply_words reply.now) }
{
    match reply {
        Reply::Ok { place, done } => {
            let place = *place;
            write!(out, "ok {place}")?;
            done_words_onto(out, done)
        }
        Reply::Refused(refusal) => {
            out.push_str("refused ")?;
            refused_onto(out, *refusal)
        }
    }
}

/// The line of a reply, with its line feed. Only want of memory is an error.
pub fn line_of(alloc: Global, reply: &Reply) -> Result<Text, NoMemory>
    ensures { IfOk result (λ line. line ≡ reply_line reply.now) }
{
    let mut items = String::new(alloc);
    words_onto(&mut items, reply)?;
    items.push('\n')?;
    Ok(Text { items })
}
