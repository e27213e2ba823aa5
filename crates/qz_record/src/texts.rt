//! Texts: their length and their UTF-8.

ghost use Rattle.std.specs.Prelude.{◌≡◌, ◌++◌, true, false, OnOk, MatchResult};
ghost use Rattle.std.specs.Str.{is_utf8};
ghost use Rattle.qz_terms.specs.Spelling.{text_bytes};
ghost use Rattle.qz_record.specs.declared.fault.RecordFault.TheVariants.{NotOne};
ghost use Rattle.qz_record.specs.Fields.{Gives, IsFit, text_field};

use crate::RecordFault;
use crate::part::{Part, write_len};
use qz_text::{NoMemory, Pattern, Text, Typed};
use std::alloc::Global;

fn as_text(bytes: &[u8]) -> Result<&str, RecordFault>
    ensures { MatchResult result (λ text. (text.now ≡ bytes.now) × (is_utf8 bytes.now ≡ true))
        (λ e. (e ≡ NotOne) × (is_utf8 bytes.now ≡ false)) }
{
    match std::str::from_utf8(bytes) {
        Ok(text) => Ok(text),
        Err(_) => Err(RecordFault::NotOne),
    }
}

/// The text at the front of `rest`, which then stands behind it.
#[tactic(auto, unfolding(crate::specs::Fields::text_field))]
fn text_from<'a>(alloc: Global, rest: &mut &'a [u8]) -> Result<&'a str, RecordFault>
    ensures { MatchResult result (λ text. text_field.read rest.old.now ≡ Some (text.now, rest.new.now))
        (λ e. e ≡ NotOne → text_field.read rest.old.now ≡ None) }
{
    let len = u32::read_from(alloc, rest)?;
    let (front, behind) = rest
        .split_at_checked(len as usize)
        .ok_or(RecordFault::NotOne)?;
    *rest = behind;
    as_text(front)
}

fn write_text(text: &str, out: &mut Vec<u8>) -> Result<(), NoMemory>
    ensures appends { OnOk result (out.new.items ≡ out.old.items ++ text_bytes text.now) }
    ensures fits { OnOk result (IsFit (text_bytes text.now) (text_field.fits text.now)) }
{
    write_len(text.len(), out)?;
    Ok(out.extend_from_slice(text.as_bytes())?)
}

impl Part for Text {
    ghost field = { text_field };

    ghost bytes = { text_bytes };

    fn read_from(alloc: Global, rest: &mut &[u8]) -> Result<Text, RecordFault> {
        let text = text_from(alloc, rest)?;
        Ok(Text::of(alloc, text)?)
    }

    fn write_to(&self, out: &mut Vec<u8>) -> Result<(), NoMemory> {
        write_text(self.as_str(), out)
    }
}

impl Part for Typed {
    ghost field = { text_field };

    ghost bytes = { text_bytes };

    fn read_from(alloc: Global, rest: &mut &[u8]) -> Result<Typed, RecordFault> {
        let text = text_from(alloc, rest)?;
        Ok(Typed::of(alloc, text)?)
    }

    fn write_to(&self, out: &mut Vec<u8>) -> Result<(), NoMemory> {
        write_text(self.text().as_str(), out)
    }
}

impl Part for Pattern {
    ghost field = { text_field };

    ghost bytes = { text_bytes };

    fn read_from(alloc: Global, rest: &mut &[u8]) -> Result<Pattern, RecordFault> {
        let text = text_from(alloc, rest)?;
        Ok(Pattern::of(alloc, text)?)
    }

    fn write_to(&self, out: &mut Vec<u8>) -> Result<(), NoMemory> {
        write_text(self.text().as_str(), out)
    }
}
