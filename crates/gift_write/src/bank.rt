//! A whole bank.

ghost use Rattle.std.specs.Prelude.{◌≡◌, ◌++◌, ◌≤◌, OnOk, OnErr, IfOk, string_bytes};
ghost use Rattle.std.specs.Io.KnownBytes.{Appends};
ghost use Rattle.qz_outside.specs.Causes.{HasRisen};
ghost use Rattle.qz_outside.specs.Sources.{AppendsFront};
ghost use Rattle.qz_grading.specs.Canonical.{category_line, canonical_question, canonical_items, canonical};
ghost use Rattle.gift_write.specs.declared.bank.WriteErr.TheVariants.{Fault, Memory};

use crate::categories::category_line_onto;
use crate::question::question_onto;
use qz_grading::{Bank, Item};
use qz_outside::{Failed, Sink, write_all};
use qz_text::{NoMemory, Text};
use std::alloc::{AllocError, Global};

/// Why a bank couldn't be written whole.
#[derive(Clone, Copy, Debug, PartialEq, Eq)]
pub enum WriteErr {
    /// The sink failed: its count of faults rose.
    Fault,
    /// Memory was wanting.
    Memory,
}

impl From<Failed> for WriteErr {
    ghost from_gives = { λ _ error. error ≡ Fault };

    fn from(_: Failed) -> Self {
        WriteErr::Fault
    }
}

impl From<NoMemory> for WriteErr {
    ghost from_gives = { λ _ error. error ≡ Memory };

    fn from(_: NoMemory) -> Self {
        WriteErr::Memory
    }
}

/// Adds an item: a category line where its category isn't this one, and the question.
fn item_onto(out: &mut String, before: &[Text], item: &Item) -> Result<(), NoMemory>
    ensures { OnOk result (string_bytes out.new ≡ string_bytes out.old
        ++ (category_line before.now item.now.category ++ canonical_question item.now.question)) }
{
    category_line_onto(out, before, item.category.as_slice())?;
    question_onto(out, &item.question)
}

/// Adds items, where a question before them stands in this category.
fn items_onto<'a>(
    out: &mut String,
    outermost: &'a [Text],
    items: &'a [Item],
) -> Result<(), NoMemory>
    ensures { OnOk result (string_bytes out.new
        ≡ string_bytes out.old ++ canonical_items outermost.now items.now) }
{
    let mut before = outermost;
    for item in items {
        item_onto(out, before, item)?;
        before = item.category.as_slice();
    }
    Ok(())
}

/// The canonical text of a bank.
pub fn spell(alloc: Global, bank: &Bank) -> Result<Text, NoMemory>
    ensures { IfOk result (λ text. text ≡ canonical bank.now) }
{
    let outermost = [Text::of(alloc, "Default")?];
    let mut items = String::new(alloc);
    items_onto(&mut items, &outermost, bank.items.as_slice())?;
    Ok(Text { items })
}

/// Writes the canonical text of a bank, question by question. After `Fault`, which comes only where the sink's count of
/// faults rose, and after `Memory` a front of the text was written.
pub fn write<O: Sink>(alloc: Global, bank: &Bank, sink: &mut O) -> Result<(), WriteErr>
    ensures written { OnOk result (Appends (O.holds sink.old) (O.holds sink.new) (canonical bank.now)) }
    ensures front { OnErr result (AppendsFront (O.holds sink.old) (O.holds sink.new) (canonical bank.now)) }
    ensures later { O.faults sink.old ≤ O.faults sink.new }
    ensures fault { result ≡ Err Fault → HasRisen (O.faults sink.old) (O.faults sink.new) }
{
    let outermost = [Text::of(alloc, "Default")?];
    write_items(alloc, sink, &outermost, bank.items.as_slice())
}

/// Writes items, where a question before them stands in this category.
fn write_items<'a, O: Sink>(
    alloc: Global,
    sink: &mut O,
    outermost: &'a [Text],
    items: &'a [Item],
) -> Result<(), WriteErr>
    ensures written { OnOk result (Appends (O.holds sink.old) (O.holds sink.new)
        (canonical_items outermost.now items.now)) }
    ensures front { OnErr result (AppendsFront (O.holds sink.old) (O.holds sink.new)
        (canonical_items outermost.now items.now)) }
    ensures later { O.faults sink.old ≤ O.faults sink.new }
    ensures fault { result ≡ Err Fault → HasRisen (O.faults sink.old) (O.faults sink.new) }
{
    let mut before = outermost;
    for item in items {
        write_item(alloc, sink, before, item)?;
        before = item.category.as_slice();
    }
    Ok(())
}

/// Writes one item.
fn write_item<O: Sink>(
    alloc: Global,
    sink: &mut O,
    before: &[Text],
    item: &Item,
) -> Result<(), WriteErr>
    ensures written { OnOk result (Appends (O.holds sink.old) (O.holds sink.new)
        (category_line before.now item.now.category ++ canonical_question item.now.question)) }
    ensures front { OnErr result (AppendsFront (O.holds sink.old) (O.holds sink.new)
        (category_line before.now item.now.category ++ canonical_question item.now.question)) }
    ensures later { O.faults sink.old ≤ O.faults sink.new }
    ensures fault { result ≡ Err Fault → HasRisen (O.faults sink.old) (O.faults sink.new) }
{
    let mut text = String::new(alloc);
    item_onto(&mut text, before, item)?;
    Ok(write_all(sink, text.as_bytes())?)
}
