//! The reading of a text.

ghost use Rattle.std.specs.Prelude.{◌≡◌, true, false, [], ◌∷◌, All, map, codes, IfOk, OnOk};
ghost use Rattle.gift_lex.specs.Blocks.{blocks_of};
ghost use Rattle.qz_grading.specs.declared.question.Bank.{Bank};
ghost use Rattle.qz_grading.specs.declared.question.Item.{Item};
ghost use Rattle.qz_grading.specs.Questions.{IsQuestion};
ghost use Rattle.gift_read.specs.declared.fault.GiftFault.TheVariants.{Malformed};
ghost use Rattle.gift_read.specs.Category.{is_category};
ghost use Rattle.gift_read.specs.Faults.{line_of};
ghost use Rattle.gift_read.specs.Gift.{Tells, Answers, Fault, told, taken, items_of, reading};

use crate::category::{is_bad_path, is_category, path};
use crate::fault::GiftFault;
use crate::faults::{early_fault, late_fault, line_of};
use crate::parts::PartedBlock;
use crate::question::question;
use crate::utf8::as_text;
use gift_lex::{Block, Blocks};
use qz_grading::{Bank, Item, Question};
use qz_text::{Listed, NoMemory, Text, TryCopy};
use std::alloc::Global;

/// Reads the questions of a GIFT text, given by its bytes, after the page "GIFT format" of Moodle's documentation; what it
/// leaves open is settled in this crate's definitions.
///
/// `Malformed` is the first fault: the line of the first block at fault (or of the first byte that isn't UTF-8, which comes
/// before all blocks), and the least rule that it breaks. Only want of memory may stand in its place, or in that of a bank; a
/// text with more lines than a `u32` counts is taken so. Nothing is left behind by either.
///
/// Each question of a bank keeps what every question keeps: the limits of its texts and pieces, and the ranges of its numbers.
pub fn read(alloc: Global, text: &[u8]) -> Result<Bank, GiftFault>
    ensures reading { Answers result (reading text.now) }
    ensures questions { IfOk result (λ bank. All IsQuestion (map (λ (i : Item). i.question) bank.items)) }
{
    match as_text(text) {
        Ok(text) => Ok(Bank {
            items: items_of(alloc, text)?,
        }),
        Err(line) => Err(not_utf8(line)),
    }
}

/// The fault of bytes that aren't UTF-8 from this line on.
fn not_utf8(line: usize) -> GiftFault
    ensures { Tells {A = Bank} result (Err (record { line = line; rule = 1 })) }
{
    match u32::try_from(line) {
        Ok(line) => GiftFault::Malformed { line, rule: 1 },
        Err(_) => GiftFault::Memory,
    }
}

/// The items of a text, in order. Each has the names of the last category line before it.
fn items_of(alloc: Global, text: &str) -> Result<Listed<Item>, GiftFault>
    ensures { Answers result (items_of (codes "Default" ∷ []) (blocks_of text.now)) }
{
    let mut gathered = Gathered::new(alloc)?;
    let mut blocks = Blocks::of(text);
    while let Some(block) = blocks.next(alloc)? {
        let entry = told(alloc, &block)?;
        gathered.take(alloc, entry)?;
    }
    Ok(gathered.items)
}

/// The items read so far, and the category of the questions that follow.
#[derive(Drop)]
struct Gathered {
    items: Listed<Item>,
    names: Listed<Text>,
}

impl Gathered {
    /// Before the first block.
    fn new(alloc: Global) -> Result<Gathered, NoMemory>
        ensures { IfOk result (λ made. made ≡ record { items = []; names = codes "Default" ∷ [] }) }
    {
        let mut names = Listed::empty(alloc);
        names.items.push(Text::of(alloc, "Default")?)?;
        Ok(Gathered {
            items: Listed::empty(alloc),
            names,
        })
    }

    /// Takes what the next block is read as.
    fn take(&mut self, alloc: Global, entry: Entry) -> Result<(), NoMemory>
        ensures { OnOk result (self.new ≡ taken self.old entry) }
    {
        match entry {
            Entry::Category(path) => self.names = path,
            Entry::Asked(question) => {
                let category = self.names.try_copy(alloc)?;
                self.items.items.push(Item { category, question })?;
            }
        }
        Ok(())
    }
}

/// What a block is read as.
#[derive(Drop)]
pub enum Entry {
    /// The names on the path of a category, which holds for the questions that follow.
    Category(Listed<Text>),
    Asked(Question),
}

/// What a block is read as, or the line and rule of its fault.
fn told(alloc: Global, block: &Block) -> Result<Entry, GiftFault>
    ensures { Answers result (told block.now) }
{
    if is_category(block.marks.as_slice()) {
        return category(alloc, block);
    }
    asked(alloc, &PartedBlock::of(block))
}

/// The names on the path of a category line.
fn category(alloc: Global, block: &Block) -> Result<Entry, GiftFault>
    requires { is_category block.now.marks ≡ true }
    ensures { Answers result (told block.now) }
{
    let names = path(alloc, block.marks.as_slice())?;
    if is_bad_path(names.as_slice()) {
        return Err(GiftFault::Malformed {
            line: block.line,
            rule: 3,
        });
    }
    Ok(Entry::Category(names))
}

/// The question of a block that is no category line.
fn asked(alloc: Global, block: &PartedBlock) -> Result<Entry, GiftFault>
    requires { is_category block.now.marks ≡ false }
    ensures { Answers result (told block.now) }
{
    if let Some(rule) = early_fault(block) {
        return Err(malformed(block, rule));
    }
    let made = question(alloc, block)?;
    if let Some(rule) = late_fault(alloc, block, &made)? {
        return Err(malformed(block, rule));
    }
    Ok(Entry::Asked(made))
}

/// The fault of a block that breaks a rule first.
fn malformed(block: &PartedBlock, rule: u8) -> GiftFault
    ensures { result ≡ Malformed (line_of block.now rule) rule }
{
    GiftFault::Malformed {
        line: line_of(block, rule),
        rule,
    }
}
