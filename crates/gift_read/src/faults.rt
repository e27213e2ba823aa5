//! Which rule a block breaks first.

ghost use Rattle.std.specs.Prelude.{◌≡◌, ◌+◌, ◌≤◌, false, Some, length, IfOk, IfSome, IfNone};
ghost use Rattle.qz_grading.specs.declared.question.Format.{Format};
ghost use Rattle.qz_grading.specs.Questions as sound;
ghost use Rattle.gift_read.specs.declared.parts.Sort.TheVariants as sort;
ghost use Rattle.gift_read.specs.Category.{is_category};
ghost use Rattle.gift_read.specs.Faults.{has_stray_brace, broken_values, broken, line_of};
ghost use Rattle.gift_read.specs.FirstFault.{first_of, IsWhole};
ghost use Rattle.gift_read.specs.Parts.{pieces, body, answer_part, answers, sort_of};
ghost use Rattle.gift_read.specs.Places.{is_at};
ghost use Rattle.gift_read.specs.Values.{kind_in, question};

use crate::faults_of_values::fault_of_values;
use crate::limits::is_long_text;
use crate::parts::{PartedBlock, Sort, first_piece, split_piece};
use crate::places::{Landmark, behind, occurs, split};
use gift_lex::Piece;
use qz_grading::{MOST_PARTS, MOST_TOGETHER, Question, canonical_size_is_at_most};
use qz_text::NoMemory;
use std::alloc::Global;

// ---- braces

/// Whether a brace closes none, or stands behind the answer part.
fn has_stray_brace(block: &PartedBlock) -> bool
    ensures { result ≡ has_stray_brace (body block.now.marks) }
{
    occurs(Landmark::Closing, block.before()) || occurs(Landmark::Brace, block.behind())
}

/// The line on which the breach of a rule is told: the block's last where a brace isn't closed, and else its first.
pub(crate) fn line_of(block: &PartedBlock, rule: u8) -> u32
    ensures { result ≡ line_of block.now rule }
{
    if rule == 5 && block.is_unclosed() && !has_stray_brace(block) {
        block.last_line()
    } else {
        block.line()
    }
}

// ---- the number of pieces

/// How many pieces stand among answers.
fn piece_count(begins: Landmark, sign: char, answers: &[Piece]) -> usize
    ensures value { result ≡ length (pieces (is_at begins) sign answers.now) }
    ensures few { result ≤ length answers.now + 1 }
{
    let Some((_, mut rest)) = first_piece(begins, sign, answers) else {
        return 0;
    };
    let mut count = 1;
    loop {
        let (_, next) = split_piece(begins, rest);
        match next {
            Some((_, after)) => rest = after,
            None => return count,
        }
        count += 1;
    }
}

/// How many choices, pairs or answers a question has whose answers are of this sort.
fn part_count(sort: Sort, answers: &[Piece]) -> usize
    ensures { (format : Format) → result ≡ sound.parts (kind_in format answers.now sort) }
{
    match sort {
        Sort::One | Sort::Several => piece_count(Landmark::Choice, '~', answers),
        Sort::Matching | Sort::ShortAnswer => piece_count(Landmark::Equals, '=', answers),
        Sort::Numerical => number_count(answers),
        _ => 0,
    }
}

/// How many answers a numerical question has, with that for every other number.
fn number_count(answers: &[Piece]) -> usize
    ensures { (format : Format) → result ≡ sound.parts (kind_in format answers.now sort.Numerical) }
{
    let (numbers, others) = split(Landmark::Others, behind(answers, 1));
    let count = piece_count(Landmark::Equals, '=', numbers);
    if others.is_empty() { count } else { count + 1 }
}

// ---- before anything is built

/// The first rule that a block breaks, as far as it can be told before its question is built: a name or a brace without its
/// end, a name that is too long where the braces are at fault, or too many pieces.
pub(crate) fn early_fault(block: &PartedBlock) -> Option<u8>
    requires { is_category block.now.marks ≡ false }
    ensures told { IfSome result (λ rule. first_of (broken block.now) ≡ Some rule) }
    ensures whole { IfNone result (IsWhole block.now) }
{
    if block.is_nameless() {
        return Some(4);
    }
    if has_stray_brace(block) || block.is_unclosed() {
        return Some(if is_long_text(block.name()) { 2 } else { 5 });
    }
    if part_count(block.sort(), block.answers()) > MOST_PARTS {
        return Some(2);
    }
    None
}

// ---- with the question built

/// The first of the rules 2 and 6 to 11 that a question breaks, read from the answers of a block.
fn value_fault(alloc: Global, block: &PartedBlock, built: &Question) -> Result<Option<u8>, NoMemory>
    ensures { IfOk result (λ rule. rule
        ≡ first_of (broken_values built.now (sort_of (body block.now.marks)) (answers (answer_part (body block.now.marks))))) }
{
    fault_of_values(alloc, built, block.sort(), block.answers())
}

/// The first rule that a block breaks whose name and braces are whole, told by the question that it spells.
pub(crate) fn late_fault(
    alloc: Global,
    block: &PartedBlock,
    built: &Question,
) -> Result<Option<u8>, NoMemory>
    requires asked { is_category block.now.marks ≡ false }
    requires whole { IsWhole block.now }
    requires spelled { built.now ≡ question block.now }
    ensures { IfOk result (λ rule. rule ≡ first_of (broken block.now)) }
{
    match value_fault(alloc, block, built)? {
        Some(rule) => Ok(Some(rule)),
        None if canonical_size_is_at_most(built, MOST_TOGETHER) => Ok(None),
        None => Ok(Some(2)),
    }
}
