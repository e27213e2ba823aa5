//! The parts of a block: the name, the question text, the answer part, the general feedback, and the pieces.

ghost use Rattle.std.specs.Prelude.{◌≡◌, ℕ, ◌<◌, [], ◌∷◌, ◌++◌, length, drop, MatchOption, IfSome, IfOk};
ghost use Rattle.gift_read.specs.declared.places.Landmark.TheVariants.{Closing};
ghost use Rattle.gift_read.specs.Faults.{is_nameless, is_unclosed};
ghost use Rattle.gift_read.specs.Places.{is_at, before, from};
ghost use Rattle.gift_read.specs.Parts.{name_marks, body, text_before, in_braces, answer_part, text_behind, gap, question_text, general_marks, answers, truth, sort_in, sort_of, cut, pieces, answer_marks, feedback_marks};

use crate::places::{
    Landmark, are_blank, behind, character, occurs, split, split_last, trimmed, unled,
};
use crate::texts::spells;
use gift_lex::{Block, Piece};
use qz_text::NoMemory;
use std::alloc::Global;
use std::marker::Model;

/// What kind of question a block has.
#[derive(Clone, Copy)]
pub enum Sort {
    Description,
    Essay,
    Numerical,
    One,
    Several,
    Matching,
    /// Whether true is right.
    TrueFalse(bool),
    ShortAnswer,
}

/// A block with its parts, which are found once. It is seen as the block.
#[derive(Drop)]
pub(crate) struct PartedBlock<'a> {
    block: &'a Block,
    name: &'a [Piece],
    is_nameless: bool,
    before: &'a [Piece],
    is_unclosed: bool,
    behind: &'a [Piece],
    answers: &'a [Piece],
    general: &'a [Piece],
    sort: Sort,
}

impl<'a> Model for PartedBlock<'a> {
    ghost use Rattle.gift_lex.specs.declared.block.Block.{Block};
    ghost use Rattle.gift_read.specs.Parted.{HasParts};

    ghost Value = { Block };

    ghost view = { λ s. s.block.now };

    ghost invariant = { λ s. HasParts s.block.now.marks s.name.now s.before.now s.answers.now
        s.general.now s.behind.now s.is_nameless s.is_unclosed s.sort };
}

impl<'a> PartedBlock<'a> {
    pub(crate) fn of(block: &'a Block) -> PartedBlock<'a>
        ensures { result ≡ block.now }
    {
        let marks = block.marks.as_slice();
        let (name, body) = split_name(marks);
        let (before, inside) = split_braces(body);
        let (part, behind) = split_part(inside);
        let (answers, general) = split_general(part);
        PartedBlock {
            block,
            name,
            is_nameless: is_nameless(marks),
            before,
            is_unclosed: is_unclosed(body, inside),
            behind,
            answers,
            general,
            sort: sort_of(body, answers),
        }
    }

    /// The number of its first line.
    pub(crate) fn line(&self) -> u32
        ensures { result ≡ self.now.line }
    {
        self.block.line
    }

    /// The number of its last line.
    pub(crate) fn last_line(&self) -> u32
        ensures { result ≡ self.now.last_line }
    {
        self.block.last_line
    }

    /// The name between two colons and two more, which may be missing.
    pub(crate) fn name(&self) -> &[Piece]
        ensures { result.now ≡ name_marks self.now.marks }
    {
        self.name
    }

    /// Whether the name has no end.
    pub(crate) fn is_nameless(&self) -> bool
        ensures { result ≡ is_nameless self.now.marks }
    {
        self.is_nameless
    }

    /// The text before the answer part.
    pub(crate) fn before(&self) -> &[Piece]
        ensures { result.now ≡ text_before (body self.now.marks) }
    {
        self.before
    }

    /// Whether the answer part has no end.
    pub(crate) fn is_unclosed(&self) -> bool
        ensures { result ≡ is_unclosed (body self.now.marks) }
    {
        self.is_unclosed
    }

    /// The text behind the answer part.
    pub(crate) fn behind(&self) -> &[Piece]
        ensures { result.now ≡ text_behind (body self.now.marks) }
    {
        self.behind
    }

    /// The answer part without the general feedback.
    pub(crate) fn answers(&self) -> &[Piece]
        ensures { result.now ≡ answers (answer_part (body self.now.marks)) }
    {
        self.answers
    }

    /// The general feedback.
    pub(crate) fn general(&self) -> &[Piece]
        ensures { result.now ≡ general_marks (answer_part (body self.now.marks)) }
    {
        self.general
    }

    /// What kind of question it has.
    pub(crate) fn sort(&self) -> Sort
        ensures { result ≡ sort_of (body self.now.marks) }
    {
        self.sort
    }
}

/// The name of a block, and what follows it.
fn split_name(marks: &[Piece]) -> (&[Piece], &[Piece])
    ensures name { result.0.now ≡ name_marks marks.now }
    ensures body { result.1.now ≡ body marks.now }
{
    let found = unled(marks);
    let [Piece::Sign(':'), Piece::Sign(':'), in_name @ ..] = found else {
        return (marks.split_at(0).0, marks);
    };
    let (name, rest) = split(Landmark::Colons, in_name);
    (name, behind(rest, 2))
}

/// Whether a name stands at the front and has no end.
fn is_nameless(marks: &[Piece]) -> bool
    ensures { result ≡ is_nameless marks.now }
{
    match unled(marks) {
        [Piece::Sign(':'), Piece::Sign(':'), in_name @ ..] => !occurs(Landmark::Colons, in_name),
        _ => false,
    }
}

/// The text before the answer part of a body, and what follows the opening brace.
fn split_braces(body: &[Piece]) -> (&[Piece], &[Piece])
    ensures before { result.0.now ≡ text_before body.now }
    ensures inside { result.1.now ≡ in_braces body.now }
{
    let (before, rest) = split(Landmark::Opening, body);
    (before, behind(rest, 1))
}

/// The answer part, and the text behind it, of what follows the opening brace.
fn split_part(inside: &[Piece]) -> (&[Piece], &[Piece])
    ensures part { result.0.now ≡ before (is_at Closing) inside.now }
    ensures behind { result.1.now ≡ drop 1 (from (is_at Closing) inside.now) }
{
    let (part, rest) = split(Landmark::Closing, inside);
    (part, behind(rest, 1))
}

/// Whether a brace isn't closed, of a body and what follows its opening brace.
fn is_unclosed(body: &[Piece], inside: &[Piece]) -> bool
    requires { inside.now ≡ in_braces body.now }
    ensures { result ≡ is_unclosed body.now }
{
    occurs(Landmark::Opening, body) && !occurs(Landmark::Closing, inside)
}

/// The answers of an answer part, and the general feedback behind the last place with four hashes.
fn split_general(part: &[Piece]) -> (&[Piece], &[Piece])
    ensures answers { result.0.now ≡ answers part.now }
    ensures general { result.1.now ≡ general_marks part.now }
{
    let (before, rest) = split_last(Landmark::Hashes, part);
    (trimmed(before), behind(rest, 4))
}

/// The marks of a question text that goes on behind its answer part, which leaves five underscores.
pub(crate) fn joined_text(
    alloc: Global,
    before: &[Piece],
    behind: &[Piece],
) -> Result<Vec<Piece>, NoMemory>
    ensures { IfOk result (λ made. made.items ≡ before.now ++ (gap ++ behind.now)) }
{
    let mut marks = Vec::new(alloc);
    marks.extend_from_slice(before)?;
    marks.extend_from_slice(&[Piece::Plain('_'); 5])?;
    marks.extend_from_slice(behind)?;
    Ok(marks)
}

/// What kind of question a body has whose answers were found.
fn sort_of(body: &[Piece], found: &[Piece]) -> Sort
    requires { found.now ≡ answers (answer_part body.now) }
    ensures { result ≡ sort_of body.now }
{
    if !occurs(Landmark::Opening, body) {
        return Sort::Description;
    }
    sort_in(found)
}

/// What kind of question has these answers.
fn sort_in(answers: &[Piece]) -> Sort
    ensures { result ≡ sort_in answers.now }
{
    if answers.is_empty() {
        return Sort::Essay;
    }
    if Landmark::Hash.is_at(answers) {
        return Sort::Numerical;
    }
    let has_equals = occurs(Landmark::Equals, answers);
    if occurs(Landmark::Tilde, answers) {
        return if has_equals { Sort::One } else { Sort::Several };
    }
    if has_equals && occurs(Landmark::Arrow, answers) {
        return Sort::Matching;
    }
    match truth(split_answer(answers).0) {
        Some(right) => Sort::TrueFalse(right),
        None => Sort::ShortAnswer,
    }
}

/// The answer that a true-false question takes as right, where it is one.
fn truth(word: &[Piece]) -> Option<bool>
    ensures { result ≡ truth word.now }
{
    if spells(b"T", word) || spells(b"TRUE", word) {
        Some(true)
    } else if spells(b"F", word) || spells(b"FALSE", word) {
        Some(false)
    } else {
        None
    }
}

/// The answer of a piece, up to the first hash, and the feedback behind that.
pub(crate) fn split_answer(piece: &[Piece]) -> (&[Piece], &[Piece])
    ensures answer { result.0.now ≡ answer_marks piece.now }
    ensures feedback { result.1.now ≡ feedback_marks piece.now }
{
    let (answer, rest) = split(Landmark::Hash, piece);
    (trimmed(answer), behind(rest, 1))
}

/// The sign from which the pieces of answers are cut, and what is cut: what stands before the first place where a piece
/// begins is a piece, as if behind this sign, unless it is blank. `None` where there is no piece.
pub(crate) fn first_piece(begins: Landmark, sign: char, marks: &[Piece]) -> Option<(char, &[Piece])>
    ensures { MatchOption result (pieces (is_at begins) sign marks.now ≡ [])
        (λ x. pieces (is_at begins) sign marks.now ≡ cut (is_at begins) x.0 x.1.now) }
{
    let (first, next) = split_piece(begins, marks);
    if are_blank(first) {
        return next;
    }
    Some((sign, marks))
}

/// The first piece, and the sign and marks from which the later ones are cut, where there are any.
pub(crate) fn split_piece(begins: Landmark, marks: &[Piece]) -> (&[Piece], Option<(char, &[Piece])>)
    ensures pieces { MatchOption result.1 ((sign : ℕ) → cut (is_at begins) sign marks.now ≡ (sign, result.0.now) ∷ [])
        (λ x. (sign : ℕ) → cut (is_at begins) sign marks.now ≡ (sign, result.0.now) ∷ cut (is_at begins) x.0 x.1.now) }
    ensures shorter { IfSome result.1 (λ x. length x.1.now < length marks.now) }
{
    let (first, rest) = split(begins, marks);
    match rest {
        [sign, after @ ..] => (first, Some((character(*sign), after))),
        [] => (first, None),
    }
}
