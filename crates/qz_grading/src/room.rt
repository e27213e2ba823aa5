//! How much of a room for bytes the canonical text of a question takes up. No text is built.
//!
//! Each function here is told the room and gives what is left of it behind one part of the canonical text, where the part
//! fits.

ghost use Rattle.std.specs.Prelude.{◌≡◌, ◌+◌, ℕ, ℤ, List, pos, codes, length, flat_map, sum_by, nat_le};
ghost use Rattle.std.specs.Ordering.{int_eq};
ghost use Rattle.qz_decimal.specs.Numbers.{one};
ghost use Rattle.qz_grading.specs.declared.question.Format.{Format};
ghost use Rattle.qz_grading.specs.declared.question.Kind.TheVariants as kind;
ghost use Rattle.qz_grading.specs.Canonical.{escaped_byte, escaped, begins_with, rich_text, rich_behind, weight_if_needed, tilde_choice, equals_choice, single_choices, pair_piece, short_piece, num_piece, general_behind, general_line, in_lines, true_false_text, answer_part, canonical_question, canonical_size};
ghost use Rattle.qz_grading.specs.Room.{LeftBehind, pieces_text};

use crate::question::{Choice, Format, Kind, Num, Pair, Question, Rich, Short};
use crate::written::{extent_len, weight_len};
use qz_decimal::{Fraction, ONE};
use qz_text::Text;

// ---- texts

/// The length of a byte in an escaped text.
fn escaped_len(byte: u8) -> usize
    ensures { result ≡ length (escaped_byte byte) }
{
    match byte {
        b'\n' | b'~' | b'=' | b'#' | b'{' | b'}' | b':' | b'\\' => 2,
        _ => 1,
    }
}

fn behind_escaped(room: usize, text: &[u8]) -> Option<usize>
    ensures { LeftBehind (length (escaped text.now)) room result }
{
    let mut left = room;
    let mut rest = text;
    while let [byte, after @ ..] = rest {
        left = left.checked_sub(escaped_len(*byte))?;
        rest = after;
    }
    Some(left)
}

fn begins_with(byte: u8, text: &[u8]) -> bool
    ensures { result ≡ begins_with byte text.now }
{
    matches!(text, [first, ..] if *first == byte)
}

fn behind_rich(room: usize, default: Format, rich: &Rich) -> Option<usize>
    ensures { LeftBehind (length (rich_text default rich.now)) room result }
{
    let text = rich.text.as_bytes();
    let mut left = room;
    if rich.format != default || begins_with(b'[', text) {
        left = left.checked_sub(rich.format.sign().len())?;
    }
    behind_escaped(left, text)
}

/// Behind the hash of a feedback and the feedback, where it isn't empty.
fn behind_feedback(room: usize, default: Format, rich: &Rich) -> Option<usize>
    ensures { LeftBehind (length (rich_behind (codes "#") default rich.now)) room result }
{
    if rich.text.as_bytes().is_empty() {
        return Some(room);
    }
    behind_rich(room.checked_sub("#".len())?, default, rich)
}

/// Behind the four hashes of a general feedback and the feedback, where it isn't empty.
fn behind_general(room: usize, default: Format, rich: &Rich) -> Option<usize>
    ensures { LeftBehind (length (general_behind default rich.now)) room result }
{
    if rich.text.as_bytes().is_empty() {
        return Some(room);
    }
    behind_rich(room.checked_sub("####".len())?, default, rich)
}

// ---- pieces

/// Behind the tab and the sign of a piece, and its weight where it isn't the sign's own or the text begins with a percent
/// sign.
fn behind_weight(room: usize, own: i64, weight: Fraction, text: &[u8]) -> Option<usize>
    ensures { LeftBehind (2 + length (weight_if_needed own weight text.now)) room result }
{
    let left = room.checked_sub("\t=".len())?;
    if weight.0 == own && !begins_with(b'%', text) {
        return Some(left);
    }
    left.checked_sub(weight_len(weight))
}

/// Behind a feedback and the line feed that ends its piece.
fn behind_end(room: usize, default: Format, feedback: &Rich) -> Option<usize>
    ensures { LeftBehind (length (rich_behind (codes "#") default feedback.now) + 1) room result }
{
    behind_feedback(room, default, feedback)?.checked_sub("\n".len())
}

/// Behind a choice whose sign has this weight.
fn behind_choice(room: usize, default: Format, own: i64, choice: &Choice) -> Option<usize>
    ensures equals { own ≡ pos one → LeftBehind (length (equals_choice default choice.now)) room result }
    ensures tilde { own ≡ pos 0 → LeftBehind (length (tilde_choice default choice.now)) room result }
{
    let left = behind_weight(room, own, choice.weight, choice.text.text.as_bytes())?;
    let left = behind_rich(left, default, &choice.text)?;
    behind_end(left, default, &choice.feedback)
}

/// What an answer part has a line of.
trait AnswerLine {
    /// Its line, where a text without a format mark has this format.
    ghost line: { Format → Self → List ℕ };

    /// Behind its line.
    fn behind_line(&self, room: usize, default: Format) -> Option<usize>
        ensures { LeftBehind (length (line default self.now)) room result };
}

/// Behind lines, one after the other.
fn behind_lines<L: AnswerLine>(room: usize, default: Format, lines: &[L]) -> Option<usize>
    ensures { LeftBehind (length (flat_map (L.line default) lines.now)) room result }
{
    let mut left = room;
    let mut rest = lines;
    while let [line, after @ ..] = rest {
        left = line.behind_line(left, default)?;
        rest = after;
    }
    Some(left)
}

/// A choice behind a tilde.
impl AnswerLine for Choice {
    ghost line = { tilde_choice };

    fn behind_line(&self, room: usize, default: Format) -> Option<usize> {
        behind_choice(room, default, 0, self)
    }
}

/// A stem and its answer.
impl AnswerLine for Pair {
    ghost line = { pair_piece };

    fn behind_line(&self, room: usize, default: Format) -> Option<usize> {
        let left = room.checked_sub("\t=".len())?;
        let left = behind_rich(left, default, &self.stem)?;
        let left = behind_escaped(left.checked_sub(" -> ".len())?, self.answer.as_bytes())?;
        left.checked_sub("\n".len())
    }
}

/// A short answer.
impl AnswerLine for Short {
    ghost line = { short_piece };

    fn behind_line(&self, room: usize, default: Format) -> Option<usize> {
        let pattern = self.pattern.text().as_bytes();
        let left = behind_weight(room, ONE, self.weight, pattern)?;
        let left = behind_escaped(left, pattern)?;
        behind_end(left, default, &self.feedback)
    }
}

/// A numerical answer.
impl AnswerLine for Num {
    ghost line = { num_piece };

    fn behind_line(&self, room: usize, default: Format) -> Option<usize> {
        let left = behind_weight(room, ONE, self.weight, &[])?;
        let left = left.checked_sub(extent_len(self.extent))?;
        behind_end(left, default, &self.feedback)
    }
}

// ---- answer parts

/// Whether a choice of this weight is wholly right.
fn is_whole(weight: Fraction) -> bool
    ensures { result ≡ int_eq weight (pos one) }
{
    weight.0 == ONE
}

/// The first choice of full weight has an equals sign, and each other a tilde.
fn behind_single(room: usize, default: Format, choices: &[Choice]) -> Option<usize>
    ensures { LeftBehind (length (single_choices default choices.now)) room result }
{
    let mut left = room;
    let mut rest = choices;
    while let [choice, after @ ..] = rest {
        if is_whole(choice.weight) {
            return behind_lines(behind_choice(left, default, ONE, choice)?, default, after);
        }
        left = choice.behind_line(left, default)?;
        rest = after;
    }
    Some(left)
}

/// Behind the line of a general feedback, where it isn't empty, and the closing brace.
fn behind_last_lines(room: usize, default: Format, general: &Rich) -> Option<usize>
    ensures { LeftBehind (length (general_line default general.now) + 1) room result }
{
    if general.text.as_bytes().is_empty() {
        return room.checked_sub("}".len());
    }
    behind_general(room, default, general)?.checked_sub("\t\n}".len())
}

fn behind_essay(room: usize, default: Format, general: &Rich) -> Option<usize>
    ensures { LeftBehind (length (answer_part kind.Essay default general.now)) room result }
{
    if general.text.as_bytes().is_empty() {
        return room.checked_sub("{}".len());
    }
    behind_last_lines(room.checked_sub("{\n".len())?, default, general)
}

/// The feedback for a wrong answer comes first, and is written where either isn't empty.
fn behind_true_false(
    room: usize,
    right: bool,
    on_wrong: &Rich,
    on_right: &Rich,
    default: Format,
    general: &Rich,
) -> Option<usize>
    ensures { LeftBehind (length (true_false_text right on_wrong.now on_right.now default general.now)) room result }
{
    let mut left = room.checked_sub(if right {
        "{TRUE}".len()
    } else {
        "{FALSE}".len()
    })?;
    if !on_wrong.text.as_bytes().is_empty() || !on_right.text.as_bytes().is_empty() {
        left = behind_rich(left.checked_sub("#".len())?, default, on_wrong)?;
    }
    let left = behind_feedback(left, default, on_right)?;
    behind_general(left, default, general)
}

/// Behind the pieces of a kind, each a line of its own, and the hash before those of a numerical one.
fn behind_pieces(room: usize, default: Format, kind: &Kind) -> Option<usize>
    ensures { LeftBehind (length (pieces_text kind.now default)) room result }
{
    match kind {
        Kind::Description | Kind::Essay | Kind::TrueFalse { .. } => Some(room),
        Kind::One(choices) => behind_single(room, default, choices.as_slice()),
        Kind::Several(choices) => behind_lines(room, default, choices.as_slice()),
        Kind::Matching(pairs) => behind_lines(room, default, pairs.as_slice()),
        Kind::ShortAnswer(answers) => behind_lines(room, default, answers.as_slice()),
        Kind::Numerical(answers) => {
            behind_lines(room.checked_sub("#".len())?, default, answers.as_slice())
        }
    }
}

fn behind_answer_part(room: usize, kind: &Kind, default: Format, general: &Rich) -> Option<usize>
    ensures { LeftBehind (length (answer_part kind.now default general.now)) room result }
{
    match kind {
        Kind::Description => Some(room),
        Kind::Essay => behind_essay(room, default, general),
        Kind::TrueFalse {
            right,
            on_wrong,
            on_right,
        } => behind_true_false(room, *right, on_wrong, on_right, default, general),
        Kind::One(_)
        | Kind::Several(_)
        | Kind::Matching(_)
        | Kind::ShortAnswer(_)
        | Kind::Numerical(_) => {
            let left = behind_pieces(room.checked_sub("{\n".len())?, default, kind)?;
            behind_last_lines(left, default, general)
        }
    }
}

// ---- questions

fn behind_question(room: usize, question: &Question) -> Option<usize>
    ensures { LeftBehind (length (canonical_question question.now)) room result }
{
    let default = question.text.format;
    let left = room.checked_sub("::::\n\n".len())?;
    let left = behind_escaped(left, question.name.as_bytes())?;
    let left = behind_rich(left, Format::Moodle, &question.text)?;
    behind_answer_part(left, &question.kind, default, &question.general)
}

fn behind_hints(room: usize, hints: &[Text]) -> Option<usize>
    ensures { LeftBehind (sum_by length hints.now) room result }
{
    let mut left = room;
    let mut rest = hints;
    while let [hint, after @ ..] = rest {
        left = left.checked_sub(hint.as_bytes().len())?;
        rest = after;
    }
    Some(left)
}

/// Whether the canonical text of a question and the texts of its hints have at most so many bytes together. It takes no
/// memory, and reads no further than this many bytes go.
pub fn canonical_size_is_at_most(question: &Question, most: usize) -> bool
    ensures { result ≡ nat_le (canonical_size question.now) most }
{
    match behind_question(most, question) {
        Some(left) => behind_hints(left, question.hints.as_slice()).is_some(),
        None => false,
    }
}
