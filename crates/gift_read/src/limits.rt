//! How long the texts of a question may be, and how many pieces it may have.

ghost use Rattle.std.specs.Prelude.{◌≡◌, ◌∷◌, [], length, nat_le, nat_lt};
ghost use Rattle.std.specs.List.{list_all};
ghost use Rattle.qz_grading.specs.declared.question.Choice.{Choice};
ghost use Rattle.qz_grading.specs.declared.question.Num.{Num};
ghost use Rattle.qz_grading.specs.declared.question.Pair.{Pair};
ghost use Rattle.qz_grading.specs.declared.question.Short.{Short};
ghost use Rattle.qz_grading.specs.Questions.{kind_texts, are_no_longer};
ghost use Rattle.qz_grading.specs.declared.limits.TheConstants.{MOST_TEXT};
ghost use Rattle.gift_read.specs.Faults.{is_long};
ghost use Rattle.qz_grading.specs.Room.{LeftBehind};
ghost use Rattle.gift_read.specs.Texts.{spelled, text_of};

use crate::places::{character, trimmed};
use gift_lex::Piece;
use qz_grading::{Choice, Kind, MOST_PARTS, MOST_TEXT, Num, Pair, Question, Short, parts};
use qz_text::Text;

/// What is left of a room behind the characters of marks, where they fit.
fn behind_spelled(room: usize, marks: &[Piece]) -> Option<usize>
    ensures { LeftBehind (length (spelled marks.now)) room result }
{
    let mut left = room;
    let mut rest = marks;
    while let [mark, after @ ..] = rest {
        left = left.checked_sub(character(*mark).len_utf8())?;
        rest = after;
    }
    Some(left)
}

/// Whether the text of marks is longer than a text may be.
pub(crate) fn is_long_text(marks: &[Piece]) -> bool
    ensures { result ≡ nat_lt MOST_TEXT (length (text_of marks.now)) }
{
    behind_spelled(MOST_TEXT, trimmed(marks)).is_none()
}

fn is_short(text: &Text) -> bool
    ensures { result ≡ nat_le (length text.now) MOST_TEXT }
{
    text.as_bytes().len() <= MOST_TEXT
}

fn are_short(one: &Text, other: &Text) -> bool
    ensures { result ≡ are_no_longer MOST_TEXT (one.now ∷ other.now ∷ []) }
{
    is_short(one) && is_short(other)
}

fn are_short_choices(choices: &[Choice]) -> bool
    ensures { result ≡ list_all (λ (c : Choice). are_no_longer MOST_TEXT (c.text.text ∷ c.feedback.text ∷ [])) choices.now }
{
    choices.iter().all(|choice| are_short(&choice.text.text, &choice.feedback.text))
}

fn are_short_pairs(pairs: &[Pair]) -> bool
    ensures { result ≡ list_all (λ (p : Pair). are_no_longer MOST_TEXT (p.stem.text ∷ p.answer ∷ [])) pairs.now }
{
    pairs
        .iter()
        .all(|pair| are_short(&pair.stem.text, &pair.answer))
}

fn are_short_answers(answers: &[Short]) -> bool
    ensures { result ≡ list_all (λ (a : Short). are_no_longer MOST_TEXT (a.pattern ∷ a.feedback.text ∷ [])) answers.now }
{
    answers.iter().all(|answer| are_short(answer.pattern.text(), &answer.feedback.text))
}

fn are_short_nums(answers: &[Num]) -> bool
    ensures { result ≡ list_all (λ (a : Num). nat_le (length a.feedback.text) MOST_TEXT) answers.now }
{
    answers.iter().all(|answer| is_short(&answer.feedback.text))
}

/// Whether none of the texts of a kind is too long.
#[tactic(auto, using(crate::proofs::LimitLemmas::texts_of_parts))]
fn has_short_texts(kind: &Kind) -> bool
    ensures { result ≡ are_no_longer MOST_TEXT (kind_texts kind.now) }
{
    match kind {
        Kind::Description | Kind::Essay => true,
        Kind::TrueFalse {
            on_wrong,
            on_right,
            ..
        } => are_short(&on_wrong.text, &on_right.text),
        Kind::One(choices) | Kind::Several(choices) => are_short_choices(choices.as_slice()),
        Kind::Matching(pairs) => are_short_pairs(pairs.as_slice()),
        Kind::ShortAnswer(answers) => are_short_answers(answers.as_slice()),
        Kind::Numerical(answers) => are_short_nums(answers.as_slice()),
    }
}

/// Whether a text is too long, or there are too many choices, pairs or answers.
pub(crate) fn is_long(question: &Question) -> bool
    ensures { result ≡ is_long question.now }
{
    let short = is_short(&question.name)
        && are_short(&question.text.text, &question.general.text)
        && has_short_texts(&question.kind);
    !short || parts(&question.kind) > MOST_PARTS
}
