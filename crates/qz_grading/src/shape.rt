//! The shape of a question.

ghost use Rattle.std.specs.Prelude.{◌≡◌, ◌≤◌, length};
ghost use Rattle.qz_grading.specs.declared.limits.TheConstants.{MOST_PARTS};
ghost use Rattle.qz_grading.specs.declared.question.Kind.TheVariants as kind;
ghost use Rattle.qz_grading.specs.Grading.{shape, kind_number, counts};
ghost use Rattle.qz_grading.specs.Questions.{parts};

use crate::matching::{answer_count, stem_count};
use crate::{Kind, Pair, Question, Shape};

/// The shape of a question, which has at most 64 choices or pairs. Versions of the same shape take the same answers.
pub fn shape_of(question: &Question) -> Shape
    requires { parts question.now.kind ≤ MOST_PARTS }
    ensures { result ≡ shape question.now }
{
    let kind = kind_number(&question.kind);
    let (first, second) = counts(&question.kind);
    Shape {
        kind,
        first,
        second,
    }
}

fn kind_number(kind: &Kind) -> u8
    ensures { result ≡ kind_number kind.now }
{
    match kind {
        Kind::Description => 0,
        Kind::Essay => 1,
        Kind::TrueFalse { .. } => 2,
        Kind::One(_) => 3,
        Kind::Several(_) => 4,
        Kind::Matching(_) => 5,
        Kind::ShortAnswer(_) => 6,
        Kind::Numerical(_) => 7,
    }
}

fn counts(kind: &Kind) -> (u8, u8)
    requires { parts kind.now ≤ MOST_PARTS }
    ensures { result ≡ counts kind.now }
{
    match kind {
        Kind::One(choices) | Kind::Several(choices) => (choices.as_slice().len() as u8, 0),
        Kind::Matching(pairs) => match_counts(pairs.as_slice()),
        _ => (0, 0),
    }
}

/// How many stems there are, and how many answers.
fn match_counts(pairs: &[Pair]) -> (u8, u8)
    requires { length pairs.now ≤ MOST_PARTS }
    ensures { result ≡ counts (kind.Matching pairs.now) }
{
    (stem_count(pairs) as u8, answer_count(pairs) as u8)
}
