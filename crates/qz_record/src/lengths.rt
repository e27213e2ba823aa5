//! How long the texts of a question are, in bytes.

ghost use Rattle.std.specs.Prelude.{◌≡◌, ℕ, List, [], ◌∷◌, ◌++◌, ◌≤◌, ◌↔◌, length, flat_map, sum_by, IsTrue};
ghost use Rattle.std.specs.List.{list_all};
ghost use Rattle.qz_grading.specs.Questions.{are_no_longer, kind_texts, texts};
ghost use Rattle.qz_grading.specs.Room.{LeftBehind};
ghost use Rattle.qz_grading.specs.declared.limits.TheConstants.{MOST_TEXT, MOST_TOGETHER};
ghost use Rattle.qz_grading.specs.declared.question.Choice.{Choice};
ghost use Rattle.qz_grading.specs.declared.question.Num.{Num};
ghost use Rattle.qz_grading.specs.declared.question.Pair.{Pair};
ghost use Rattle.qz_grading.specs.declared.question.Short.{Short};

use qz_grading::{Choice, Kind, MOST_TEXT, MOST_TOGETHER, Num, Pair, Question, Short};
use qz_text::Text;

/// What has texts.
trait Worded {
    ghost texts: { Self → List (List ℕ) };

    /// Whether none of its texts is too long.
    fn is_short(&self) -> bool
        ensures { result ≡ are_no_longer MOST_TEXT (texts self.now) };

    /// What is left of a room behind its texts, where they fit.
    fn behind(&self, room: usize) -> Option<usize>
        ensures { LeftBehind (sum_by length (texts self.now)) room result };
}

impl Worded for Text {
    ghost texts = { λ t. t ∷ [] };

    fn is_short(&self) -> bool {
        self.as_bytes().len() <= MOST_TEXT
    }

    fn behind(&self, room: usize) -> Option<usize> {
        room.checked_sub(self.as_bytes().len())
    }
}

impl Worded for Choice {
    ghost texts = { λ c. c.text.text ∷ c.feedback.text ∷ [] };

    fn is_short(&self) -> bool {
        self.text.text.is_short() && self.feedback.text.is_short()
    }

    fn behind(&self, room: usize) -> Option<usize> {
        self.feedback.text.behind(self.text.text.behind(room)?)
    }
}

impl Worded for Pair {
    ghost texts = { λ p. p.stem.text ∷ p.answer ∷ [] };

    fn is_short(&self) -> bool {
        self.stem.text.is_short() && self.answer.is_short()
    }

    fn behind(&self, room: usize) -> Option<usize> {
        self.answer.behind(self.stem.text.behind(room)?)
    }
}

impl Worded for Short {
    ghost texts = { λ a. a.pattern ∷ a.feedback.text ∷ [] };

    fn is_short(&self) -> bool {
        self.pattern.text().is_short() && self.feedback.text.is_short()
    }

    fn behind(&self, room: usize) -> Option<usize> {
        let left = self.pattern.text().behind(room)?;
        self.feedback.text.behind(left)
    }
}

impl Worded for Num {
    ghost texts = { λ a. a.feedback.text ∷ [] };

    fn is_short(&self) -> bool {
        self.feedback.text.is_short()
    }

    fn behind(&self, room: usize) -> Option<usize> {
        self.feedback.text.behind(room)
    }
}

fn all_short<W: Worded>(parts: &[W]) -> bool
    ensures { result ≡ list_all (λ p. are_no_longer MOST_TEXT (W.texts p)) parts.now }
{
    parts.iter().all(|part| part.is_short())
}

#[tactic(auto, using(crate::proofs::TextLengths::room_steps))]
fn behind_all<W: Worded>(room: usize, parts: &[W]) -> Option<usize>
    ensures { LeftBehind (sum_by length (flat_map W.texts parts.now)) room result }
{
    let mut left = room;
    let mut rest = parts;
    while let [part, after @ ..] = rest {
        left = part.behind(left)?;
        rest = after;
    }
    Some(left)
}

#[tactic(auto, using(crate::proofs::TextLengths::list_all_flat_map))]
fn kind_is_short(kind: &Kind) -> bool
    ensures { result ≡ are_no_longer MOST_TEXT (kind_texts kind.now) }
{
    match kind {
        Kind::Description | Kind::Essay => true,
        Kind::TrueFalse {
            on_wrong,
            on_right,
            ..
        } => on_wrong.text.is_short() && on_right.text.is_short(),
        Kind::One(choices) | Kind::Several(choices) => all_short(choices.as_slice()),
        Kind::Matching(pairs) => all_short(pairs.as_slice()),
        Kind::ShortAnswer(answers) => all_short(answers.as_slice()),
        Kind::Numerical(answers) => all_short(answers.as_slice()),
    }
}

fn behind_kind(room: usize, kind: &Kind) -> Option<usize>
    ensures { LeftBehind (sum_by length (kind_texts kind.now)) room result }
{
    match kind {
        Kind::Description | Kind::Essay => Some(room),
        Kind::TrueFalse {
            on_wrong,
            on_right,
            ..
        } => on_right.text.behind(on_wrong.text.behind(room)?),
        Kind::One(choices) | Kind::Several(choices) => behind_all(room, choices.as_slice()),
        Kind::Matching(pairs) => behind_all(room, pairs.as_slice()),
        Kind::ShortAnswer(answers) => behind_all(room, answers.as_slice()),
        Kind::Numerical(answers) => behind_all(room, answers.as_slice()),
    }
}

/// Whether no text of a question is longer than 65,536 bytes.
pub(crate) fn has_short_texts(question: &Question) -> bool
    ensures { result ≡ are_no_longer MOST_TEXT (texts question.now) }
{
    question.name.is_short()
        && question.text.text.is_short()
        && question.general.text.is_short()
        && kind_is_short(&question.kind)
}

/// Whether the texts and hints of a question have together at most 262,144 bytes.
pub(crate) fn is_short_together(question: &Question) -> bool
    ensures { IsTrue result ↔ (sum_by length (texts question.now ++ question.now.hints) ≤ MOST_TOGETHER) }
{
    behind_question(MOST_TOGETHER, question).is_some()
}

fn behind_question(room: usize, question: &Question) -> Option<usize>
    ensures { LeftBehind (sum_by length (texts question.now ++ question.now.hints)) room result }
{
    let left = question.name.behind(room)?;
    let left = question.text.text.behind(left)?;
    let left = question.general.text.behind(left)?;
    let left = behind_kind(left, &question.kind)?;
    behind_all(left, question.hints.as_slice())
}
