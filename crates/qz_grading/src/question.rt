//! Questions as a bank holds them.

ghost use Rattle.std.specs.Prelude.{◌≡◌, IfOk};

use qz_decimal::{Decimal, Fraction};
use qz_text::{Listed, NoMemory, Pattern, Text, TryCopy};
use std::alloc::Global;

/// How a text is to be shown. Moodle's manual page "GIFT format" names the four.
#[derive(Clone, Copy, Debug, PartialEq, Eq)]
pub enum Format {
    Moodle,
    Html,
    Plain,
    Markdown,
}

/// A text with its format.
#[derive(Drop)]
pub struct Rich {
    pub format: Format,
    pub text: Text,
}

/// One of the choices of a question with single or several choices. The weight is from -1 to 1.
#[derive(Drop)]
pub struct Choice {
    pub weight: Fraction,
    pub text: Rich,
    pub feedback: Rich,
}

/// One pair of a matching question. A pair whose stem is blank adds an answer that no stem has.
#[derive(Drop)]
pub struct Pair {
    pub stem: Rich,
    pub answer: Text,
}

/// One of the answers that a short answer is compared with, in order.
#[derive(Drop)]
pub struct Short {
    pub weight: Fraction,
    pub pattern: Pattern,
    pub feedback: Rich,
}

/// Which numbers a numerical answer takes.
#[derive(Clone, Copy, PartialEq, Eq)]
pub enum Extent {
    /// Every number.
    Any,
    /// The numbers that lie at most `slack` from `centre`; `slack` is at least 0.
    Near { centre: Decimal, slack: Decimal },
    /// The numbers from `low` to `high`, both included.
    Between { low: Decimal, high: Decimal },
}

/// One of the answers that a number is compared with, in order.
#[derive(Drop)]
pub struct Num {
    pub weight: Fraction,
    pub extent: Extent,
    pub feedback: Rich,
}

/// What is asked, and what is right.
#[derive(Drop)]
pub enum Kind {
    /// A text without a question.
    Description,
    /// A text that a teacher marks.
    Essay,
    /// Choice 1 is true and choice 2 is false; `right` tells whether true is right.
    TrueFalse {
        right: bool,
        on_wrong: Rich,
        on_right: Rich,
    },
    /// One choice is to be picked.
    One(Listed<Choice>),
    /// Any number of choices, at least one, is to be picked.
    Several(Listed<Choice>),
    Matching(Listed<Pair>),
    ShortAnswer(Listed<Short>),
    Numerical(Listed<Num>),
}

/// A question in one version. The penalty is from 0 to 1.
#[derive(Drop)]
pub struct Question {
    pub name: Text,
    pub text: Rich,
    pub general: Rich,
    pub kind: Kind,
    pub penalty: Fraction,
    pub hints: Listed<Text>,
}

/// A question and the names on the path of its category.
#[derive(Drop)]
pub struct Item {
    pub category: Listed<Text>,
    pub question: Question,
}

/// The questions of one GIFT text, in order.
#[derive(Drop)]
pub struct Bank {
    pub items: Listed<Item>,
}

/// What two versions share where the same answers fit them: the kind's number (description 0, essay 1,
/// true-false 2, single choice 3, several choices 4, matching 5, short answer 6, numerical 7) and two counts, of
/// choices and 0, or of stems and answers, or 0 and 0.
#[derive(Clone, Copy, Debug, PartialEq, Eq)]
pub struct Shape {
    pub kind: u8,
    pub first: u8,
    pub second: u8,
}

impl TryCopy for Rich {
    fn try_copy(&self, alloc: Global) -> Result<Rich, NoMemory> {
        Ok(Rich {
            format: self.format,
            text: self.text.try_copy(alloc)?,
        })
    }
}

impl TryCopy for Choice {
    fn try_copy(&self, alloc: Global) -> Result<Choice, NoMemory> {
        Ok(Choice {
            weight: self.weight,
            text: self.text.try_copy(alloc)?,
            feedback: self.feedback.try_copy(alloc)?,
        })
    }
}

impl TryCopy for Pair {
    fn try_copy(&self, alloc: Global) -> Result<Pair, NoMemory> {
        Ok(Pair {
            stem: self.stem.try_copy(alloc)?,
            answer: self.answer.try_copy(alloc)?,
        })
    }
}

impl TryCopy for Short {
    fn try_copy(&self, alloc: Global) -> Result<Short, NoMemory> {
        Ok(Short {
            weight: self.weight,
            pattern: self.pattern.try_copy(alloc)?,
            feedback: self.feedback.try_copy(alloc)?,
        })
    }
}

impl TryCopy for Num {
    fn try_copy(&self, alloc: Global) -> Result<Num, NoMemory> {
        Ok(Num {
            weight: self.weight,
            extent: self.extent,
            feedback: self.feedback.try_copy(alloc)?,
        })
    }
}

impl TryCopy for Kind {
    fn try_copy(&self, alloc: Global) -> Result<Kind, NoMemory> {
        match self {
            Kind::Description => Ok(Kind::Description),
            Kind::Essay => Ok(Kind::Essay),
            Kind::TrueFalse {
                right,
                on_wrong,
                on_right,
            } => Ok(Kind::TrueFalse {
                right: *right,
                on_wrong: on_wrong.try_copy(alloc)?,
                on_right: on_right.try_copy(alloc)?,
            }),
            Kind::One(choices) => Ok(Kind::One(choices.try_copy(alloc)?)),
            Kind::Several(choices) => Ok(Kind::Several(choices.try_copy(alloc)?)),
            Kind::Matching(pairs) => Ok(Kind::Matching(pairs.try_copy(alloc)?)),
            Kind::ShortAnswer(answers) => Ok(Kind::ShortAnswer(answers.try_copy(alloc)?)),
            Kind::Numerical(answers) => Ok(Kind::Numerical(answers.try_copy(alloc)?)),
        }
    }
}

impl TryCopy for Question {
    fn try_copy(&self, alloc: Global) -> Result<Question, NoMemory> {
        Ok(Question {
            name: self.name.try_copy(alloc)?,
            text: self.text.try_copy(alloc)?,
            general: self.general.try_copy(alloc)?,
            kind: self.kind.try_copy(alloc)?,
            penalty: self.penalty,
            hints: self.hints.try_copy(alloc)?,
        })
    }
}

impl TryCopy for Item {
    fn try_copy(&self, alloc: Global) -> Result<Item, NoMemory> {
        Ok(Item {
            category: self.category.try_copy(alloc)?,
            question: self.question.try_copy(alloc)?,
        })
    }
}

impl TryCopy for Bank {
    fn try_copy(&self, alloc: Global) -> Result<Bank, NoMemory> {
        Ok(Bank {
            items: self.items.try_copy(alloc)?,
        })
    }
}
