//! Whether questions are the same as values. A comparison takes no memory.

ghost use Rattle.std.specs.Prelude.{◌≡◌, Bool, zip, bytes_eq};
ghost use Rattle.std.specs.List.{list_all};
ghost use Rattle.qz_grading.specs.Sameness.{all_same, same_rich, same_choice, same_pair, same_short, same_extent, same_num, same_kind, same_question, same_item, same_bank};
ghost use Rattle.qz_grading.specs.Canonical.{same_texts};

use crate::question::{Bank, Choice, Extent, Format, Item, Kind, Num, Pair, Question, Rich, Short};
use qz_text::Text;

/// What is compared by its parts.
trait Same {
    ghost same: { Self → Self → Bool };

    fn is_same(&self, other: &Self) -> bool
        ensures { result ≡ same self.now other.now };
}

/// Whether the items at the same places are the same.
fn are_same<S: Same>(one: &[S], other: &[S]) -> bool
    ensures { result ≡ list_all (λ (p : S × S). S.same p.0 p.1) (zip one.now other.now) }
{
    one.iter()
        .zip(other)
        .all(|(item, opposite)| item.is_same(opposite))
}

/// As many items, each the same as the one at its place.
fn all_same<S: Same>(one: &[S], other: &[S]) -> bool
    ensures { result ≡ all_same S.same one.now other.now }
{
    one.len() == other.len() && are_same(one, other)
}

impl Same for Text {
    ghost same = { bytes_eq };

    fn is_same(&self, other: &Text) -> bool {
        self.as_bytes() == other.as_bytes()
    }
}

fn same_rich(one: &Rich, other: &Rich) -> bool
    ensures { result ≡ same_rich one.now other.now }
{
    one.format == other.format && one.text.as_bytes() == other.text.as_bytes()
}

impl Same for Choice {
    ghost same = { same_choice };

    fn is_same(&self, other: &Choice) -> bool {
        self.weight.0 == other.weight.0
            && same_rich(&self.text, &other.text)
            && same_rich(&self.feedback, &other.feedback)
    }
}

impl Same for Pair {
    ghost same = { same_pair };

    fn is_same(&self, other: &Pair) -> bool {
        same_rich(&self.stem, &other.stem) && self.answer.as_bytes() == other.answer.as_bytes()
    }
}

impl Same for Short {
    ghost same = { same_short };

    fn is_same(&self, other: &Short) -> bool {
        self.weight.0 == other.weight.0
            && self.pattern.text().as_bytes() == other.pattern.text().as_bytes()
            && same_rich(&self.feedback, &other.feedback)
    }
}

fn same_extent(one: &Extent, other: &Extent) -> bool
    ensures { result ≡ same_extent one.now other.now }
{
    match (one, other) {
        (Extent::Any, Extent::Any) => true,
        (
            Extent::Near { centre, slack },
            Extent::Near {
                centre: middle,
                slack: width,
            },
        ) => centre.0 == middle.0 && slack.0 == width.0,
        (
            Extent::Between { low, high },
            Extent::Between {
                low: least,
                high: most,
            },
        ) => low.0 == least.0 && high.0 == most.0,
        _ => false,
    }
}

impl Same for Num {
    ghost same = { same_num };

    fn is_same(&self, other: &Num) -> bool {
        self.weight.0 == other.weight.0
            && same_extent(&self.extent, &other.extent)
            && same_rich(&self.feedback, &other.feedback)
    }
}

fn same_kind(one: &Kind, other: &Kind) -> bool
    ensures { result ≡ same_kind one.now other.now }
{
    match (one, other) {
        (Kind::Description, Kind::Description) | (Kind::Essay, Kind::Essay) => true,
        (
            Kind::TrueFalse {
                right,
                on_wrong,
                on_right,
            },
            Kind::TrueFalse {
                right: true_is_right,
                on_wrong: wrong,
                on_right: correct,
            },
        ) => {
            right == true_is_right && same_rich(on_wrong, wrong) && same_rich(on_right, correct)
        }
        (Kind::One(one), Kind::One(other)) | (Kind::Several(one), Kind::Several(other)) => {
            all_same(one.as_slice(), other.as_slice())
        }
        (Kind::Matching(one), Kind::Matching(other)) => all_same(one.as_slice(), other.as_slice()),
        (Kind::ShortAnswer(one), Kind::ShortAnswer(other)) => {
            all_same(one.as_slice(), other.as_slice())
        }
        (Kind::Numerical(one), Kind::Numerical(other)) => {
            all_same(one.as_slice(), other.as_slice())
        }
        _ => false,
    }
}

/// Whether two lists of texts are the same.
pub fn same_texts(one: &[Text], other: &[Text]) -> bool
    ensures { result ≡ same_texts one.now other.now }
{
    all_same(one, other)
}

/// Whether two questions are the same, with their penalties and hints.
pub fn same_question(one: &Question, other: &Question) -> bool
    ensures { result ≡ same_question one.now other.now }
{
    one.name.as_bytes() == other.name.as_bytes()
        && same_rich(&one.text, &other.text)
        && same_rich(&one.general, &other.general)
        && same_kind(&one.kind, &other.kind)
        && one.penalty.0 == other.penalty.0
        && same_texts(one.hints.as_slice(), other.hints.as_slice())
}

impl Same for Item {
    ghost same = { same_item };

    fn is_same(&self, other: &Item) -> bool {
        same_texts(self.category.as_slice(), other.category.as_slice())
            && same_question(&self.question, &other.question)
    }
}

/// Whether two banks have the same questions in the same categories, in the same order.
pub fn same_bank(one: &Bank, other: &Bank) -> bool
    ensures { result ≡ same_bank one.now other.now }
{
    all_same(one.items.as_slice(), other.items.as_slice())
}
