//! Which responses fit a question, which of them are complete, and which can be graded.

ghost use Rattle.std.specs.Prelude.{◌≡◌, nat_le};
ghost use Rattle.std.specs.List.{list_all, list_any};
ghost use Rattle.qz_grading.specs.declared.question.Kind.TheVariants as kind;
ghost use Rattle.qz_grading.specs.declared.response.Answer.TheVariants as answer;
ghost use Rattle.qz_grading.specs.Grading.{fits, answer_fits, certainty_fits, is_place, ascend_from, are_places, is_chosen, complete_answer, complete, gradable, is_number};

use crate::matching::{answer_count, stem_count};
use crate::{Answer, Behaviour, Kind, Pair, Question, Response};
use qz_decimal::Decimal;
use qz_text::Typed;

/// Whether a response fits a question under a behaviour. A blank answer fits every kind but a description. Certainty is 0 to
/// 3, and 0 where the behaviour doesn't ask for it.
pub fn fits(question: &Question, response: &Response, behaviour: Behaviour) -> bool
    ensures { result ≡ fits question.now response.now behaviour }
{
    answer_fits(&question.kind, &response.answer) && certainty_fits(behaviour, response.certainty)
}

pub(crate) fn answer_fits(kind: &Kind, answer: &Answer) -> bool
    ensures { result ≡ answer_fits kind.now answer.now }
{
    match (kind, answer) {
        (Kind::Description, _) => false,
        (_, Answer::Blank) => true,
        (Kind::TrueFalse { .. }, Answer::Pick(place)) => is_place(2, *place),
        (Kind::One(choices), Answer::Pick(place)) => is_place(choices.as_slice().len(), *place),
        (Kind::Several(choices), Answer::Picks(places)) => {
            are_places(choices.as_slice().len(), places.as_slice())
        }
        (Kind::Matching(pairs), Answer::Match(chosen)) => {
            match_fits(pairs.as_slice(), chosen.as_slice())
        }
        (Kind::Essay | Kind::ShortAnswer(_) | Kind::Numerical(_), Answer::Words(_)) => true,
        _ => false,
    }
}

/// Whether a place, from 1, is one of so many.
fn is_place(count: usize, place: u8) -> bool
    ensures { result ≡ is_place count place }
{
    1 <= place && usize::from(place) <= count
}

/// Whether places, at least one, ascend and are of so many.
fn are_places(count: usize, places: &[u8]) -> bool
    ensures { result ≡ are_places count places.now }
{
    !places.is_empty() && ascend(places) && are_within(count, places)
}

/// Whether each number is greater than the one before, and the first greater than 0.
fn ascend(places: &[u8]) -> bool
    ensures { result ≡ ascend_from 0 places.now }
{
    let mut low = 0;
    let mut rest = places;
    while let [place, after @ ..] = rest {
        if *place <= low {
            return false;
        }
        low = *place;
        rest = after;
    }
    true
}

fn are_within(count: usize, places: &[u8]) -> bool
    ensures { result ≡ list_all (is_place count) places.now }
{
    places.iter().all(|place| is_place(count, *place))
}

/// Whether there is one number for each stem, and each is 0 or the place of an answer.
fn match_fits(pairs: &[Pair], chosen: &[u8]) -> bool
    ensures { result ≡ answer_fits (kind.Matching pairs.now) (answer.Match chosen.now) }
{
    chosen.len() == stem_count(pairs) && are_at_most(answer_count(pairs), chosen)
}

fn are_at_most(count: usize, chosen: &[u8]) -> bool
    ensures { result ≡ list_all (λ n. nat_le n count) chosen.now }
{
    chosen.iter().all(|place| usize::from(*place) <= count)
}

fn certainty_fits(behaviour: Behaviour, certainty: u8) -> bool
    ensures { result ≡ certainty_fits behaviour certainty }
{
    if behaviour.asks_certainty() {
        certainty <= 3
    } else {
        certainty == 0
    }
}

/// Whether an answer is complete: picked, an answer chosen for each stem and no number beside, or something typed beside white
/// space, and for a numerical question a number. A blank answer never is, nor any answer to a description.
pub fn complete(question: &Question, response: &Response) -> bool
    ensures { result ≡ complete question.now response.now }
{
    match (&question.kind, &response.answer) {
        (Kind::TrueFalse { .. } | Kind::One(_), Answer::Pick(_)) => true,
        (Kind::Several(_), Answer::Picks(_)) => true,
        (Kind::Matching(pairs), Answer::Match(chosen)) => {
            all_chosen(pairs.as_slice(), chosen.as_slice())
        }
        (Kind::Essay | Kind::ShortAnswer(_), Answer::Words(typed)) => !typed.is_blank(),
        (Kind::Numerical(_), Answer::Words(typed)) => is_number(typed),
        _ => false,
    }
}

/// Whether an answer can be graded at the end. A matching question can where some stem is chosen, and every other where its
/// answer is complete.
pub fn gradable(question: &Question, response: &Response) -> bool
    ensures { result ≡ gradable question.now response.now }
{
    match (&question.kind, &response.answer) {
        (Kind::Matching(_), Answer::Match(chosen)) => some_chosen(chosen.as_slice()),
        _ => complete(question, response),
    }
}

/// Whether there is one number for each stem, and for each an answer is chosen.
fn all_chosen(pairs: &[Pair], chosen: &[u8]) -> bool
    ensures { result ≡ complete_answer (kind.Matching pairs.now) (answer.Match chosen.now) }
{
    chosen.len() == stem_count(pairs) && are_chosen(chosen)
}

fn are_chosen(chosen: &[u8]) -> bool
    ensures { result ≡ list_all is_chosen chosen.now }
{
    chosen.iter().all(|place| *place > 0)
}

fn some_chosen(chosen: &[u8]) -> bool
    ensures { result ≡ list_any is_chosen chosen.now }
{
    chosen.iter().any(|place| *place > 0)
}

/// Whether a number is typed, by the rule for numbers of questions.
fn is_number(typed: &Typed) -> bool
    ensures { result ≡ is_number typed.now }
{
    Decimal::read(typed.text().as_bytes()).is_some()
}
