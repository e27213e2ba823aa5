//! The feedback of a response: of the choice picked, of each choice picked in order, of the first answer that fits, or of the
//! right or the wrong side. Moodle's manual page "Question types" describes each.

ghost use Rattle.std.specs.Prelude.{◌≡◌, ◌∷◌, ◌++◌, [], filter, find, map, IfOk, IsTrue, OnOk};
ghost use Rattle.std.specs.Option.{option_copied};
ghost use Rattle.qz_grading.specs.declared.question.Short.{Short};
ghost use Rattle.qz_grading.specs.declared.response.Answer.TheVariants as answer;
ghost use Rattle.qz_text.specs.Patterns.{pattern_fits};
ghost use Rattle.qz_grading.specs.Grading.{at_place};
ghost use Rattle.qz_grading.specs.Questions.{has_numbers_in_range, IsQuestion};
ghost use Rattle.qz_terms.specs.Parts.{choice_feedback, feedbacks, feedbacks_by, nonempty};
ghost use Rattle.qz_looks.specs.Pages.{alone};

use qz_decimal::Decimal;
use qz_grading::{Answer, Choice, Kind, Question, Response, Rich, Short, first_taking};
use qz_text::{Listed, NoMemory, Text, TryCopy, Typed};
use std::alloc::Global;

/// The choice at a place, from 1.
fn choice_at(choices: &[Choice], place: u8) -> Option<&Choice>
    ensures { option_copied result ≡ at_place choices.now place }
{
    choices.get(usize::from(place).checked_sub(1)?)
}

/// The feedback of a place that is picked.
fn of_pick(kind: &Kind, place: u8) -> Option<&Rich>
    ensures { alone (option_copied result) ≡ filter nonempty (feedbacks_by kind.now (answer.Pick place)) }
{
    match kind {
        Kind::TrueFalse {
            right,
            on_wrong,
            on_right,
        } => Some(if (place == 1) == *right {
            on_right
        } else {
            on_wrong
        }),
        Kind::One(choices) => Some(&choice_at(choices.as_slice(), place)?.feedback),
        Kind::Description
        | Kind::Essay
        | Kind::Several(_)
        | Kind::Matching(_)
        | Kind::ShortAnswer(_)
        | Kind::Numerical(_) => None,
    }
}

/// The first answer whose pattern the typed text fits.
fn first_fitting<'a>(answers: &'a [Short], typed: &Typed) -> Option<&'a Short>
    ensures { option_copied result ≡ find (λ (a : Short). pattern_fits a.pattern typed.now) answers.now }
{
    answers.iter().find(|answer| answer.pattern.fits(typed))
}

/// The feedback of a text that is typed.
fn of_words<'a>(kind: &'a Kind, typed: &Typed) -> Option<&'a Rich>
    requires { IsTrue (has_numbers_in_range kind.now) }
    ensures { alone (option_copied result) ≡ filter nonempty (feedbacks_by kind.now (answer.Words typed.now)) }
{
    match kind {
        Kind::ShortAnswer(answers) => Some(&first_fitting(answers.as_slice(), typed)?.feedback),
        Kind::Numerical(answers) => {
            let number = Decimal::read(typed.text().as_bytes())?;
            Some(&first_taking(answers.as_slice(), number)?.feedback)
        }
        Kind::Description
        | Kind::Essay
        | Kind::TrueFalse { .. }
        | Kind::One(_)
        | Kind::Several(_)
        | Kind::Matching(_) => None,
    }
}

/// Puts a copy of a text at the end, unless the text is empty.
fn push_nonempty(alloc: Global, items: &mut Vec<Text>, text: &Text) -> Result<(), NoMemory>
    ensures { OnOk result (items.new.items ≡ items.old.items ++ filter nonempty (text.now ∷ [])) }
{
    if !text.as_bytes().is_empty() {
        items.push(text.try_copy(alloc)?)?;
    }
    Ok(())
}

/// One feedback, if it is there and isn't empty.
fn told(alloc: Global, feedback: Option<&Rich>) -> Result<Listed<Text>, NoMemory>
    ensures { IfOk result (λ texts. texts ≡ alone (option_copied feedback.entry)) }
{
    let mut items = Vec::new(alloc);
    if let Some(feedback) = feedback {
        push_nonempty(alloc, &mut items, &feedback.text)?;
    }
    Ok(Listed { items })
}

/// The feedback of each choice picked, in order.
fn of_choices(alloc: Global, choices: &[Choice], places: &[u8]) -> Result<Listed<Text>, NoMemory>
    ensures { IfOk result (λ texts. texts ≡ filter nonempty (map (choice_feedback choices.now) places.now)) }
{
    let mut items = Vec::new(alloc);
    for place in places {
        if let Some(choice) = choice_at(choices, *place) {
            push_nonempty(alloc, &mut items, &choice.feedback.text)?;
        }
    }
    Ok(Listed { items })
}

/// The feedback of several places that are picked.
fn of_picks(alloc: Global, kind: &Kind, places: &[u8]) -> Result<Listed<Text>, NoMemory>
    ensures { IfOk result (λ texts. texts ≡ filter nonempty (feedbacks_by kind.now (answer.Picks places.now))) }
{
    match kind {
        Kind::Several(choices) => of_choices(alloc, choices.as_slice(), places),
        Kind::Description
        | Kind::Essay
        | Kind::TrueFalse { .. }
        | Kind::One(_)
        | Kind::Matching(_)
        | Kind::ShortAnswer(_)
        | Kind::Numerical(_) => Ok(Listed::empty(alloc)),
    }
}

/// The feedbacks of a response, without the empty ones.
pub(crate) fn feedbacks(
    alloc: Global,
    question: &Question,
    response: &Response,
) -> Result<Listed<Text>, NoMemory>
    requires { IsQuestion question.now }
    ensures { IfOk result (λ texts. texts ≡ feedbacks question.now response.now) }
{
    match &response.answer {
        Answer::Blank | Answer::Match(_) => Ok(Listed::empty(alloc)),
        Answer::Pick(place) => told(alloc, of_pick(&question.kind, *place)),
        Answer::Picks(places) => of_picks(alloc, &question.kind, places.as_slice()),
        Answer::Words(typed) => told(alloc, of_words(&question.kind, typed)),
    }
}
