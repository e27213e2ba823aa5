//! Stems and answers of matching questions.
//!
//! The stems are those of the pairs whose stem isn't blank. The answers to choose from are the distinct answers of all pairs,
//! in order of first appearance.

ghost use Rattle.std.specs.Prelude.{◌≡◌, ◌≤◌, length, count_by, zip, bytes_eq};
ghost use Rattle.std.specs.List.{list_any, list_all};
ghost use Rattle.std.specs.Option.{option_copied};
ghost use Rattle.qz_grading.specs.declared.question.Pair.{Pair};
ghost use Rattle.qz_grading.specs.Grading.{is_blank, is_chosen, stems, answers, at_place, is_right_stem, right_stems};

use crate::Pair;
use qz_decimal::is_space;
use qz_text::Text;

/// Whether a text of a question is blank. Its white space is space, tab and line feed.
pub(crate) fn is_blank(text: &Text) -> bool
    ensures { result ≡ is_blank text.now }
{
    text.as_bytes().iter().all(|byte| is_space(*byte))
}

/// How many stems there are.
pub(crate) fn stem_count(pairs: &[Pair]) -> usize
    ensures value { result ≡ length (stems pairs.now) }
    ensures few { result ≤ length pairs.now }
{
    pairs
        .iter()
        .filter(|pair| !is_blank(&pair.stem.text))
        .count()
}

/// Whether one of these pairs has the answer.
fn has_answer(pairs: &[Pair], answer: &Text) -> bool
    ensures { result ≡ list_any (λ (p : Pair). bytes_eq p.answer answer.now) pairs.now }
{
    pairs
        .iter()
        .any(|pair| pair.answer.as_bytes() == answer.as_bytes())
}

/// How many answers there are to choose from.
pub(crate) fn answer_count(pairs: &[Pair]) -> usize
    ensures value { result ≡ length (answers pairs.now) }
    ensures few { result ≤ length pairs.now }
{
    let mut count = 0;
    for (index, pair) in pairs.iter().enumerate() {
        if !has_answer(&pairs[..index], &pair.answer) {
            count += 1;
        }
    }
    count
}

/// The answer at a place, from 1.
fn answer_at(pairs: &[Pair], place: u8) -> Option<&Text>
    ensures { option_copied result ≡ at_place (answers pairs.now) place }
{
    let mut count = 0;
    for (index, pair) in pairs.iter().enumerate() {
        if !has_answer(&pairs[..index], &pair.answer) {
            count += 1;
            if count == usize::from(place) {
                return Some(&pair.answer);
            }
        }
    }
    None
}

/// Whether the answer chosen for a stem is its own.
fn is_right_stem(pairs: &[Pair], stem: &Pair, place: u8) -> bool
    ensures { result ≡ is_right_stem (answers pairs.now) (stem.now, place) }
{
    match answer_at(pairs, place) {
        Some(answer) => stem.answer.as_bytes() == answer.as_bytes(),
        None => false,
    }
}

/// How many stems have their own answer chosen.
pub(crate) fn right_stems(pairs: &[Pair], chosen: &[u8]) -> usize
    ensures value { result ≡ right_stems pairs.now chosen.now }
    ensures few { result ≤ length chosen.now }
{
    pairs
        .iter()
        .filter(|pair| !is_blank(&pair.stem.text))
        .zip(chosen)
        .filter(|(stem, place)| is_right_stem(pairs, stem, **place))
        .count()
}
