//! An attempt as a page of HTML.

ghost use Rattle.std.specs.Prelude.{◌≡◌, ◌++◌, ◌∷◌, [], IfOk, IsTrue, OnOk, flat_map, map, string_bytes};
ghost use Rattle.qz_terms.specs.Parts.{shows_feedback};
ghost use Rattle.qz_text.specs.Html.{html_of};
ghost use Rattle.qz_pages.specs.Pages.{due_line, ended, feedback_html, feedbacks_html, heading_line, hint_html, is_page, page_text, slot_line, slot_lines, standing_html, title_line};

use crate::dates::due_onto;
use crate::shown::mark_onto;
use qz_grading::{AttemptId, State, attempt_onto};
use qz_terms::{Done, Part};
use qz_text::{NoMemory, Text, escape};
use std::alloc::Global;

/// A text as HTML shows it.
fn text_onto(out: &mut String, text: &Text) -> Result<(), NoMemory>
    ensures { OnOk result (string_bytes out.new ≡ string_bytes out.old ++ html_of text.now) }
{
    let escaped = escape(*out.allocator(), text)?;
    Ok(out.push_str(escaped.as_str())?)
}

// ---- a slot

/// Whether a slot in a state that is shown so has its feedback shown: a graded state, or one that a teacher gave.
fn shows_feedback(state: State) -> bool
    ensures { result ≡ shows_feedback state }
{
    match state {
        State::GradedWrong
        | State::GradedPartial
        | State::GradedRight
        | State::MangrWrong
        | State::MangrPartial
        | State::MangrRight => true,
        State::Todo
        | State::Complete
        | State::Invalid
        | State::NeedsGrading
        | State::Finished
        | State::GaveUp => false,
    }
}

/// The state and the mark.
fn standing_onto(out: &mut String, part: &Part) -> Result<(), NoMemory>
    ensures { OnOk result (string_bytes out.new ≡ string_bytes out.old ++ standing_html part.now) }
{
    let state = part.state.word();
    write!(out, "<p>{state} ")?;
    mark_onto(out, part.mark)?;
    Ok(out.push_str("</p>")?)
}

/// The hint, where there is one.
fn hint_onto(out: &mut String, hint: &Option<Text>) -> Result<(), NoMemory>
    ensures { OnOk result (string_bytes out.new ≡ string_bytes out.old ++ hint_html hint.now) }
{
    match hint {
        None => Ok(()),
        Some(hint) => {
            out.push_str("<p>Hint: ")?;
            text_onto(out, hint)?;
            Ok(out.push_str("</p>")?)
        }
    }
}

/// A paragraph for a text that isn't empty.
fn feedback_onto(out: &mut String, text: &Text) -> Result<(), NoMemory>
    ensures { OnOk result (string_bytes out.new ≡ string_bytes out.old ++ feedback_html text.now) }
{
    if text.as_str().is_empty() {
        return Ok(());
    }
    out.push_str("<p>")?;
    text_onto(out, text)?;
    Ok(out.push_str("</p>")?)
}

fn feedback_texts_onto(out: &mut String, texts: &[Text]) -> Result<(), NoMemory>
    ensures { OnOk result (string_bytes out.new ≡ string_bytes out.old ++ flat_map feedback_html texts.now) }
{
    for text in texts {
        feedback_onto(out, text)?;
    }
    Ok(())
}

/// The feedbacks and the general feedback, where the state shows them.
fn feedbacks_onto(out: &mut String, part: &Part) -> Result<(), NoMemory>
    ensures { OnOk result (string_bytes out.new ≡ string_bytes out.old ++ feedbacks_html part.now) }
{
    if !shows_feedback(part.state) {
        return Ok(());
    }
    feedback_texts_onto(out, part.feedback.as_slice())?;
    feedback_onto(out, &part.general)
}

fn slot_onto(out: &mut String, part: &Part) -> Result<(), NoMemory>
    ensures { OnOk result (string_bytes out.new ≡ string_bytes out.old ++ slot_line part.now) }
{
    out.push_str("<li><pre>")?;
    text_onto(out, &part.text)?;
    out.push_str("</pre>")?;
    standing_onto(out, part)?;
    hint_onto(out, &part.hint)?;
    feedbacks_onto(out, part)?;
    Ok(out.push_str("</li>")?)
}

// ---- a page

fn title_onto(out: &mut String, quiz: &Text) -> Result<(), NoMemory>
    ensures { OnOk result (string_bytes out.new ≡ string_bytes out.old ++ ended (title_line quiz.now ∷ [])) }
{
    out.push_str("<title>")?;
    text_onto(out, quiz)?;
    Ok(out.push_str("</title>\n")?)
}

fn heading_onto(out: &mut String, attempt: AttemptId, quiz: &Text) -> Result<(), NoMemory>
    ensures { OnOk result (string_bytes out.new
        ≡ string_bytes out.old ++ ended (heading_line attempt quiz.now ∷ [])) }
{
    out.push_str("<h1>")?;
    text_onto(out, quiz)?;
    out.push_str(": attempt ")?;
    attempt_onto(out, attempt)?;
    Ok(out.push_str("</h1>\n")?)
}

fn due_line_onto(out: &mut String, due: Option<u64>) -> Result<(), NoMemory>
    ensures { OnOk result (string_bytes out.new ≡ string_bytes out.old ++ ended (due_line due ∷ [])) }
{
    out.push_str("<p>Due ")?;
    due_onto(out, due)?;
    Ok(out.push_str("</p>\n")?)
}

/// A line for each slot.
fn parts_onto(out: &mut String, parts: &[Part]) -> Result<(), NoMemory>
    ensures { OnOk result (string_bytes out.new ≡ string_bytes out.old ++ ended (map slot_line parts.now)) }
{
    for part in parts {
        slot_onto(out, part)?;
        out.push_str("\n")?;
    }
    Ok(())
}

fn slots_onto(out: &mut String, parts: &[Part]) -> Result<(), NoMemory>
    ensures { OnOk result (string_bytes out.new ≡ string_bytes out.old ++ ended (slot_lines parts.now)) }
{
    out.push_str("<ol>\n")?;
    parts_onto(out, parts)?;
    Ok(out.push_str("</ol>\n")?)
}

/// The page of an attempt, as HTML in UTF-8: the quiz's name, the attempt, when it is due in UTC, and for each slot the
/// question's text, the state and the mark as they are shown, the hint where there is one, and the feedbacks where that state
/// shows them. Texts stand in it as [`escape`] leaves them. Only want of memory is an error.
pub fn page(alloc: Global, done: &Done) -> Result<Text, NoMemory>
    requires { IsTrue (is_page done.now) }
    ensures { IfOk result (λ text. text ≡ page_text done.now) }
{
    let Done::Page {
        attempt,
        quiz,
        due,
        parts,
    } = done
    else {
        unreachable!()
    };
    let mut items = String::from_str(alloc, "<!doctype html>\n")?;
    title_onto(&mut items, quiz)?;
    heading_onto(&mut items, *attempt, quiz)?;
    due_line_onto(&mut items, *due)?;
    slots_onto(&mut items, parts.as_slice())?;
    Ok(Text { items })
}
