//! The words of replies, one by one.

ghost use Rattle.std.specs.Prelude.{◌≡◌, [], ◌∷◌, ◌++◌, IsTrue, OnOk, codes, decimal, map, string_bytes};
ghost use Rattle.qz_grading.specs.Canonical.{canonical_question};
ghost use Rattle.qz_grading.specs.Words.{grade_text, mark_text};
ghost use Rattle.qz_pages.specs.Pages.{is_page, page_text};
ghost use Rattle.qz_pages.specs.Shown.{shown_words};
ghost use Rattle.qz_replies.specs.Replies.{done_list, how_word, moment_word, row_word, slot_list, standing_list, status_word};

use gift_write::question_onto;
use qz_decimal::{Grade, Mark};
use qz_grading::{AttemptId, Question, Shape, Spelled, State};
use qz_pages::page;
use qz_terms::{Done, How, Row, Shown, Status};
use qz_text::{Listed, NoMemory, Text};
use qz_wire::{attempt_onto, number_onto, shape_onto, word_onto};

// ---- single words

fn mark_onto(words: &mut Listed<Text>, mark: Shown<Mark>) -> Result<(), NoMemory>
    ensures { OnOk result (words.new ≡ words.old ++ shown_words mark_text mark ∷ []) }
{
    let mut items = String::new(*words.items.allocator());
    qz_pages::mark_onto(&mut items, mark)?;
    Ok(words.items.push(Text { items })?)
}

/// A grade, a dash where there is none, or `hidden`.
fn grade_onto(words: &mut Listed<Text>, grade: Shown<Grade>) -> Result<(), NoMemory>
    ensures { OnOk result (words.new ≡ words.old ++ shown_words grade_text grade ∷ []) }
{
    match grade {
        Shown::None => word_onto(words, "-"),
        Shown::Hidden => word_onto(words, "hidden"),
        Shown::Value(grade) => {
            let text = grade.text(*words.items.allocator())?;
            Ok(words.items.push(text)?)
        }
    }
}

/// A moment, or a dash where there is none.
fn moment_onto(words: &mut Listed<Text>, moment: Option<u64>) -> Result<(), NoMemory>
    ensures { OnOk result (words.new ≡ words.old ++ moment_word moment ∷ []) }
{
    match moment {
        None => word_onto(words, "-"),
        Some(moment) => number_onto(words, moment),
    }
}

/// How an attempt ended.
fn how_word(how: How) -> &'static str
    ensures { result.now ≡ how_word how }
{
    match how {
        How::Finished => "finished",
        How::Abandoned => "abandoned",
    }
}

/// Whether an attempt goes on, or how it ended.
fn status_word(status: Status) -> &'static str
    ensures { result.now ≡ status_word status }
{
    match status {
        Status::Live => "live",
        Status::Finished => "finished",
        Status::Abandoned => "abandoned",
    }
}

/// A row as `USER:GRADE`.
fn row_word_onto(out: &mut String, row: &Row) -> Result<(), NoMemory>
    ensures { OnOk result (string_bytes out.new ≡ string_bytes out.old ++ row_word row.now) }
{
    let user = row.user;
    write!(out, "{user}:")?;
    match row.grade {
        None => Ok(out.push_str("-")?),
        Some(grade) => grade.spell_onto(out),
    }
}

fn row_onto(words: &mut Listed<Text>, row: &Row) -> Result<(), NoMemory>
    ensures { OnOk result (words.new ≡ words.old ++ row_word row.now ∷ []) }
{
    let mut items = String::new(*words.items.allocator());
    row_word_onto(&mut items, row)?;
    Ok(words.items.push(Text { items })?)
}

fn question_word_onto(words: &mut Listed<Text>, question: &Question) -> Result<(), NoMemory>
    ensures { OnOk result (words.new ≡ words.old ++ canonical_question question.now ∷ []) }
{
    let mut items = String::new(*words.items.allocator());
    question_onto(&mut items, question)?;
    Ok(words.items.push(Text { items })?)
}

// ---- several words

/// The state and the mark of a slot.
fn standing_onto(words: &mut Listed<Text>, state: State, mark: Shown<Mark>) -> Result<(), NoMemory>
    ensures { OnOk result (words.new ≡ words.old ++ standing_list state mark) }
{
    word_onto(words, state.word())?;
    mark_onto(words, mark)
}

/// An attempt and one of its slots.
fn slot_onto(words: &mut Listed<Text>, attempt: AttemptId, slot: u16) -> Result<(), NoMemory>
    ensures { OnOk result (words.new ≡ words.old ++ slot_list attempt slot) }
{
    attempt_onto(words, attempt)?;
    number_onto(words, u64::from(slot))
}

/// A word and a number.
fn counted_onto(words: &mut Listed<Text>, front: &str, number: u32) -> Result<(), NoMemory>
    ensures { OnOk result (words.new ≡ words.old ++ front.now ∷ decimal number ∷ []) }
{
    word_onto(words, front)?;
    number_onto(words, u64::from(number))
}

fn rows_onto(words: &mut Listed<Text>, rows: &[Row]) -> Result<(), NoMemory>
    ensures { OnOk result (words.new ≡ words.old ++ map row_word rows.now) }
{
    for row in rows {
        row_onto(words, row)?;
    }
    Ok(())
}

// ---- whole replies

fn started_onto(
    words: &mut Listed<Text>,
    attempt: AttemptId,
    slots: u32,
    due: Option<u64>,
) -> Result<(), NoMemory>
    ensures { OnOk result (words.new ≡ words.old ++ done_list (Done.Started attempt slots due)) }
{
    word_onto(words, "started")?;
    attempt_onto(words, attempt)?;
    number_onto(words, u64::from(slots))?;
    moment_onto(words, due)
}

fn rebound_onto(
    words: &mut Listed<Text>,
    attempt: AttemptId,
    slot: u16,
    state: State,
    mark: Shown<Mark>,
) -> Result<(), NoMemory>
    ensures { OnOk result (words.new ≡ words.old ++ done_list (Done.Rebound attempt slot state mark)) }
{
    word_onto(words, "rebound")?;
    slot_onto(words, attempt, slot)?;
    standing_onto(words, state, mark)
}

fn skipped_onto(
    words: &mut Listed<Text>,
    attempt: AttemptId,
    slot: u16,
    bound: Shape,
    newer: Shape,
) -> Result<(), NoMemory>
    ensures { OnOk result (words.new ≡ words.old ++ done_list (Done.Skipped attempt slot bound newer)) }
{
    word_onto(words, "skipped")?;
    slot_onto(words, attempt, slot)?;
    shape_onto(words, bound)?;
    shape_onto(words, newer)
}

fn settled_onto(words: &mut Listed<Text>, attempt: AttemptId, how: How) -> Result<(), NoMemory>
    ensures { OnOk result (words.new ≡ words.old ++ done_list (Done.Settled attempt how)) }
{
    word_onto(words, "settled")?;
    attempt_onto(words, attempt)?;
    word_onto(words, how_word(how))
}

fn live_onto(words: &mut Listed<Text>, attempt: Option<AttemptId>) -> Result<(), NoMemory>
    ensures { OnOk result (words.new ≡ words.old ++ done_list (Done.Live attempt)) }
{
    word_onto(words, "live")?;
    match attempt {
        None => word_onto(words, "-"),
        Some(attempt) => attempt_onto(words, attempt),
    }
}

fn slot_view_onto(
    words: &mut Listed<Text>,
    state: State,
    mark: Shown<Mark>,
    version: u32,
    steps: u32,
) -> Result<(), NoMemory>
    ensures { OnOk result (words.new ≡ words.old ++ done_list (Done.SlotView state mark version steps)) }
{
    word_onto(words, "slot")?;
    standing_onto(words, state, mark)?;
    number_onto(words, u64::from(version))?;
    number_onto(words, u64::from(steps))
}

fn attempt_view_onto(
    words: &mut Listed<Text>,
    status: Status,
    total: Shown<Mark>,
    due: Option<u64>,
) -> Result<(), NoMemory>
    ensures { OnOk result (words.new ≡ words.old ++ done_list (Done.Attempt status total due)) }
{
    word_onto(words, "attempt")?;
    word_onto(words, status_word(status))?;
    mark_onto(words, total)?;
    moment_onto(words, due)
}

/// A page, whose text is one word.
fn page_onto(words: &mut Listed<Text>, done: &Done) -> Result<(), NoMemory>
    requires { IsTrue (is_page done.now) }
    ensures { OnOk result (words.new ≡ words.old ++ codes "page" ∷ page_text done.now ∷ []) }
{
    word_onto(words, "page")?;
    let page = page(*words.items.allocator(), done)?;
    Ok(words.items.push(page)?)
}

/// The words behind the place.
pub fn done_onto(words: &mut Listed<Text>, done: &Done) -> Result<(), NoMemory>
    ensures { OnOk result (words.new ≡ words.old ++ done_list done.now) }
{
    match done {
        Done::Made { number } => counted_onto(words, "made", *number),
        Done::Done => word_onto(words, "done"),
        Done::Imported { first, count } => {
            counted_onto(words, "imported", *first)?;
            number_onto(words, u64::from(*count))
        }
        Done::Version { entry, version } => {
            counted_onto(words, "version", *entry)?;
            number_onto(words, u64::from(*version))
        }
        Done::Slot { number } => counted_onto(words, "slot", u32::from(*number)),
        Done::Job { number } => counted_onto(words, "job", *number),
        Done::Started {
            attempt,
            slots,
            due,
        } => started_onto(words, *attempt, *slots, *due),
        Done::Stepped { state, mark } => {
            word_onto(words, "step")?;
            standing_onto(words, *state, *mark)
        }
        Done::Same { state, mark } => {
            word_onto(words, "same")?;
            standing_onto(words, *state, *mark)
        }
        Done::Finished { total } => {
            word_onto(words, "finished")?;
            mark_onto(words, *total)
        }
        Done::Marked { state, mark } => {
            word_onto(words, "marked")?;
            standing_onto(words, *state, *mark)
        }
        Done::Rebound {
            attempt,
            slot,
            state,
            mark,
        } => rebound_onto(words, *attempt, *slot, *state, *mark),
        Done::Skipped {
            attempt,
            slot,
            bound,
            newer,
        } => skipped_onto(words, *attempt, *slot, *bound, *newer),
        Done::JobDone { job } => counted_onto(words, "jobdone", *job),
        Done::AlreadyDone { job } => counted_onto(words, "alreadydone", *job),
        Done::Settled { attempt, how } => settled_onto(words, *attempt, *how),
        Done::Idle => word_onto(words, "idle"),
        Done::Live { attempt } => live_onto(words, *attempt),
        Done::Jobs { count } => counted_onto(words, "jobs", *count),
        Done::SlotView {
            state,
            mark,
            version,
            steps,
        } => slot_view_onto(words, *state, *mark, *version, *steps),
        Done::Attempt { status, total, due } => attempt_view_onto(words, *status, *total, *due),
        Done::Page { .. } => page_onto(words, done),
        Done::Grade { grade } => {
            word_onto(words, "grade")?;
            grade_onto(words, *grade)
        }
        Done::Report { rows } => {
            word_onto(words, "report")?;
            rows_onto(words, rows.as_slice())
        }
        Done::Gift { question } => {
            word_onto(words, "gift")?;
            question_word_onto(words, question)
        }
    }
}
