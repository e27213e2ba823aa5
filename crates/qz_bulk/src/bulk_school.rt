//! A large school in memory.

ghost use Rattle.std.specs.Prelude.{◌≡◌, ◌⊎◌, ◌++◌, ◌<◌, ◌≤◌, ◌^◌, [], ◌∷◌, IfOk, MatchResult, None, OnOk, Some, flat_map, fold, length, map, string_bytes, ℤ, pos, neg_ℤ, ◌+ℤ◌, ◌-ℤ◌, ◌≤ℤ◌, ◌-◌};
ghost use Rattle.qz_ending.specs.Endings.{Ended};
ghost use Rattle.qz_grading.specs.Words.{mark_text, units_text};
ghost use Rattle.qz_outside.specs.Causes.{HasRisen};
ghost use Rattle.qz_terms.specs.Lists.{places_to};
ghost use Rattle.qz_terms.specs.Rows.{sum_of};
ghost use Rattle.qz_terms.specs.Serial.{part_list};
ghost use Rattle.qz_solo.specs.Marks.{marks_of};
ghost use Rattle.qz_bulk.specs.Bulk.{BulkEnds, after_line, all_marks, bulk_lines, bulk_text, finish_line, mark_sum, picked, quiz_lines, regrade_lines, save_line, school_of, school_text, slot_line, start_line, student_lines, told_text, user_line, work_lines};

use qz_decimal::Mark;
use qz_ending::Stop;
use qz_grading::{AttemptId, Refusal};
use qz_outside::{Sink, write_all};
use qz_solo::MemorySchool;
use qz_text::{Listed, NoMemory, Text};
use qz_wire::ask_of_line;
use std::alloc::Global;

// ---- what is asked

fn user_line(alloc: Global, student: u32) -> Result<Text, NoMemory>
    ensures { IfOk result (λ line. line ≡ user_line student) }
{
    let items = format!(in alloc; "1000 root u{student} user s{student} student s{student}")?;
    Ok(Text { items })
}

/// The ten questions.
const IMPORT: &str =
    "1000 root bank import Bulk\\s1\\s{T}\\n\\nBulk\\s2\\s{T}\\n\\nBulk\\s3\\s{T}\\n\\nBulk\\s4\\s{T}\\n\\nBulk\\s5\\s{T}\\n\\nBulk\\s6\\s{T}\\n\\nBulk\\s7\\s{T}\\n\\nBulk\\s8\\s{T}\\n\\nBulk\\s9\\s{T}\\n\\nBulk\\s10\\s{T}";

fn slot_line(alloc: Global, slot: u32) -> Result<Text, NoMemory>
    ensures { IfOk result (λ line. line ≡ slot_line slot) }
{
    let items = format!(in alloc; "1000 root slot{slot} slot 1 {slot} 1")?;
    Ok(Text { items })
}

fn start_line(alloc: Global, student: u32) -> Result<Text, NoMemory>
    ensures { IfOk result (λ line. line ≡ start_line student) }
{
    let items = format!(in alloc; "1000 s{student} start start 1")?;
    Ok(Text { items })
}

/// The number of the choice that a student picks in a slot.
fn picked(student: u32, slot: u32) -> u32
    requires few { student ≤ 2000 }
    requires ten { slot ≤ 10 }
    ensures { result ≡ picked student slot }
{
    if (student + slot) % 3 == 0 { 2 } else { 1 }
}

fn save_line(alloc: Global, student: u32, slot: u32) -> Result<Text, NoMemory>
    requires few { student ≤ 2000 }
    requires ten { slot ≤ 10 }
    ensures { IfOk result (λ line. line ≡ save_line student slot) }
{
    let user = student + 1;
    let picked = picked(student, slot);
    let items = format!(in alloc;
        "1000 s{student} save{slot} save {user}.1 {slot} 0 pick:{picked}"
    )?;
    Ok(Text { items })
}

fn finish_line(alloc: Global, student: u32) -> Result<Text, NoMemory>
    requires { student ≤ 2000 }
    ensures { IfOk result (λ line. line ≡ finish_line student) }
{
    let user = student + 1;
    let items = format!(in alloc; "1000 s{student} finish finish {user}.1")?;
    Ok(Text { items })
}

fn added(lines: &mut Listed<Text>, line: Text) -> Result<(), NoMemory>
    ensures { OnOk result (lines.new ≡ lines.old ++ line ∷ []) }
{
    Ok(lines.items.push(line)?)
}

fn users_onto(alloc: Global, lines: &mut Listed<Text>, count: u32) -> Result<(), NoMemory>
    requires { count ≤ 2000 }
    ensures { OnOk result (lines.new ≡ lines.old ++ map user_line (places_to count)) }
{
    for before in 0..count {
        added(lines, user_line(alloc, before + 1)?)?;
    }
    Ok(())
}

fn slots_onto(alloc: Global, lines: &mut Listed<Text>) -> Result<(), NoMemory>
    ensures { OnOk result (lines.new ≡ lines.old ++ map slot_line (places_to 10)) }
{
    for before in 0..10u32 {
        added(lines, slot_line(alloc, before + 1)?)?;
    }
    Ok(())
}

fn quiz_onto(alloc: Global, lines: &mut Listed<Text>) -> Result<(), NoMemory>
    ensures { OnOk result (lines.new ≡ lines.old ++ quiz_lines) }
{
    added(lines, Text::of(alloc, IMPORT)?)?;
    added(
        lines,
        Text::of(alloc, "1000 root quiz quiz Bulk deferredfeedback")?,
    )?;
    slots_onto(alloc, lines)?;
    added(lines, Text::of(alloc, "1000 root ready ready 1")?)?;
    Ok(())
}

fn saves_onto(alloc: Global, lines: &mut Listed<Text>, student: u32) -> Result<(), NoMemory>
    requires { student ≤ 2000 }
    ensures { OnOk result (lines.new ≡ lines.old ++ map (save_line student) (places_to 10)) }
{
    for before in 0..10u32 {
        added(lines, save_line(alloc, student, before + 1)?)?;
    }
    Ok(())
}

fn student_onto(alloc: Global, lines: &mut Listed<Text>, student: u32) -> Result<(), NoMemory>
    requires { student ≤ 2000 }
    ensures { OnOk result (lines.new ≡ lines.old ++ student_lines student) }
{
    added(lines, start_line(alloc, student)?)?;
    saves_onto(alloc, lines, student)?;
    added(lines, finish_line(alloc, student)?)?;
    Ok(())
}

fn students_onto(alloc: Global, lines: &mut Listed<Text>, count: u32) -> Result<(), NoMemory>
    requires { count ≤ 2000 }
    ensures { OnOk result (lines.new ≡ lines.old ++ flat_map student_lines (places_to count)) }
{
    for before in 0..count {
        student_onto(alloc, lines, before + 1)?;
    }
    Ok(())
}

/// The lines that make a school of so many students.
fn bulk_lines(alloc: Global, count: u32) -> Result<Listed<Text>, NoMemory>
    requires { count ≤ 2000 }
    ensures { IfOk result (λ lines. lines ≡ bulk_lines count) }
{
    let mut lines = Listed::empty(alloc);
    users_onto(alloc, &mut lines, count)?;
    quiz_onto(alloc, &mut lines)?;
    students_onto(alloc, &mut lines, count)?;
    Ok(lines)
}

fn works_onto(alloc: Global, lines: &mut Listed<Text>, count: u32) -> Result<(), NoMemory>
    requires { count ≤ 2000 }
    ensures { OnOk result (lines.new ≡ lines.old ++ work_lines count) }
{
    for step in 0..10 * count + 1 {
        added(lines, Text::of(alloc, "1000 root - work 1 0")?)?;
    }
    Ok(())
}

/// The lines that correct the first question and regrade the quiz.
fn regrade_lines(alloc: Global, count: u32) -> Result<Listed<Text>, NoMemory>
    requires { count ≤ 2000 }
    ensures { IfOk result (λ lines. lines ≡ regrade_lines count) }
{
    let mut lines = Listed::empty(alloc);
    added(
        &mut lines,
        Text::of(alloc, "1000 root edit edit 1 Bulk\\s1\\s{F}")?,
    )?;
    added(&mut lines, Text::of(alloc, "1000 root regrade regrade 1")?)?;
    works_onto(alloc, &mut lines, count)?;
    Ok(lines)
}

// ---- what comes of it

/// Answers a line. One without a reading changes nothing.
fn follow(alloc: Global, school: &mut MemorySchool, line: &str) -> Result<(), NoMemory>
    ensures { OnOk result (school.new ≡ after_line school.old line.now) }
{
    match ask_of_line(alloc, line.as_bytes()) {
        Ok((moment, ask)) => school.follow(alloc, &ask, moment),
        Err(Refusal::Malformed { .. }) => Ok(()),
        Err(Refusal::Memory) => Err(NoMemory),
        Err(_) => unreachable!(),
    }
}

/// Answers lines in turn.
#[tactic(auto, using(crate::proofs::BulkLemmas::more_followed))]
fn follow_all(alloc: Global, school: &mut MemorySchool, lines: &[Text]) -> Result<(), NoMemory>
    ensures { OnOk result (school.new ≡ fold after_line school.old lines.now) }
{
    for line in lines {
        follow(alloc, school, line.as_str())?;
    }
    Ok(())
}

/// The school of so many students.
fn school_of(alloc: Global, count: u32) -> Result<MemorySchool, NoMemory>
    requires { count ≤ 2000 }
    ensures school { IfOk result (λ school. school ≡ school_of count) }
    ensures one { IfOk result (λ school. length school.parts ≡ 1) }
{
    let lines = bulk_lines(alloc, count)?;
    let mut school = MemorySchool::founded(alloc, 1, "root")?;
    follow_all(alloc, &mut school, lines.as_slice())?;
    Ok(school)
}

/// Corrects the first question of a school of so many students, and regrades the quiz.
fn regrade(alloc: Global, school: &mut MemorySchool, count: u32) -> Result<(), NoMemory>
    requires few { count ≤ 2000 }
    requires one { length school.old.parts ≡ 1 }
    ensures school { OnOk result (school.new ≡ fold after_line school.old (regrade_lines count)) }
    ensures one { OnOk result (length school.new.parts ≡ 1) }
{
    let lines = regrade_lines(alloc, count)?;
    follow_all(alloc, school, lines.as_slice())
}

/// Adds the marks of an attempt's slots to others, in order.
fn marks_onto(
    alloc: Global,
    school: &mut MemorySchool,
    attempt: AttemptId,
    marks: &mut Listed<Mark>,
) -> Result<(), NoMemory>
    requires one { length school.old.parts ≡ 1 }
    ensures marks { OnOk result (marks.new ≡ marks.old ++ marks_of (part_list school.old 0) attempt) }
    ensures unchanged { school.new ≡ school.old }
{
    school.marks_onto(alloc, attempt, marks)
}

/// The marks of the attempts of so many students.
fn all_marks(alloc: Global, school: &mut MemorySchool, count: u32) -> Result<Listed<Mark>, NoMemory>
    requires few { count ≤ 2000 }
    requires one { length school.old.parts ≡ 1 }
    ensures marks { IfOk result (λ marks. marks ≡ all_marks (part_list school.old 0) count) }
    ensures unchanged { school.new ≡ school.old }
{
    let mut marks = Listed::empty(alloc);
    for before in 0..count {
        let attempt = AttemptId {
            user: before + 2,
            nth: 1,
        };
        marks_onto(alloc, school, attempt, &mut marks)?;
    }
    Ok(marks)
}

/// A sum with one mark more, before it has as many as a list can.
fn plus(sum: i128, mark: Mark) -> i128
    requires least { neg_ℤ (pos (2 ^ 127 - 2 ^ 63)) ≤ℤ sum }
    requires greatest { sum ≤ℤ pos (2 ^ 127 - 2 ^ 63) }
    ensures value { result ≡ sum +ℤ mark }
    ensures least { (sum -ℤ pos (2 ^ 63)) ≤ℤ result }
    ensures greatest { result ≤ℤ (sum +ℤ pos (2 ^ 63)) }
{
    sum + i128::from(mark.0)
}

#[tactic(auto, using(crate::proofs::BulkLemmas::sum_more))]
fn sum_of(marks: &[Mark]) -> i128
    ensures { result ≡ sum_of marks.now }
{
    let mut sum = 0i128;
    for mark in marks {
        sum = plus(sum, *mark);
    }
    sum
}

/// The sum of the marks of the attempts of so many students.
fn mark_sum(alloc: Global, school: &mut MemorySchool, count: u32) -> Result<i128, NoMemory>
    requires few { count ≤ 2000 }
    requires one { length school.old.parts ≡ 1 }
    ensures sum { IfOk result (λ sum. sum ≡ mark_sum school.old count) }
    ensures unchanged { school.new ≡ school.old }
{
    let marks = all_marks(alloc, school, count)?;
    Ok(sum_of(marks.as_slice()))
}

/// The units in a mark of 1.
const UNITS: u128 = 10_000_000;

/// The whole part, a point and seven decimals.
fn units_onto(out: &mut String, units: u128) -> Result<(), NoMemory>
    ensures { OnOk result (string_bytes out.new ≡ string_bytes out.old ++ units_text units) }
{
    let whole = units / UNITS;
    let part = (units % UNITS) as u64;
    write!(out, "{whole}.{part:07}")?;
    Ok(())
}

/// An optional `-`, the whole part, a point and seven decimals.
fn sum_onto(out: &mut String, sum: i128) -> Result<(), NoMemory>
    ensures { OnOk result (string_bytes out.new ≡ string_bytes out.old ++ mark_text sum) }
{
    if sum < 0 {
        out.push_str("-")?;
    }
    units_onto(out, sum.unsigned_abs())
}

/// A sum as a word.
fn sum_word(alloc: Global, sum: i128) -> Result<Text, NoMemory>
    ensures { IfOk result (λ word. word ≡ mark_text sum) }
{
    let mut items = String::new(alloc);
    sum_onto(&mut items, sum)?;
    Ok(Text { items })
}

/// How many students there are, how many records catalogue and shard have, and two sums.
fn told_text(
    alloc: Global,
    count: u32,
    records: u64,
    steps: u64,
    before: &str,
    after: &str,
) -> Result<Text, NoMemory>
    ensures { IfOk result (λ text. text ≡ told_text count records steps before.now after.now) }
{
    let items = format!(in alloc;
        "students {count}\nrecords {records} {steps}\nsum {before} {after}\n"
    )?;
    Ok(Text { items })
}

/// What is told of a school of so many students, whose marks had this sum before its first question was corrected.
fn school_text(
    alloc: Global,
    school: &mut MemorySchool,
    count: u32,
    before: i128,
) -> Result<Text, NoMemory>
    requires few { count ≤ 2000 }
    requires one { length school.old.parts ≡ 1 }
    ensures { IfOk result (λ text. text ≡ school_text count before school.old) }
{
    let records = school.len();
    let steps = school.shard_len(0);
    let after = mark_sum(alloc, school, count)?;
    let before = sum_word(alloc, before)?;
    let after = sum_word(alloc, after)?;
    told_text(
        alloc,
        count,
        records,
        steps,
        before.as_str(),
        after.as_str(),
    )
}

/// What is told of a school of so many students that is regraded now.
fn regraded_text(alloc: Global, school: &mut MemorySchool, count: u32) -> Result<Text, NoMemory>
    requires few { count ≤ 2000 }
    requires school { school.old ≡ school_of count }
    requires one { length school.old.parts ≡ 1 }
    ensures { IfOk result (λ text. text ≡ bulk_text count) }
{
    let before = mark_sum(alloc, school, count)?;
    regrade(alloc, school, count)?;
    school_text(alloc, school, count, before)
}

/// What is told of a school of so many students that is made and regraded.
fn bulk_text(alloc: Global, count: u32) -> Result<Text, NoMemory>
    requires { count ≤ 2000 }
    ensures { IfOk result (λ text. text ≡ bulk_text count) }
{
    // A function of its own gives the text, so that this one has little to say beside the end of the school.
    let mut school = school_of(alloc, count)?;
    regraded_text(alloc, &mut school, count)
}

/// Makes a school of so many students in memory, from 1 to 2,000, regrades it, and writes how many students there are, how many records
/// its catalogue and its one shard have, and the sums of all marks before and after the regrade. Answers the exit status.
///
/// Ten true-false questions stand in one quiz with a slot and a max mark of 1 for each; each student answers all of them, in some slots
/// wrongly, and finishes. Then the first question is corrected, and each slot of each attempt is bound anew. With the status 5 (the sink
/// failed) a front is written, and with 8 (memory was wanting) nothing.
pub fn bulk<O: Sink>(alloc: Global, count: u32, sink: &mut O) -> u8
    requires { count ≤ 2000 }
    ensures ended { Ended (BulkEnds count (O.holds sink.old) (O.holds sink.new) (O.faults sink.old) (O.faults sink.new)) result }
    ensures complete { ¬ HasRisen (O.faults sink.old) (O.faults sink.new) → (result ≡ 0) ⊎ (result ≡ 8) }
{
    match bulk_or_stop(alloc, count, sink) {
        Ok(()) => 0,
        Err(stop) => stop.status(),
    }
}

fn bulk_or_stop<O: Sink>(alloc: Global, count: u32, sink: &mut O) -> Result<(), Stop>
    requires { count ≤ 2000 }
    ensures { let ends = BulkEnds count (O.holds sink.old) (O.holds sink.new) (O.faults sink.old) (O.faults sink.new)
        in MatchResult result (λ _. ends None) (λ stop. ends (Some stop)) }
{
    let text = bulk_text(alloc, count)?;
    if write_all(sink, text.as_bytes()).is_err() {
        return Err(Stop::SinkFault);
    }
    Ok(())
}
