//! Quizzes by number.

ghost use Rattle.std.specs.Prelude.{◌≡◌, ◌+◌, ◌<◌, ◌≤◌, List, [], ◌∷◌, ◌++◌, length, map, true, Some, None, is_some, option_copied, option_map, option_to_list, unwrap_or, ℕ, OnOk, vec_len, vec_capacity};
ghost use Rattle.std.specs.Option.{option_or};
ghost use Rattle.qz_grading.specs.Grading.{at_place, is_place};
ghost use Rattle.qz_terms.specs.declared.record.Record.{Record};
ghost use Rattle.qz_terms.specs.Catalog.{asked, quiz_by, quizzes, remax_by, slot_by};
ghost use Rattle.qz_roster.specs.Told.{named_in};
ghost use Rattle.qz_roster.specs.Quizzes.{anew_at, has_its_slot, has_slot_room, made};
ghost use Rattle.qz_terms.specs.Catalog as catalog;

use crate::told::{Named, policy_by, quiz_by, quiz_told, readies, slot_by, times_by};
use qz_decimal::{Grade, Mark};
use qz_terms::{Event, Method, Record, Request, Settings};
use qz_text::NoMemory;
use std::alloc::Global;

/// A slot: its entry, the max mark (in 10^-7) that it was made with, and the one that it got anew last.
#[derive(Clone, Copy)]
pub struct Slot {
    pub entry: u32,
    pub first: Mark,
    pub anew: Option<Mark>,
}

impl Slot {
    /// The max mark (in 10^-7).
    pub fn max(&self) -> Mark
        ensures { result ≡ unwrap_or self.now.anew self.now.first }
    {
        self.anew.unwrap_or(self.first)
    }
}

/// A slot that a record makes at a quiz comes last.
fn make_slot(slots: &mut Vec<Slot>, quiz: u32, record: &Record)
    requires { has_slot_room (vec_len slots.old) (vec_capacity slots.old) (asked «record».now) ≡ true }
    ensures made { map made slots.new.items ≡ map made slots.old.items ++ option_to_list (slot_by quiz (asked «record».now)) }
    ensures anew { (k : ℕ) → anew_at slots.new.items k ≡ anew_at slots.old.items k }
{
    if let Some((entry, first)) = slot_by(quiz, record) {
        let slot = Slot {
            entry,
            first,
            anew: None,
        };
        slots.push(slot).unwrap();
    }
}

/// A slot of a quiz to which a record gives a new max mark has it.
fn renew_slot(slots: &mut Vec<Slot>, quiz: u32, record: &Record)
    requires { has_its_slot (length slots.old.items) (asked «record».now) ≡ true }
    ensures count { vec_len slots.new ≡ vec_len slots.old }
    ensures capacity { vec_capacity slots.new ≡ vec_capacity slots.old }
    ensures made { map made slots.new.items ≡ map made slots.old.items }
    ensures anew { (k : ℕ) → anew_at slots.new.items k ≡ option_or (remax_by quiz k (asked «record».now)) (anew_at slots.old.items k) }
{
    match &record.event {
        Event::Asked {
            request: Request::Remax {
                quiz: other,
                slot,
                max,
            },
        } if *other == quiz => slots[usize::from(*slot) - 1].anew = Some(*max),
        _ => {}
    }
}

/// A quiz: the place, from 0, of the record that made it, its slots in order, the place of the record that made it ready, and the
/// times and the terms of its grade that were set last.
#[derive(Drop)]
pub struct Quiz {
    pub at: usize,
    pub slots: Vec<Slot>,
    pub ready: Option<usize>,
    pub times: Option<Settings>,
    pub terms: Option<(Method, Grade)>,
}

impl Quiz {
    ghost use Rattle.qz_roster.specs.Quizzes.{TellsMore, has_its_slot, slot_room, told, untold};

    /// A new quiz, whose record has this place. It takes no memory.
    fn new(alloc: Global, at: usize) -> Quiz
        ensures at { result.at ≡ at }
        ensures untold { told result ≡ untold }
    {
        Quiz {
            at,
            slots: Vec::new(alloc),
            ready: None,
            times: None,
            terms: None,
        }
    }

    /// Makes room for what a record tells.
    fn make_room(&mut self, record: &Record) -> Result<(), NoMemory>
        ensures at { self.new.at ≡ self.old.at }
        ensures told { told self.new ≡ told self.old }
        ensures room { OnOk result (slot_room (asked «record».now) self.new ≡ true) }
    {
        self.slots.reserve(1)?;
        Ok(())
    }

    /// Keeps what a record tells of this quiz, whose number it is. It takes no memory.
    fn tell(&mut self, number: u32, place: usize, record: &Record)
        requires room { slot_room (asked «record».now) self.old ≡ true }
        requires there { has_its_slot (length self.old.slots.items) (asked «record».now) ≡ true }
        ensures at { self.new.at ≡ self.old.at }
        ensures told { TellsMore number place «record».now (told self.old) (told self.new) }
    {
        if readies(number, record) {
            self.ready = self.ready.or(Some(place));
        }
        self.times = times_by(number, record).or(self.times);
        self.terms = policy_by(number, record).or(self.terms);
        renew_slot(&mut self.slots, number, record);
        make_slot(&mut self.slots, number, record);
    }
}

/// All quizzes, in order of number.
#[derive(Drop)]
pub struct Quizzes {
    quizzes: Vec<Quiz>,
}

impl Quizzes {
    ghost use Rattle.qz_roster.specs.Quizzes.{AreQuizzesOf, HasQuizRoom, HasToldRoom, TellsMore, places, quiz_at, quiz_told, slot_room, told_at};

    /// No quizzes. It takes no memory.
    pub(crate) fn new(alloc: Global) -> Quizzes
        ensures { AreQuizzesOf [] result }
    {
        Quizzes {
            quizzes: Vec::new(alloc),
        }
    }

    /// How many quizzes there are.
    pub fn count(&self) -> usize
        ensures value { (c : List Record) → AreQuizzesOf c self.now → result ≡ length (quizzes c) }
        ensures few { (c : List Record) → AreQuizzesOf c self.now → result ≤ length c }
    {
        self.quizzes.len()
    }

    /// The quiz that has this number.
    pub fn quiz(&self, number: u32) -> Option<&Quiz>
        ensures { option_copied result ≡ quiz_at self.now number }
    {
        self.quizzes.get((number as usize).checked_sub(1)?)
    }

    /// The name and behaviour of the quiz that has this number, by the records that made the quizzes.
    pub fn named<'a>(&self, records: &'a [Record], number: u32) -> Option<Named<'a>>
        requires { AreQuizzesOf records.now self.now }
        ensures { option_map named_in result ≡ at_place (quizzes records.now) number }
    {
        let quiz = self.quiz(number)?;
        quiz_by(&records[quiz.at])
    }

    /// Makes room for what a record tells.
    pub(crate) fn make_room(&mut self, record: &Record) -> Result<(), NoMemory>
        requires { (q : ℕ) → quiz_told (asked «record».now) ≡ Some q → is_place (length self.old.quizzes.items) q ≡ true }
        ensures room { OnOk result (HasQuizRoom self.new (asked «record».now)) }
        ensures places { places self.new ≡ places self.old }
        ensures told { (q : ℕ) → told_at self.new q ≡ told_at self.old q }
    {
        self.make_told_room(record)?;
        self.make_quiz_room(record)
    }

    fn make_told_room(&mut self, record: &Record) -> Result<(), NoMemory>
        requires { (q : ℕ) → quiz_told (asked «record».now) ≡ Some q → is_place (length self.old.quizzes.items) q ≡ true }
        ensures room { OnOk result ((q : ℕ) → quiz_told (asked «record».now) ≡ Some q → option_map (slot_room (asked «record».now)) (quiz_at self.new q) ≡ Some true) }
        ensures places { places self.new ≡ places self.old }
        ensures told { (q : ℕ) → told_at self.new q ≡ told_at self.old q }
    {
        match quiz_told(record) {
            Some(number) => self.quizzes[number as usize - 1].make_room(record),
            None => Ok(()),
        }
    }

    fn make_quiz_room(&mut self, record: &Record) -> Result<(), NoMemory>
        ensures room { OnOk result (is_some (quiz_by (asked «record».now)) ≡ true → vec_len self.new.quizzes < vec_capacity self.new.quizzes) }
        ensures quizzes { self.new.quizzes.items ≡ self.old.quizzes.items }
    {
        if let Some(_) = quiz_by(record) {
            self.quizzes.reserve(1)?;
        }
        Ok(())
    }

    /// Keeps what a record tells that is to stand behind these. It takes no memory.
    pub(crate) fn keep(&mut self, alloc: Global, records: &[Record], record: &Record)
        requires quizzes { AreQuizzesOf records.now self.old }
        requires told { (q : ℕ) → quiz_told (asked «record».now) ≡ Some q → HasToldRoom self.old q (asked «record».now) }
        requires made { is_some (quiz_by (asked «record».now)) ≡ true → vec_len self.old.quizzes < vec_capacity self.old.quizzes }
        ensures { AreQuizzesOf (records.now ++ «record».now ∷ []) self.new }
    {
        self.keep_told(records.len(), record);
        self.keep_made(alloc, records.len(), record);
    }

    /// Keeps what a record tells of the quiz that it is about. It takes no memory.
    fn keep_told(&mut self, place: usize, record: &Record)
        requires { (q : ℕ) → quiz_told (asked «record».now) ≡ Some q → HasToldRoom self.old q (asked «record».now) }
        ensures places { places self.new ≡ places self.old }
        ensures count { vec_len self.new.quizzes ≡ vec_len self.old.quizzes }
        ensures room { vec_capacity self.new.quizzes ≡ vec_capacity self.old.quizzes }
        ensures told { (q : ℕ) → TellsMore q place «record».now (told_at self.old q) (told_at self.new q) }
    {
        if let Some(number) = quiz_told(record) {
            self.quizzes[number as usize - 1].tell(number, place, record);
        }
    }

    /// Keeps the quiz that a record makes. It takes no memory.
    fn keep_made(&mut self, alloc: Global, place: usize, record: &Record)
        requires { is_some (quiz_by (asked «record».now)) ≡ true → vec_len self.old.quizzes < vec_capacity self.old.quizzes }
        ensures places { places self.new ≡ places self.old ++ option_to_list (option_map (λ n. place) (quiz_by (asked «record».now))) }
        ensures told { (q : ℕ) → told_at self.new q ≡ told_at self.old q }
    {
        if let Some(_) = quiz_by(record) {
            self.quizzes.push(Quiz::new(alloc, place)).unwrap();
        }
    }
}
