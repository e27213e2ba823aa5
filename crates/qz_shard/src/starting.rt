//! What a start puts into the list.

ghost use Rattle.std.specs.Prelude.{◌≡◌, ◌&&◌, is_none, length, map, zip, IfOk};
ghost use Rattle.qz_terms.specs.Answer.{bind, learned_as, new_versions, started_by};
ghost use Rattle.qz_terms.specs.History.{version};
ghost use Rattle.qz_legal.specs.Readings.{is_new, stands_in};

use qz_book::Book;
use qz_grading::Question;
use qz_terms::{Bound, Event, Learned, Plan, Planned, User};
use qz_text::{Listed, NoMemory, TryCopy};
use std::alloc::Global;

/// What a start binds to each slot.
fn bounds_of(alloc: Global, plan: &Plan) -> Result<Listed<Bound>, NoMemory>
    ensures { IfOk result (λ bounds. bounds ≡ map (bind plan.now.at) plan.now.slots) }
{
    let slots = plan.slots.as_slice();
    let mut items = Vec::with_capacity(alloc, slots.len())?;
    for slot in slots {
        items.push(Bound {
            entry: slot.entry,
            version: slot.version,
            max: slot.max,
            at: plan.at,
        })?;
    }
    Ok(Listed { items })
}

/// Whether the version of a slot stands among those of earlier slots.
fn stands_in(slot: &Planned, earlier: &[Planned]) -> bool
    ensures { result ≡ stands_in slot.now earlier.now }
{
    earlier.iter().any(|other| other.entry == slot.entry && other.version == slot.version)
}

/// Whether the version of a slot is new to the shard, behind the slots before.
fn is_new(book: &Book, earlier: &[Planned], slot: &Planned) -> bool
    ensures { result ≡ is_new book.now earlier.now slot.now }
{
    !stands_in(slot, earlier) && book.version(slot.entry, slot.version).is_none()
}

/// The versions that a start teaches the shard, each once, in order of slot.
fn learned_of(
    alloc: Global,
    book: &Book,
    slots: &[Planned],
    questions: &[Question],
) -> Result<Listed<Learned>, NoMemory>
    requires { length questions.now ≡ length slots.now }
    ensures { IfOk result (λ learned. learned ≡ new_versions book.now (map learned_as (zip slots.now questions.now))) }
{
    let mut items = Vec::new(alloc);
    for (place, slot) in slots.iter().enumerate() {
        if is_new(book, &slots[..place], slot) {
            items.push(Learned {
                entry: slot.entry,
                version: slot.version,
                question: questions[place].try_copy(alloc)?,
            })?;
        }
    }
    Ok(Listed { items })
}

/// The event of a start: the user's next attempt, with the latest version of each slot bound.
pub(crate) fn started(
    alloc: Global,
    book: &Book,
    user: &User,
    plan: &Plan,
) -> Result<Event, NoMemory>
    requires { length plan.now.questions ≡ length plan.now.slots }
    ensures { IfOk result (λ event. event ≡ started_by book.now user.now plan.now) }
{
    Ok(Event::Started {
        quiz: plan.quiz,
        nth: book.next_number(user.number),
        behaviour: plan.behaviour,
        bounds: bounds_of(alloc, plan)?,
        learned: learned_of(
            alloc,
            book,
            plan.slots.as_slice(),
            plan.questions.as_slice(),
        )?,
    })
}
