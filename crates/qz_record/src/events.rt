//! Events and records.

ghost use Rattle.std.specs.Prelude.{◌≡◌, ◌++◌, true, IfSome, OnOk};
ghost use Rattle.qz_terms.specs.Catalog.{asked, asked_by};
ghost use Rattle.qz_terms.specs.CatalogAnswer.{keeps_record};
ghost use Rattle.qz_terms.specs.Spelling.{how_bytes, event_bytes, spelling};
ghost use Rattle.qz_record.specs.Fields.{Gives, IsFit};
ghost use Rattle.qz_record.specs.Parts.{how_field, founded_event, asked_event, started_event, acted_event, noted_event, ended_event, rebound_event, skipped_event, jobdone_event, event_field, record_field};

use crate::RecordFault;
use crate::part::{Part, number_at};
use crate::requests::{request_from, write_request};
use crate::writing::{write_five, write_four, write_six, write_three};
use qz_grading::{AttemptId, Behaviour, Shape, Step};
use qz_terms::{Bound, Event, How, Learned, Record, Terms};
use qz_text::{Listed, NoMemory, Text};
use std::alloc::Global;

impl Part for How {
    ghost field = { how_field };

    ghost bytes = { how_bytes };

    #[tactic(auto, unfolding(crate::specs::Parts::how_field))]
    fn read_from(_alloc: Global, rest: &mut &[u8]) -> Result<How, RecordFault> {
        match number_at(rest)? {
            0 => Ok(How::Finished),
            1 => Ok(How::Abandoned),
            _ => Err(RecordFault::NotOne),
        }
    }

    #[tactic(auto, using(crate::proofs::Fitting::how_one), unfolding(crate::specs::Parts::how_field))]
    fn write_to(&self, out: &mut Vec<u8>) -> Result<(), NoMemory> {
        let number = match self {
            How::Finished => 0,
            How::Abandoned => 1,
        };
        Ok(out.push(number)?)
    }
}

#[tactic(auto, unfolding(crate::specs::Parts::founded_event))]
fn founded_from(alloc: Global, rest: &mut &[u8]) -> Result<Event, RecordFault>
    ensures { Gives founded_event rest.old.now result rest.new.now }
{
    Ok(Event::Founded {
        shards: u8::read_from(alloc, rest)?,
        token: Text::read_from(alloc, rest)?,
    })
}

#[tactic(auto, unfolding(crate::specs::Parts::asked_event))]
fn asked_from(alloc: Global, rest: &mut &[u8]) -> Result<Event, RecordFault>
    ensures { Gives asked_event rest.old.now result rest.new.now }
{
    Ok(Event::Asked {
        request: request_from(alloc, rest)?,
    })
}

#[tactic(auto, unfolding(crate::specs::Parts::started_event))]
fn started_from(alloc: Global, rest: &mut &[u8]) -> Result<Event, RecordFault>
    ensures { Gives started_event rest.old.now result rest.new.now }
{
    Ok(Event::Started {
        quiz: u32::read_from(alloc, rest)?,
        nth: u32::read_from(alloc, rest)?,
        behaviour: Behaviour::read_from(alloc, rest)?,
        bounds: Listed::<Bound>::read_from(alloc, rest)?,
        learned: Listed::<Learned>::read_from(alloc, rest)?,
    })
}

#[tactic(auto, unfolding(crate::specs::Parts::acted_event))]
fn acted_from(alloc: Global, rest: &mut &[u8]) -> Result<Event, RecordFault>
    ensures { Gives acted_event rest.old.now result rest.new.now }
{
    Ok(Event::Acted {
        attempt: AttemptId::read_from(alloc, rest)?,
        slot: u16::read_from(alloc, rest)?,
        step: Step::read_from(alloc, rest)?,
    })
}

#[tactic(auto, unfolding(crate::specs::Parts::noted_event))]
fn noted_from(alloc: Global, rest: &mut &[u8]) -> Result<Event, RecordFault>
    ensures { Gives noted_event rest.old.now result rest.new.now }
{
    Ok(Event::Noted {
        attempt: AttemptId::read_from(alloc, rest)?,
        slot: u16::read_from(alloc, rest)?,
        step: Step::read_from(alloc, rest)?,
    })
}

#[tactic(auto, unfolding(crate::specs::Parts::ended_event))]
fn ended_from(alloc: Global, rest: &mut &[u8]) -> Result<Event, RecordFault>
    ensures { Gives ended_event rest.old.now result rest.new.now }
{
    Ok(Event::Ended {
        attempt: AttemptId::read_from(alloc, rest)?,
        how: How::read_from(alloc, rest)?,
    })
}

#[tactic(auto, unfolding(crate::specs::Parts::rebound_event))]
fn rebound_from(alloc: Global, rest: &mut &[u8]) -> Result<Event, RecordFault>
    ensures { Gives rebound_event rest.old.now result rest.new.now }
{
    Ok(Event::Rebound {
        job: u32::read_from(alloc, rest)?,
        attempt: AttemptId::read_from(alloc, rest)?,
        slot: u16::read_from(alloc, rest)?,
        bound: Bound::read_from(alloc, rest)?,
        learned: Listed::<Learned>::read_from(alloc, rest)?,
    })
}

#[tactic(auto, unfolding(crate::specs::Parts::skipped_event))]
fn skipped_from(alloc: Global, rest: &mut &[u8]) -> Result<Event, RecordFault>
    ensures { Gives skipped_event rest.old.now result rest.new.now }
{
    Ok(Event::Skipped {
        job: u32::read_from(alloc, rest)?,
        attempt: AttemptId::read_from(alloc, rest)?,
        slot: u16::read_from(alloc, rest)?,
        bound: Shape::read_from(alloc, rest)?,
        newer: Shape::read_from(alloc, rest)?,
    })
}

#[tactic(auto, unfolding(crate::specs::Parts::jobdone_event))]
fn jobdone_from(alloc: Global, rest: &mut &[u8]) -> Result<Event, RecordFault>
    ensures { Gives jobdone_event rest.old.now result rest.new.now }
{
    Ok(Event::JobDone {
        job: u32::read_from(alloc, rest)?,
        quiz: u32::read_from(alloc, rest)?,
        position: u64::read_from(alloc, rest)?,
    })
}

#[tactic(auto, unfolding(crate::specs::Parts::event_field))]
fn event_from(alloc: Global, rest: &mut &[u8]) -> Result<Event, RecordFault>
    ensures { Gives event_field.read rest.old.now result rest.new.now }
{
    match number_at(rest)? {
        0 => founded_from(alloc, rest),
        1 => asked_from(alloc, rest),
        2 => started_from(alloc, rest),
        3 => acted_from(alloc, rest),
        4 => noted_from(alloc, rest),
        5 => ended_from(alloc, rest),
        6 => rebound_from(alloc, rest),
        7 => skipped_from(alloc, rest),
        8 => jobdone_from(alloc, rest),
        _ => Err(RecordFault::NotOne),
    }
}

#[tactic(auto, using(crate::proofs::Fitting::tagged_written), unfolding(crate::specs::Parts::event_field, crate::specs::Fields::u8_field))]
fn write_event(event: &Event, out: &mut Vec<u8>) -> Result<(), NoMemory>
    ensures appends { OnOk result (out.new.items ≡ out.old.items ++ event_bytes event.now) }
    ensures fits { IfSome (asked_by event.now) (λ x. keeps_record x ≡ true)
        → OnOk result (IsFit (event_bytes event.now) (event_field.fits event.now)) }
{
    match event {
        Event::Founded { shards, token } => write_three(&0u8, shards, token, out),
        Event::Asked { request } => {
            out.push(1)?;
            write_request(request, out)
        }
        Event::Started {
            quiz,
            nth,
            behaviour,
            bounds,
            learned,
        } => write_six(&2u8, quiz, nth, behaviour, bounds, learned, out),
        Event::Acted {
            attempt,
            slot,
            step,
        } => write_four(&3u8, attempt, slot, step, out),
        Event::Noted {
            attempt,
            slot,
            step,
        } => write_four(&4u8, attempt, slot, step, out),
        Event::Ended { attempt, how } => write_three(&5u8, attempt, how, out),
        Event::Rebound {
            job,
            attempt,
            slot,
            bound,
            learned,
        } => write_six(&6u8, job, attempt, slot, bound, learned, out),
        Event::Skipped {
            job,
            attempt,
            slot,
            bound,
            newer,
        } => write_six(&7u8, job, attempt, slot, bound, newer, out),
        Event::JobDone {
            job,
            quiz,
            position,
        } => write_four(&8u8, job, quiz, position, out),
    }
}

#[tactic(auto, unfolding(crate::specs::Parts::record_field))]
pub(crate) fn record_from(alloc: Global, rest: &mut &[u8]) -> Result<Record, RecordFault>
    ensures { Gives record_field.read rest.old.now result rest.new.now }
{
    Ok(Record {
        moment: u64::read_from(alloc, rest)?,
        caller: u32::read_from(alloc, rest)?,
        owner: u32::read_from(alloc, rest)?,
        key: Option::<Text>::read_from(alloc, rest)?,
        terms: Option::<Terms>::read_from(alloc, rest)?,
        event: event_from(alloc, rest)?,
    })
}

#[tactic(auto, using(crate::proofs::Fitting::both_written), unfolding(crate::specs::Parts::record_field))]
pub(crate) fn write_record(record: &Record, out: &mut Vec<u8>) -> Result<(), NoMemory>
    ensures appends { OnOk result (out.new.items ≡ out.old.items ++ spelling «record».now) }
    ensures fits { IfSome (asked «record».now) (λ x. keeps_record x ≡ true)
        → OnOk result (IsFit (spelling «record».now) (record_field.fits «record».now)) }
{
    write_five(
        &record.moment,
        &record.caller,
        &record.owner,
        &record.key,
        &record.terms,
        out,
    )?;
    write_event(&record.event, out)
}
