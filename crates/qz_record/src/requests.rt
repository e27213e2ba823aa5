//! The requests that the catalogue keeps.

ghost use Rattle.std.specs.Prelude.{◌≡◌, ◌++◌, true, OnOk};
ghost use Rattle.qz_terms.specs.CatalogAnswer.{keeps_record};
ghost use Rattle.qz_terms.specs.Spelling.{role_bytes, whom_bytes, request_bytes};
ghost use Rattle.qz_record.specs.Fields.{Gives, IsFit};
ghost use Rattle.qz_record.specs.Parts.{role_field, whom_field, user_request, group_request, member_request, import_request, edit_request, tune_request, quiz_request, slot_request, ready_request, remax_request, policy_request, times_request, override_request, regrade_request, request_field};

use crate::RecordFault;
use crate::part::{Part, number_at};
use crate::writing::{write_eight, write_four, write_nine, write_three, write_two};
use qz_decimal::{Fraction, Grade, Mark};
use qz_grading::{Bank, Behaviour, Question};
use qz_terms::{Handling, Method, Request, Review, Role, Whom};
use qz_text::{Listed, NoMemory, Text};
use std::alloc::Global;

impl Part for Role {
    ghost field = { role_field };

    ghost bytes = { role_bytes };

    #[tactic(auto, unfolding(crate::specs::Parts::role_field))]
    fn read_from(_alloc: Global, rest: &mut &[u8]) -> Result<Role, RecordFault> {
        match number_at(rest)? {
            0 => Ok(Role::Manager),
            1 => Ok(Role::Teacher),
            2 => Ok(Role::Student),
            _ => Err(RecordFault::NotOne),
        }
    }

    #[tactic(auto, using(crate::proofs::Fitting::role_one), unfolding(crate::specs::Parts::role_field))]
    fn write_to(&self, out: &mut Vec<u8>) -> Result<(), NoMemory> {
        let number = match self {
            Role::Manager => 0,
            Role::Teacher => 1,
            Role::Student => 2,
        };
        Ok(out.push(number)?)
    }
}

impl Part for Whom {
    ghost field = { whom_field };

    ghost bytes = { whom_bytes };

    #[tactic(auto, unfolding(crate::specs::Parts::whom_field))]
    fn read_from(_alloc: Global, rest: &mut &[u8]) -> Result<Whom, RecordFault> {
        match number_at(rest)? {
            0 => Ok(Whom::User),
            1 => Ok(Whom::Group),
            _ => Err(RecordFault::NotOne),
        }
    }

    #[tactic(auto, using(crate::proofs::Fitting::whom_one), unfolding(crate::specs::Parts::whom_field))]
    fn write_to(&self, out: &mut Vec<u8>) -> Result<(), NoMemory> {
        let number = match self {
            Whom::User => 0,
            Whom::Group => 1,
        };
        Ok(out.push(number)?)
    }
}

#[tactic(auto, unfolding(crate::specs::Parts::user_request))]
fn user_from(alloc: Global, rest: &mut &[u8]) -> Result<Request, RecordFault>
    ensures { Gives user_request rest.old.now result rest.new.now }
{
    Ok(Request::User {
        name: Text::read_from(alloc, rest)?,
        role: Role::read_from(alloc, rest)?,
        token: Text::read_from(alloc, rest)?,
    })
}

#[tactic(auto, unfolding(crate::specs::Parts::group_request))]
fn group_from(alloc: Global, rest: &mut &[u8]) -> Result<Request, RecordFault>
    ensures { Gives group_request rest.old.now result rest.new.now }
{
    Ok(Request::Group {
        name: Text::read_from(alloc, rest)?,
    })
}

#[tactic(auto, unfolding(crate::specs::Parts::member_request))]
fn member_from(alloc: Global, rest: &mut &[u8]) -> Result<Request, RecordFault>
    ensures { Gives member_request rest.old.now result rest.new.now }
{
    Ok(Request::Member {
        group: u32::read_from(alloc, rest)?,
        user: u32::read_from(alloc, rest)?,
    })
}

#[tactic(auto, unfolding(crate::specs::Parts::import_request))]
fn import_from(alloc: Global, rest: &mut &[u8]) -> Result<Request, RecordFault>
    ensures { Gives import_request rest.old.now result rest.new.now }
{
    Ok(Request::Import {
        gift: Bank::read_from(alloc, rest)?,
    })
}

#[tactic(auto, unfolding(crate::specs::Parts::edit_request))]
fn edit_from(alloc: Global, rest: &mut &[u8]) -> Result<Request, RecordFault>
    ensures { Gives edit_request rest.old.now result rest.new.now }
{
    Ok(Request::Edit {
        entry: u32::read_from(alloc, rest)?,
        gift: Question::read_from(alloc, rest)?,
    })
}

#[tactic(auto, unfolding(crate::specs::Parts::tune_request))]
fn tune_from(alloc: Global, rest: &mut &[u8]) -> Result<Request, RecordFault>
    ensures { Gives tune_request rest.old.now result rest.new.now }
{
    Ok(Request::Tune {
        entry: u32::read_from(alloc, rest)?,
        penalty: Fraction::read_from(alloc, rest)?,
        hints: Listed::<Text>::read_from(alloc, rest)?,
    })
}

#[tactic(auto, unfolding(crate::specs::Parts::quiz_request))]
fn quiz_from(alloc: Global, rest: &mut &[u8]) -> Result<Request, RecordFault>
    ensures { Gives quiz_request rest.old.now result rest.new.now }
{
    Ok(Request::Quiz {
        name: Text::read_from(alloc, rest)?,
        behaviour: Behaviour::read_from(alloc, rest)?,
    })
}

#[tactic(auto, unfolding(crate::specs::Parts::slot_request))]
fn slot_from(alloc: Global, rest: &mut &[u8]) -> Result<Request, RecordFault>
    ensures { Gives slot_request rest.old.now result rest.new.now }
{
    Ok(Request::Slot {
        quiz: u32::read_from(alloc, rest)?,
        entry: u32::read_from(alloc, rest)?,
        max: Mark::read_from(alloc, rest)?,
    })
}

#[tactic(auto, unfolding(crate::specs::Parts::ready_request))]
fn ready_from(alloc: Global, rest: &mut &[u8]) -> Result<Request, RecordFault>
    ensures { Gives ready_request rest.old.now result rest.new.now }
{
    Ok(Request::Ready {
        quiz: u32::read_from(alloc, rest)?,
    })
}

#[tactic(auto, unfolding(crate::specs::Parts::remax_request))]
fn remax_from(alloc: Global, rest: &mut &[u8]) -> Result<Request, RecordFault>
    ensures { Gives remax_request rest.old.now result rest.new.now }
{
    Ok(Request::Remax {
        quiz: u32::read_from(alloc, rest)?,
        slot: u16::read_from(alloc, rest)?,
        max: Mark::read_from(alloc, rest)?,
    })
}

#[tactic(auto, unfolding(crate::specs::Parts::policy_request))]
fn policy_from(alloc: Global, rest: &mut &[u8]) -> Result<Request, RecordFault>
    ensures { Gives policy_request rest.old.now result rest.new.now }
{
    Ok(Request::Policy {
        quiz: u32::read_from(alloc, rest)?,
        method: Method::read_from(alloc, rest)?,
        grade: Grade::read_from(alloc, rest)?,
    })
}

#[tactic(auto, unfolding(crate::specs::Parts::times_request))]
fn times_from(alloc: Global, rest: &mut &[u8]) -> Result<Request, RecordFault>
    ensures { Gives times_request rest.old.now result rest.new.now }
{
    Ok(Request::Times {
        quiz: u32::read_from(alloc, rest)?,
        opens: u64::read_from(alloc, rest)?,
        closes: u64::read_from(alloc, rest)?,
        limit: u32::read_from(alloc, rest)?,
        allowed: u32::read_from(alloc, rest)?,
        handling: Handling::read_from(alloc, rest)?,
        grace: u32::read_from(alloc, rest)?,
        review: Review::read_from(alloc, rest)?,
    })
}

#[tactic(auto, unfolding(crate::specs::Parts::override_request))]
fn override_from(alloc: Global, rest: &mut &[u8]) -> Result<Request, RecordFault>
    ensures { Gives override_request rest.old.now result rest.new.now }
{
    Ok(Request::Override {
        quiz: u32::read_from(alloc, rest)?,
        whom: Whom::read_from(alloc, rest)?,
        number: u32::read_from(alloc, rest)?,
        opens: Option::<u64>::read_from(alloc, rest)?,
        closes: Option::<u64>::read_from(alloc, rest)?,
        limit: Option::<u32>::read_from(alloc, rest)?,
        allowed: Option::<u32>::read_from(alloc, rest)?,
    })
}

#[tactic(auto, unfolding(crate::specs::Parts::regrade_request))]
fn regrade_from(alloc: Global, rest: &mut &[u8]) -> Result<Request, RecordFault>
    ensures { Gives regrade_request rest.old.now result rest.new.now }
{
    Ok(Request::Regrade {
        quiz: u32::read_from(alloc, rest)?,
    })
}

#[tactic(auto, unfolding(crate::specs::Parts::request_field))]
pub(crate) fn request_from(alloc: Global, rest: &mut &[u8]) -> Result<Request, RecordFault>
    ensures { Gives request_field.read rest.old.now result rest.new.now }
{
    match number_at(rest)? {
        0 => user_from(alloc, rest),
        1 => group_from(alloc, rest),
        2 => member_from(alloc, rest),
        3 => import_from(alloc, rest),
        4 => edit_from(alloc, rest),
        5 => tune_from(alloc, rest),
        6 => quiz_from(alloc, rest),
        7 => slot_from(alloc, rest),
        8 => ready_from(alloc, rest),
        9 => remax_from(alloc, rest),
        10 => policy_from(alloc, rest),
        11 => times_from(alloc, rest),
        12 => override_from(alloc, rest),
        13 => regrade_from(alloc, rest),
        _ => Err(RecordFault::NotOne),
    }
}

/// Puts the bytes of a request behind `out`: none of one that stands in no record.
#[tactic(auto, unfolding(crate::specs::Parts::request_field, crate::specs::Fields::u8_field))]
pub(crate) fn write_request(request: &Request, out: &mut Vec<u8>) -> Result<(), NoMemory>
    ensures appends { OnOk result (out.new.items ≡ out.old.items ++ request_bytes «request».now) }
    ensures fits { keeps_record «request».now ≡ true
        → OnOk result (IsFit (request_bytes «request».now) (request_field.fits «request».now)) }
{
    match request {
        Request::User { name, role, token } => write_four(&0u8, name, role, token, out),
        Request::Group { name } => write_two(&1u8, name, out),
        Request::Member { group, user } => write_three(&2u8, group, user, out),
        Request::Import { gift } => write_two(&3u8, gift, out),
        Request::Edit { entry, gift } => write_three(&4u8, entry, gift, out),
        Request::Tune {
            entry,
            penalty,
            hints,
        } => write_four(&5u8, entry, penalty, hints, out),
        Request::Quiz { name, behaviour } => write_three(&6u8, name, behaviour, out),
        Request::Slot { quiz, entry, max } => write_four(&7u8, quiz, entry, max, out),
        Request::Ready { quiz } => write_two(&8u8, quiz, out),
        Request::Remax { quiz, slot, max } => write_four(&9u8, quiz, slot, max, out),
        Request::Policy {
            quiz,
            method,
            grade,
        } => write_four(&10u8, quiz, method, grade, out),
        Request::Times {
            quiz,
            opens,
            closes,
            limit,
            allowed,
            handling,
            grace,
            review,
        } => write_nine(
            &11u8, quiz, opens, closes, limit, allowed, handling, grace, review, out,
        ),
        Request::Override {
            quiz,
            whom,
            number,
            opens,
            closes,
            limit,
            allowed,
        } => write_eight(
            &12u8, quiz, whom, number, opens, closes, limit, allowed, out,
        ),
        Request::Regrade { quiz } => write_two(&13u8, quiz, out),
        // no other stands in a record
        _ => Ok(()),
    }
}
