//! The requests about users, the bank and quizzes.

ghost use Rattle.std.specs.Prelude.{IfOk};
ghost use Rattle.qz_wire.specs.Asking.{IsOfVerb};
ghost use Rattle.qz_wire.specs.Faults.{ReadsOr};
ghost use Rattle.qz_wire.specs.Requests.{user_of, group_of, member_of, import_of, edit_of, tune_of, bank_of, quiz_of, slot_request_of, ready_of, remax_of, policy_of, times_of, override_of, regrade_of, jobs_of};
ghost use Rattle.qz_wire.specs.Words.{words_after, Reads};
ghost use Rattle.qz_wire.specs.declared.verbs.Verb.{Verb};

use crate::arguments::{
    allowed_at, bank_at, behaviour_at, duration_at, end, handling_at, hints_at, mark_at, method_at,
    moment_at, name_at, number_at, own_allowed_at, own_duration_at, own_moment_at, penalty_at,
    question_at, quiz_grade_at, review_at, role_at, slot_at, token_at, whom_at,
};
use crate::words::WordFault;
use qz_grading::Refusal;
use qz_terms::Request;
use std::alloc::Global;

#[tactic(auto, unfolding(crate::specs::Requests::user_of))]
pub fn user(alloc: Global, mut rest: &[u8]) -> Result<Request, WordFault>
    ensures value { Reads (λ x. x) result (user_of (words_after rest.now)) }
    ensures verb { IfOk result (IsOfVerb Verb.User) }
{
    let name = name_at(alloc, &mut rest, 5)?;
    let role = role_at(&mut rest, 6)?;
    let token = token_at(alloc, &mut rest, 7)?;
    end(rest, 8)?;
    Ok(Request::User { name, role, token })
}

#[tactic(auto, unfolding(crate::specs::Requests::group_of))]
pub fn group(alloc: Global, mut rest: &[u8]) -> Result<Request, WordFault>
    ensures value { Reads (λ x. x) result (group_of (words_after rest.now)) }
    ensures verb { IfOk result (IsOfVerb Verb.Group) }
{
    let name = name_at(alloc, &mut rest, 5)?;
    end(rest, 6)?;
    Ok(Request::Group { name })
}

#[tactic(auto, unfolding(crate::specs::Requests::member_of))]
pub fn member(mut rest: &[u8]) -> Result<Request, WordFault>
    ensures value { Reads (λ x. x) result (member_of (words_after rest.now)) }
    ensures verb { IfOk result (IsOfVerb Verb.Member) }
{
    let group = number_at(&mut rest, 5)?;
    let user = number_at(&mut rest, 6)?;
    end(rest, 7)?;
    Ok(Request::Member { group, user })
}

#[tactic(auto, unfolding(crate::specs::Requests::import_of))]
pub fn import(alloc: Global, mut rest: &[u8]) -> Result<Request, Refusal>
    ensures value { ReadsOr (λ x. x) result (import_of (words_after rest.now)) }
    ensures verb { IfOk result (IsOfVerb Verb.Import) }
{
    let gift = bank_at(alloc, &mut rest, 5)?;
    end(rest, 6)?;
    Ok(Request::Import { gift })
}

#[tactic(auto, unfolding(crate::specs::Requests::edit_of))]
pub fn edit(alloc: Global, mut rest: &[u8]) -> Result<Request, Refusal>
    ensures value { ReadsOr (λ x. x) result (edit_of (words_after rest.now)) }
    ensures verb { IfOk result (IsOfVerb Verb.Edit) }
{
    let entry = number_at(&mut rest, 5)?;
    let gift = question_at(alloc, &mut rest, 6)?;
    match end(rest, 7) {
        Ok(()) => Ok(Request::Edit { entry, gift }),
        Err(fault) => Err(Refusal::from(fault)),
    }
}

#[tactic(auto, unfolding(crate::specs::Requests::tune_of))]
pub fn tune(alloc: Global, mut rest: &[u8]) -> Result<Request, WordFault>
    ensures value { Reads (λ x. x) result (tune_of (words_after rest.now)) }
    ensures verb { IfOk result (IsOfVerb Verb.Tune) }
{
    let entry = number_at(&mut rest, 5)?;
    let penalty = penalty_at(&mut rest, 6)?;
    let hints = hints_at(alloc, &mut rest, 7)?;
    end(rest, 8)?;
    Ok(Request::Tune {
        entry,
        penalty,
        hints,
    })
}

#[tactic(auto, unfolding(crate::specs::Requests::bank_of))]
pub fn bank(mut rest: &[u8]) -> Result<Request, WordFault>
    ensures value { Reads (λ x. x) result (bank_of (words_after rest.now)) }
    ensures verb { IfOk result (IsOfVerb Verb.Bank) }
{
    let entry = number_at(&mut rest, 5)?;
    let version = number_at(&mut rest, 6)?;
    end(rest, 7)?;
    Ok(Request::Bank { entry, version })
}

#[tactic(auto, unfolding(crate::specs::Requests::quiz_of))]
pub fn quiz(alloc: Global, mut rest: &[u8]) -> Result<Request, WordFault>
    ensures value { Reads (λ x. x) result (quiz_of (words_after rest.now)) }
    ensures verb { IfOk result (IsOfVerb Verb.Quiz) }
{
    let name = name_at(alloc, &mut rest, 5)?;
    let behaviour = behaviour_at(&mut rest, 6)?;
    end(rest, 7)?;
    Ok(Request::Quiz { name, behaviour })
}

#[tactic(auto, unfolding(crate::specs::Requests::slot_request_of))]
pub fn slot(mut rest: &[u8]) -> Result<Request, WordFault>
    ensures value { Reads (λ x. x) result (slot_request_of (words_after rest.now)) }
    ensures verb { IfOk result (IsOfVerb Verb.Slot) }
{
    let quiz = number_at(&mut rest, 5)?;
    let entry = number_at(&mut rest, 6)?;
    let max = mark_at(&mut rest, 7)?;
    end(rest, 8)?;
    Ok(Request::Slot { quiz, entry, max })
}

#[tactic(auto, unfolding(crate::specs::Requests::ready_of))]
pub fn ready(mut rest: &[u8]) -> Result<Request, WordFault>
    ensures value { Reads (λ x. x) result (ready_of (words_after rest.now)) }
    ensures verb { IfOk result (IsOfVerb Verb.Ready) }
{
    let quiz = number_at(&mut rest, 5)?;
    end(rest, 6)?;
    Ok(Request::Ready { quiz })
}

#[tactic(auto, unfolding(crate::specs::Requests::remax_of))]
pub fn remax(mut rest: &[u8]) -> Result<Request, WordFault>
    ensures value { Reads (λ x. x) result (remax_of (words_after rest.now)) }
    ensures verb { IfOk result (IsOfVerb Verb.Remax) }
{
    let quiz = number_at(&mut rest, 5)?;
    let slot = slot_at(&mut rest, 6)?;
    let max = mark_at(&mut rest, 7)?;
    end(rest, 8)?;
    Ok(Request::Remax { quiz, slot, max })
}

#[tactic(auto, unfolding(crate::specs::Requests::policy_of))]
pub fn policy(mut rest: &[u8]) -> Result<Request, WordFault>
    ensures value { Reads (λ x. x) result (policy_of (words_after rest.now)) }
    ensures verb { IfOk result (IsOfVerb Verb.Policy) }
{
    let quiz = number_at(&mut rest, 5)?;
    let method = method_at(&mut rest, 6)?;
    let grade = quiz_grade_at(&mut rest, 7)?;
    end(rest, 8)?;
    Ok(Request::Policy {
        quiz,
        method,
        grade,
    })
}

#[tactic(auto, unfolding(crate::specs::Requests::times_of))]
pub fn times(mut rest: &[u8]) -> Result<Request, WordFault>
    ensures value { Reads (λ x. x) result (times_of (words_after rest.now)) }
    ensures verb { IfOk result (IsOfVerb Verb.Times) }
{
    let quiz = number_at(&mut rest, 5)?;
    let opens = moment_at(&mut rest, 6)?;
    let closes = moment_at(&mut rest, 7)?;
    let limit = duration_at(&mut rest, 8)?;
    let allowed = allowed_at(&mut rest, 9)?;
    let handling = handling_at(&mut rest, 10)?;
    let grace = duration_at(&mut rest, 11)?;
    let review = review_at(&mut rest, 12)?;
    end(rest, 13)?;
    Ok(Request::Times {
        quiz,
        opens,
        closes,
        limit,
        allowed,
        handling,
        grace,
        review,
    })
}

#[tactic(auto, unfolding(crate::specs::Requests::override_of))]
pub fn set_otherwise(mut rest: &[u8]) -> Result<Request, WordFault>
    ensures value { Reads (λ x. x) result (override_of (words_after rest.now)) }
    ensures verb { IfOk result (IsOfVerb Verb.Override) }
{
    let quiz = number_at(&mut rest, 5)?;
    let whom = whom_at(&mut rest, 6)?;
    let number = number_at(&mut rest, 7)?;
    let opens = own_moment_at(&mut rest, 8)?;
    let closes = own_moment_at(&mut rest, 9)?;
    let limit = own_duration_at(&mut rest, 10)?;
    let allowed = own_allowed_at(&mut rest, 11)?;
    end(rest, 12)?;
    Ok(Request::Override {
        quiz,
        whom,
        number,
        opens,
        closes,
        limit,
        allowed,
    })
}

#[tactic(auto, unfolding(crate::specs::Requests::regrade_of))]
pub fn regrade(mut rest: &[u8]) -> Result<Request, WordFault>
    ensures value { Reads (λ x. x) result (regrade_of (words_after rest.now)) }
    ensures verb { IfOk result (IsOfVerb Verb.Regrade) }
{
    let quiz = number_at(&mut rest, 5)?;
    end(rest, 6)?;
    Ok(Request::Regrade { quiz })
}

#[tactic(auto, unfolding(crate::specs::Requests::jobs_of))]
pub fn jobs(rest: &[u8]) -> Result<Request, WordFault>
    ensures value { Reads (λ x. x) result (jobs_of (words_after rest.now)) }
    ensures verb { IfOk result (IsOfVerb Verb.Jobs) }
{
    end(rest, 5)?;
    Ok(Request::Jobs)
}
