//! The requests about attempts and grades.

ghost use Rattle.std.specs.Prelude.{IfOk};
ghost use Rattle.qz_wire.specs.Asking.{IsOfVerb};
ghost use Rattle.qz_wire.specs.Requests.{start_of, save_of, submit_of, again_of, finish_of, mark_request_of, work_of, settle_of, live_of, view_of, total_of, page_of, grade_of, report_of};
ghost use Rattle.qz_wire.specs.Words.{words_after, Reads};
ghost use Rattle.qz_wire.specs.declared.verbs.Verb.{Verb};

use crate::arguments::{
    answer_at, attempt_at, certainty_at, end, mark_at, number_at, shard_at, slot_at,
};
use crate::words::WordFault;
use qz_terms::Request;
use std::alloc::Global;

#[tactic(auto, unfolding(crate::specs::Requests::start_of))]
pub fn start(mut rest: &[u8]) -> Result<Request, WordFault>
    ensures value { Reads (λ x. x) result (start_of (words_after rest.now)) }
    ensures verb { IfOk result (IsOfVerb Verb.Start) }
{
    let quiz = number_at(&mut rest, 5)?;
    end(rest, 6)?;
    Ok(Request::Start { quiz })
}

#[tactic(auto, unfolding(crate::specs::Requests::save_of))]
pub fn save(alloc: Global, mut rest: &[u8]) -> Result<Request, WordFault>
    ensures value { Reads (λ x. x) result (save_of (words_after rest.now)) }
    ensures verb { IfOk result (IsOfVerb Verb.Save) }
{
    let attempt = attempt_at(&mut rest, 5)?;
    let slot = slot_at(&mut rest, 6)?;
    let certainty = certainty_at(&mut rest, 7)?;
    let response = answer_at(alloc, &mut rest, 8)?;
    end(rest, 9)?;
    Ok(Request::Save {
        attempt,
        slot,
        certainty,
        response,
    })
}

#[tactic(auto, unfolding(crate::specs::Requests::submit_of))]
pub fn submit(alloc: Global, mut rest: &[u8]) -> Result<Request, WordFault>
    ensures value { Reads (λ x. x) result (submit_of (words_after rest.now)) }
    ensures verb { IfOk result (IsOfVerb Verb.Submit) }
{
    let attempt = attempt_at(&mut rest, 5)?;
    let slot = slot_at(&mut rest, 6)?;
    let certainty = certainty_at(&mut rest, 7)?;
    let response = answer_at(alloc, &mut rest, 8)?;
    end(rest, 9)?;
    Ok(Request::Submit {
        attempt,
        slot,
        certainty,
        response,
    })
}

#[tactic(auto, unfolding(crate::specs::Requests::again_of))]
pub fn again(mut rest: &[u8]) -> Result<Request, WordFault>
    ensures value { Reads (λ x. x) result (again_of (words_after rest.now)) }
    ensures verb { IfOk result (IsOfVerb Verb.Again) }
{
    let attempt = attempt_at(&mut rest, 5)?;
    let slot = slot_at(&mut rest, 6)?;
    end(rest, 7)?;
    Ok(Request::Again { attempt, slot })
}

#[tactic(auto, unfolding(crate::specs::Requests::finish_of))]
pub fn finish(mut rest: &[u8]) -> Result<Request, WordFault>
    ensures value { Reads (λ x. x) result (finish_of (words_after rest.now)) }
    ensures verb { IfOk result (IsOfVerb Verb.Finish) }
{
    let attempt = attempt_at(&mut rest, 5)?;
    end(rest, 6)?;
    Ok(Request::Finish { attempt })
}

#[tactic(auto, unfolding(crate::specs::Requests::mark_request_of))]
pub fn mark(mut rest: &[u8]) -> Result<Request, WordFault>
    ensures value { Reads (λ x. x) result (mark_request_of (words_after rest.now)) }
    ensures verb { IfOk result (IsOfVerb Verb.Mark) }
{
    let attempt = attempt_at(&mut rest, 5)?;
    let slot = slot_at(&mut rest, 6)?;
    let mark = mark_at(&mut rest, 7)?;
    end(rest, 8)?;
    Ok(Request::Mark {
        attempt,
        slot,
        mark,
    })
}

#[tactic(auto, unfolding(crate::specs::Requests::work_of))]
pub fn work(mut rest: &[u8]) -> Result<Request, WordFault>
    ensures value { Reads (λ x. x) result (work_of (words_after rest.now)) }
    ensures verb { IfOk result (IsOfVerb Verb.Work) }
{
    let job = number_at(&mut rest, 5)?;
    let shard = shard_at(&mut rest, 6)?;
    end(rest, 7)?;
    Ok(Request::Work { job, shard })
}

#[tactic(auto, unfolding(crate::specs::Requests::settle_of))]
pub fn settle(mut rest: &[u8]) -> Result<Request, WordFault>
    ensures value { Reads (λ x. x) result (settle_of (words_after rest.now)) }
    ensures verb { IfOk result (IsOfVerb Verb.Settle) }
{
    let attempt = attempt_at(&mut rest, 5)?;
    end(rest, 6)?;
    Ok(Request::Settle { attempt })
}

#[tactic(auto, unfolding(crate::specs::Requests::live_of))]
pub fn live(mut rest: &[u8]) -> Result<Request, WordFault>
    ensures value { Reads (λ x. x) result (live_of (words_after rest.now)) }
    ensures verb { IfOk result (IsOfVerb Verb.Live) }
{
    let shard = shard_at(&mut rest, 5)?;
    let attempt = attempt_at(&mut rest, 6)?;
    end(rest, 7)?;
    Ok(Request::Live { shard, attempt })
}

#[tactic(auto, unfolding(crate::specs::Requests::view_of))]
pub fn view(mut rest: &[u8]) -> Result<Request, WordFault>
    ensures value { Reads (λ x. x) result (view_of (words_after rest.now)) }
    ensures verb { IfOk result (IsOfVerb Verb.View) }
{
    let attempt = attempt_at(&mut rest, 5)?;
    let slot = slot_at(&mut rest, 6)?;
    end(rest, 7)?;
    Ok(Request::View { attempt, slot })
}

#[tactic(auto, unfolding(crate::specs::Requests::total_of))]
pub fn total(mut rest: &[u8]) -> Result<Request, WordFault>
    ensures value { Reads (λ x. x) result (total_of (words_after rest.now)) }
    ensures verb { IfOk result (IsOfVerb Verb.Total) }
{
    let attempt = attempt_at(&mut rest, 5)?;
    end(rest, 6)?;
    Ok(Request::Total { attempt })
}

#[tactic(auto, unfolding(crate::specs::Requests::page_of))]
pub fn page(mut rest: &[u8]) -> Result<Request, WordFault>
    ensures value { Reads (λ x. x) result (page_of (words_after rest.now)) }
    ensures verb { IfOk result (IsOfVerb Verb.Page) }
{
    let attempt = attempt_at(&mut rest, 5)?;
    end(rest, 6)?;
    Ok(Request::Page { attempt })
}

#[tactic(auto, unfolding(crate::specs::Requests::grade_of))]
pub fn grade(mut rest: &[u8]) -> Result<Request, WordFault>
    ensures value { Reads (λ x. x) result (grade_of (words_after rest.now)) }
    ensures verb { IfOk result (IsOfVerb Verb.Grade) }
{
    let quiz = number_at(&mut rest, 5)?;
    let user = number_at(&mut rest, 6)?;
    end(rest, 7)?;
    Ok(Request::Grade { quiz, user })
}

#[tactic(auto, unfolding(crate::specs::Requests::report_of))]
pub fn report(mut rest: &[u8]) -> Result<Request, WordFault>
    ensures value { Reads (λ x. x) result (report_of (words_after rest.now)) }
    ensures verb { IfOk result (IsOfVerb Verb.Report) }
{
    let quiz = number_at(&mut rest, 5)?;
    end(rest, 6)?;
    Ok(Request::Report { quiz })
}
