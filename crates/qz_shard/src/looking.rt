//! What a request that only looks is shown.

ghost use Rattle.std.specs.Prelude.{◌≡◌, true, None, IfOk};
ghost use Rattle.qz_terms.specs.Answer.{looked_by, sees_grade};
ghost use Rattle.qz_terms.specs.Cause.{missing_here};
ghost use Rattle.qz_terms.specs.Kept.{IsKeptPlan};
ghost use Rattle.qz_shard.specs.Answering.{IsAnswered};
ghost use Rattle.qz_book.specs.Held.{IsSound};
ghost use Rattle.qz_shard.specs.Holdings.{is_look, IsAsked};

use crate::putting::moment_of;
use qz_book::Book;
use qz_looks::{missing_here, page, sees_marks, shown_grade, shows_grade, standing_of, viewed};
use qz_terms::{
    Ask, Done, Plan, Reply, Request, Settings, User, forbidden, is_student, named_user,
};
use qz_text::NoMemory;
use std::alloc::Global;

/// Whether a user is shown the grade of a quiz. It is hidden from a student alone.
fn sees_grade(user: &User, settings: &Settings, moment: u64) -> bool
    ensures { result ≡ sees_grade user.now settings.now moment }
{
    !is_student(user) || shows_grade(settings, moment)
}

/// What a look is shown: a slot, an attempt, a page or a grade.
fn looked_by(
    alloc: Global,
    book: &Book,
    moment: u64,
    user: &User,
    plan: &Plan,
    request: &Request,
) -> Result<Done, NoMemory>
    requires look { is_look request.now ≡ true }
    requires sound { IsSound book.now }
    requires plan { IsKeptPlan plan.now }
    requires there { missing_here book.now user.now request.now ≡ None }
    ensures { IfOk result (λ told. told ≡ looked_by book.now moment user.now plan.now request.now) }
{
    match request {
        Request::View { attempt, slot } => {
            let visible = sees_marks(book, &plan.settings, user, *attempt, moment);
            Ok(viewed(book, visible, *attempt, *slot))
        }
        Request::Total { attempt } => {
            let visible = sees_marks(book, &plan.settings, user, *attempt, moment);
            Ok(standing_of(book, plan, visible, *attempt))
        }
        Request::Page { attempt } => {
            let visible = sees_marks(book, &plan.settings, user, *attempt, moment);
            page(alloc, book, plan, visible, *attempt)
        }
        Request::Grade { quiz, user: owner } => {
            let visible = sees_grade(user, &plan.settings, moment);
            let grade = book.row(*quiz, &plan.policy, *owner);
            Ok(Done::Grade {
                grade: shown_grade(visible, grade),
            })
        }
        _ => unreachable!(),
    }
}

/// What is answered to a look, which leaves the list as it is.
pub(crate) fn seen(
    alloc: Global,
    book: &Book,
    user: &User,
    plan: &Plan,
    ask: &Ask,
    now: u64,
) -> Result<Reply, NoMemory>
    requires look { is_look ask.now.request ≡ true }
    requires sound { IsSound book.now }
    requires asked { IsAsked book.now plan.now ask.now now }
    ensures { IfOk result (λ told. IsAnswered book.now now user.now plan.now ask.now told book.now) }
{
    if let Some(refusal) = forbidden(user, &ask.request) {
        return Ok(Reply::Refused(refusal));
    }
    if let Some(refusal) = missing_here(book, user, &ask.request) {
        return Ok(Reply::Refused(refusal));
    }
    let moment = moment_of(book, now, user, &ask.request);
    Ok(Reply::Ok {
        place: book.place(named_user(user, &ask.request)),
        done: looked_by(alloc, book, moment, user, plan, &ask.request)?,
    })
}
