//! The rules of callers: who may ask what.

ghost use Rattle.std.specs.Prelude.{◌≡◌};
ghost use Rattle.qz_terms.specs.Cause.{rule_of, role_may, may_ask, forbidden, is_student, is_anothers};

use crate::{Request, Role, User};
use qz_grading::Refusal;

/// The rule under which a request stands: 1 for managers, 2 for teachers, 3 for students, 4 for workers, 5 for every user.
fn rule_of(request: &Request) -> u8
    ensures { result ≡ rule_of request.now }
{
    match request {
        Request::User { .. } | Request::Group { .. } | Request::Member { .. } => 1,
        Request::Import { .. }
        | Request::Edit { .. }
        | Request::Tune { .. }
        | Request::Quiz { .. }
        | Request::Slot { .. }
        | Request::Ready { .. }
        | Request::Remax { .. }
        | Request::Policy { .. }
        | Request::Times { .. }
        | Request::Override { .. }
        | Request::Regrade { .. }
        | Request::Mark { .. }
        | Request::Report { .. }
        | Request::Bank { .. } => 2,
        Request::Start { .. }
        | Request::Save { .. }
        | Request::Submit { .. }
        | Request::Again { .. }
        | Request::Finish { .. } => 3,
        Request::Work { .. } | Request::Settle { .. } | Request::Live { .. } | Request::Jobs => 4,
        Request::View { .. }
        | Request::Total { .. }
        | Request::Page { .. }
        | Request::Grade { .. } => 5,
    }
}

fn role_may(role: Role, rule: u8) -> bool
    ensures { result ≡ role_may role rule }
{
    match role {
        Role::Manager => rule != 3,
        Role::Teacher => rule != 3 && rule != 1,
        Role::Student => rule == 3 || rule == 5,
    }
}

/// Whether a user may ask this. A worker has the number 0.
fn may_ask(user: &User, request: &Request) -> bool
    ensures { result ≡ may_ask user.now request.now }
{
    let rule = rule_of(request);
    if user.number == 0 {
        rule == 4
    } else {
        role_may(user.role, rule)
    }
}

/// The refusal of what a user may not ask (`Forbidden`).
pub fn forbidden(user: &User, request: &Request) -> Option<Refusal>
    ensures { result ≡ forbidden user.now request.now }
{
    if may_ask(user, request) {
        return None;
    }
    Some(Refusal::Forbidden {
        rule: rule_of(request),
    })
}

/// Whether a user is a student, who is shown own marks as the settings say.
pub fn is_student(user: &User) -> bool
    ensures { result ≡ is_student user.now }
{
    user.role == Role::Student
}

/// Whether what belongs to this owner isn't there for the user: to a student it isn't, if it is another's.
pub fn is_anothers(user: &User, owner: u32) -> bool
    ensures { result ≡ is_anothers user.now owner }
{
    is_student(user) && owner != user.number
}
