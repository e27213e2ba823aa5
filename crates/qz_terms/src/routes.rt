//! Where a request goes: to the catalogue, or to the shard of the user whom it names.

ghost use Rattle.std.specs.Prelude.{◌≡◌};
ghost use Rattle.qz_terms.specs.Answer.{attempt_named, named_user};
ghost use Rattle.qz_terms.specs.CatalogAnswer.{asks_catalog};

use crate::{Request, User};
use qz_grading::AttemptId;

/// Whether a request goes to the catalogue.
pub fn asks_catalog(request: &Request) -> bool
    ensures { result ≡ asks_catalog request.now }
{
    match request {
        Request::User { .. }
        | Request::Group { .. }
        | Request::Member { .. }
        | Request::Import { .. }
        | Request::Edit { .. }
        | Request::Tune { .. }
        | Request::Quiz { .. }
        | Request::Slot { .. }
        | Request::Ready { .. }
        | Request::Remax { .. }
        | Request::Policy { .. }
        | Request::Times { .. }
        | Request::Override { .. }
        | Request::Regrade { .. }
        | Request::Jobs
        | Request::Bank { .. } => true,
        Request::Start { .. }
        | Request::Save { .. }
        | Request::Submit { .. }
        | Request::Again { .. }
        | Request::Finish { .. }
        | Request::Mark { .. }
        | Request::Work { .. }
        | Request::Settle { .. }
        | Request::Live { .. }
        | Request::View { .. }
        | Request::Total { .. }
        | Request::Page { .. }
        | Request::Grade { .. }
        | Request::Report { .. } => false,
    }
}

/// The attempt that a request names, if it names one. The one that `Live` names is only a bound.
pub fn attempt_named(request: &Request) -> Option<AttemptId>
    ensures { result ≡ attempt_named request.now }
{
    match request {
        Request::Save { attempt, .. }
        | Request::Submit { attempt, .. }
        | Request::Again { attempt, .. }
        | Request::Finish { attempt }
        | Request::Mark { attempt, .. }
        | Request::Settle { attempt }
        | Request::View { attempt, .. }
        | Request::Total { attempt }
        | Request::Page { attempt } => Some(*attempt),
        Request::User { .. }
        | Request::Group { .. }
        | Request::Member { .. }
        | Request::Import { .. }
        | Request::Edit { .. }
        | Request::Tune { .. }
        | Request::Quiz { .. }
        | Request::Slot { .. }
        | Request::Ready { .. }
        | Request::Remax { .. }
        | Request::Policy { .. }
        | Request::Times { .. }
        | Request::Override { .. }
        | Request::Regrade { .. }
        | Request::Start { .. }
        | Request::Work { .. }
        | Request::Live { .. }
        | Request::Jobs
        | Request::Grade { .. }
        | Request::Report { .. }
        | Request::Bank { .. } => None,
    }
}

/// The user whose attempt or grade a request names. A start names its caller.
pub fn named_user(user: &User, request: &Request) -> u32
    ensures { result ≡ named_user user.now request.now }
{
    if let Request::Grade { user: owner, .. } = request {
        return *owner;
    }
    match attempt_named(request) {
        Some(attempt) => attempt.user,
        None => user.number,
    }
}
