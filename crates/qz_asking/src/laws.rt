//! What requests that were asked one after the other lead to.

ghost use Rattle.qz_asking.specs.Following.{LeadsOn};

use qz_terms::Desk;

/// Requests that lead from one desk to a second, and requests that lead from the second to a third, lead from the first to the third.
pub fn leads_on<D: Desk>()
    ensures { LeadsOn D.answers }
{}
