//! Where a run began.

ghost use Rattle.std.specs.Prelude.{ℕ, [], None};
ghost use Rattle.qz_asking.specs.Asking.{Answerer};
ghost use Rattle.qz_ready_doors.specs.Halls.{Hall};

use std::marker::Brand;

/// The door and the desks as a run began with them, which clauses alone know. Who begins the run says what it was.
pub trait Began<D, L, C> {
    ghost start: { Hall L (Answerer D C) };

    // So many links are taken at most.
    ghost most: { ℕ };

    // So many desks there are.
    ghost count: { ℕ };
}

impl<D, L, C> Began<D, L, C> for Brand {
    ghost start = { record {
      entrance = record { left = None; returned = None; returns = 0; out = 0; faults = 0 };
      places = [];
    } };

    ghost most = { 0 };

    ghost count = { 0 };
}
