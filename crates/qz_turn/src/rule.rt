// The rule of a lock's table, and what its steps tell.
use crate::told::Told;
use crate::view::View;
use atomic_table::{Join, Play, Split, TableRule};
use std::snapshot::Snapshot;

/// What the table is told when it is made.
#[derive(Drop)]
pub struct About<T: Told> {
    pub key: Snapshot<T::Key>,
    pub start: Snapshot<T>,
    pub seats: u32,
}

pub struct InTurn;

impl<T: Told> TableRule<T, View<T::Item, T::Key>, About<T>> for InTurn {
    ghost use Rattle.std.specs.Prelude.{length};
    ghost use Rattle.qz_turn.specs.Rule.{Kept, dealer};

    ghost holds = { λ about. Kept T.tells T.fits about.key.value about.seats
        (length (T.tells about.start.value).list) };

    ghost first = { λ about. dealer about.key.value (T.tells about.start.value) about.seats };
}

/// A fetch_add on the word of tickets.
pub struct Draw;

impl<T: Told> Play<T, View<T::Item, T::Key>> for Draw {
    ghost use Rattle.qz_turn.specs.Steps.{draws};

    ghost then = { draws };
}

/// A load of the ticket that is served.
pub struct Look;

impl<T: Told> Play<T, View<T::Item, T::Key>> for Look {
    ghost use Rattle.qz_turn.specs.Steps.{looks};

    ghost then = { looks T.tells T.fits };
}

/// A fetch_add on that word, by the seat that has the turn.
pub struct Serve;

impl<T: Told> Play<T, View<T::Item, T::Key>> for Serve {
    ghost use Rattle.qz_turn.specs.Steps.{ends};

    ghost then = { ends T.tells };
}

/// A load, after a join.
pub struct Compare;

impl<T: Told> Play<T, View<T::Item, T::Key>> for Compare {
    ghost use Rattle.qz_turn.specs.Steps.{compares};

    ghost then = { compares };
}

/// A number goes to a new seat.
pub struct Deal;

impl<I, K> Split<View<I, K>> for Deal {
    ghost use Rattle.qz_turn.specs.Steps.{dealing, dealt_to};

    ghost left = { dealing };

    ghost right = { dealt_to };
}

/// A new seat gets to know what this one has seen.
pub struct Note;

impl<I, K> Split<View<I, K>> for Note {
    ghost use Rattle.qz_turn.specs.Steps.{noted};

    ghost left = { λ v. v };

    ghost right = { noted };
}

/// Two seats become one.
pub struct Merge;

impl<I, K> Join<View<I, K>> for Merge {
    ghost use Rattle.qz_turn.specs.Steps.{joining};
    ghost use Rattle.qz_turn.specs.Passes.{spent_view};

    ghost both = { joining };

    ghost spent = { spent_view };
}
