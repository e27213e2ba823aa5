// The lock.
ghost use Rattle.std.specs.Prelude.{◌≡◌, ◌≢◌, ◌+◌, ◌<◌, ◌≤◌, [], length, map, Some, IfOk, IfErr, vec_capacity};
ghost use Rattle.qz_turn.specs.Tales.{Follows, put_in};
ghost use Rattle.qz_turn.specs.Rule.{below, HasEvery};
ghost use Rattle.qz_turn.specs.Steps.{MayDeal};
ghost use Rattle.qz_turn.specs.Turns.{UnderKey, new_pass, dealt_pass, first_pass, left_of, split_off, note_of, Joins, HasTurn};

use crate::board::{Board, Place};
use crate::pass::Pass;
use crate::told::{Errand, Told};
use atomic_table::Badge;
use qz_text::NoMemory;
use std::alloc::Global;
use std::marker::Model;
use std::mem;
use std::sync::Wait;

/// A lock that its passes take in turn, and the value behind it. To a contract it is the lock that its passes
/// belong to, how many numbers they have between them, and how many items the list had when it was made (`start`).
#[derive(Drop)]
pub struct Turns<T: Told> {
    board: Board<T>,
}

impl<T: Told> Model for Turns<T> {
    ghost use Rattle.std.specs.Prelude.{length};
    ghost use Rattle.qz_turn.specs.Turns.{Locked, locked};

    ghost Value = { Locked T.Key };

    ghost view = { λ t. locked t.board.table.shared.table_id
        t.board.table.shared.key.key.value
        t.board.table.shared.key.seats
        (length (T.tells t.board.table.shared.key.start.value).list) };
}

// A pass for each number, in order.
fn deal_all<T: Told>(
    board: &Board<T>,
    mut seat: Place<T>,
    seats: u32,
    len: u64,
    mut passes: Vec<Pass<T>>,
) -> Vec<Pass<T>>
    requires own { seat.table_id ≡ board.now.table.shared.table_id }
    requires deals { MayDeal seats seat.me }
    requires len { len ≡ length seat.me.0.seen.list }
    requires room { (passes.items ≡ []) × (seats ≤ vec_capacity passes) }
    ensures { result.items ≡ map (dealt_pass seat.table_id seat.me.0) (below seats) }
{
    for number in 0..seats {
        passes.push_reserved(Pass::of(board.deal(&mut seat), len));
    }
    passes
}

impl<T: Told> Turns<T> {
    /// A lock over the value, and its passes, each with one number: the pass at place `i`, from 0, has the number
    /// `i`, and has seen what the value tells. Where memory is short the value comes back.
    pub fn new(
        alloc: Global,
        value: T,
        key: &T::Key,
        seats: u32,
    ) -> Result<(Turns<T>, Vec<Pass<T>>), (T, NoMemory)>
        requires seats { 0 < seats }
        requires fits { T.fits key.now value }
        ensures lock { IfOk result (λ made. (made.0.lock.key ≡ Some key.now)
            × (made.0.seats ≡ seats)
            × (made.0.start ≡ length (T.tells value).list)) }
        ensures passes { IfOk result (λ made. made.1.items ≡ map (new_pass made.0.lock (T.tells value)) (below seats)) }
        ensures refused { IfErr result (λ back. back.0 ≡ value) }
    {
        let Ok(passes) = Vec::with_capacity(alloc, seats as usize) else {
            return Err((value, NoMemory));
        };
        let len = value.len();
        match Board::new(alloc, value, key, seats) {
            Ok((board, seat)) => {
                let passes = deal_all(&board, seat, seats, len, passes);
                Ok((Turns { board }, passes))
            }
            Err(value) => Err((value, NoMemory)),
        }
    }

    /// A lock over the value, and its first pass, which has every number below `seats` and has seen what the value tells. Where memory
    /// is short the value comes back.
    pub fn open(
        alloc: Global,
        value: T,
        key: &T::Key,
        seats: u32,
    ) -> Result<(Turns<T>, Pass<T>), (T, NoMemory)>
        requires fits { T.fits key.now value }
        ensures lock { IfOk result (λ made. (made.0.lock.key ≡ Some key.now)
            × (made.0.seats ≡ seats)
            × (made.0.start ≡ length (T.tells value).list)) }
        ensures pass { IfOk result (λ made. made.1 ≡ first_pass made.0.lock (T.tells value) seats) }
        ensures refused { IfErr result (λ back. back.0 ≡ value) }
    {
        let len = value.len();
        match Board::new(alloc, value, key, seats) {
            Ok((board, seat)) => Ok((Turns { board }, Pass::of(seat, len))),
            Err(value) => Err((value, NoMemory)),
        }
    }

    /// Gives the pass's first number to a new pass, which has seen what this one has seen. With its last number its turns go to the
    /// new pass, else they stay. From a pass without a number the new one has none.
    pub fn split(&self, pass: &mut Pass<T>) -> Pass<T>
        requires { pass.old.lock ≡ self.now.lock }
        ensures left { pass.new ≡ left_of pass.old }
        ensures given { result ≡ split_off pass.old }
    {
        let mut seat = mem::replace(&mut pass.badge, Badge::blank()).into_seat();
        let given = self.board.deal(&mut seat);
        pass.badge = seat.into_badge();
        Pass::of(given, pass.len)
    }

    /// Waits until the turn of the pass has come, lets the errand go once, and gives the turn on. The errand may rely on what the
    /// pass has seen. A waiting thread looks a few times, and then sleeps until it is woken.
    pub fn turn<E: Errand<T>, R: Wait>(&self, rt: &R, pass: &mut Pass<T>, errand: &mut E)
        requires pass { pass.old.lock ≡ self.now.lock }
        requires number { pass.old.numbers ≢ [] }
        requires errand { UnderKey self.now.lock (λ key. E.can key pass.old.seen errand.old) }
        ensures { HasTurn T.tells T.fits E.does pass.old pass.new errand.old errand.new }
    {
        let mut seat = mem::replace(&mut pass.badge, Badge::blank()).into_seat();
        pass.len = self.board.serve(rt, &mut seat, errand);
        pass.badge = seat.into_badge();
    }

    /// A pass without a number that has seen what this one has seen, which stays as it is.
    pub fn note(&self, pass: &mut Pass<T>) -> Pass<T>
        requires { pass.old.lock ≡ self.now.lock }
        ensures kept { pass.new ≡ pass.old }
        ensures given { result ≡ note_of pass.old }
    {
        let mut seat = mem::replace(&mut pass.badge, Badge::blank()).into_seat();
        let note = self.board.note(&mut seat);
        pass.badge = seat.into_badge();
        Pass::of(note, pass.len)
    }

    /// Adds the numbers of the other pass. The pass has then seen the longer of the two lists, of which one begins
    /// the other, and the greater of the two counts of faults.
    pub fn join(&self, pass: &mut Pass<T>, other: Pass<T>)
        requires pass { pass.old.lock ≡ self.now.lock }
        requires other { other.lock ≡ self.now.lock }
        ensures { Joins pass.old other pass.new }
    {
        pass.len = pass.len.max(other.len);
        let mut seat = mem::replace(&mut pass.badge, Badge::blank()).into_seat();
        self.board.join(&mut seat, other.into_seat());
        pass.badge = seat.into_badge();
    }

    /// The value, from the pass that has every number. What the pass has seen begins what the value tells, whose list has as many
    /// items as when the lock was made and as the turns of the pass put: nobody else put any.
    pub fn close(self, pass: Pass<T>) -> T
        requires pass { pass.lock ≡ self.lock }
        requires numbers { HasEvery self.seats pass.numbers }
        ensures follows { Follows pass.seen (T.tells result) }
        ensures fits { UnderKey self.lock (λ key. T.fits key result) }
        ensures grown { length (T.tells result).list ≡ self.start + put_in pass.turns }
    {
        let Turns { board } = self;
        board.close(pass.into_seat())
    }
}
