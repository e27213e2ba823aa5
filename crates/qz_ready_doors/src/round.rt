//! One look at a door and at the desks before it.

ghost use Rattle.std.specs.Prelude.{◌≡◌, ◌⊎◌, ◌<◌, true, length, slice_get, None, IsSomeAnd, vec_len};
ghost use Rattle.std.specs.List.{All, list_all};
ghost use Rattle.futures.specs.Task.{IsArmed, Keeps};
ghost use Rattle.qz_asking.specs.Asking.{Asks};
ghost use Rattle.qz_doors.specs.Doors.{is_short, shorter};
ghost use Rattle.qz_poll.specs.Tasks.{TakesAll};
ghost use Rattle.qz_ready_doors.specs.declared.round.Turn.TheVariants as turn;
ghost use Rattle.qz_ready_doors.specs.Halls.{entrance_by};
ghost use Rattle.qz_ready_doors.specs.Kept.{Gives, IsKept};
ghost use Rattle.qz_ready_doors.specs.Slots.{is_free};
ghost use Rattle.qz_ready_doors.specs.Waits.{IsHeard, SetsFree, SetsHeard};

use crate::began::Began;
use crate::bells::Bells;
use crate::desks::{Desks, Shut};
use crate::slot::{Ended, Line};
use futures::task::{Context, Poll};
use qz_http::LinkEnd;
use qz_links::Clock;
use qz_outside::Failed;
use qz_ready::{Arrival, ReadyDoor, ReadyLink};
use qz_terms::Desk;

/// What came of a look.
#[derive(Clone, Copy, PartialEq, Eq)]
pub enum Turn {
    /// There was nothing to do, and there is nothing to wait for.
    Idle,
    /// There is something to wait for.
    Waits,
    /// Something was done, and there may be more to do.
    Moved,
}

impl Turn {
    fn or(self, other: Turn) -> Turn
        ensures { result ≡ turn.Waits → (self ≡ turn.Waits) ⊎ (other ≡ turn.Waits) }
    {
        match (self, other) {
            (Turn::Moved, _) | (_, Turn::Moved) => Turn::Moved,
            (Turn::Waits, _) | (_, Turn::Waits) => Turn::Waits,
            (Turn::Idle, Turn::Idle) => Turn::Idle,
        }
    }
}

/// Gives a link back that has ended.
fn give_back<D, P: ReadyDoor, C, K>(
    door: &mut P,
    desks: &mut Desks<D, P::Link, C, K>,
    ended: Ended<P::Link>,
)
    requires out { 0 < P.out door.old }
    requires few { desks.old.short < desks.old.taken }
    ensures gives { Gives (entrance_by P.left P.returned P.returns P.out P.faults door.old)
        (entrance_by P.left P.returned P.returns P.out P.faults door.new) ended.link }
    ensures counts { desks.new ≡ record desks.old {
      short = shorter (is_short ended.why) desks.old.short;
    } }
{
    let Ended { link, why } = ended;
    if why == LinkEnd::Memory {
        desks.short += 1;
    }
    door.back(link);
}

/// Tries the door for a link to a desk that is free. False where none has come yet.
fn take<D: Desk + Drop, P: ReadyDoor<Link: Drop>, C: Clock + Drop, K: Began<D, P::Link, C>>(
    door: &mut P,
    desks: &mut Desks<D, P::Link, C, K>,
    line: &Line,
    at: usize,
) -> bool
    requires kept { ∥ IsKept (Asks C.tells D.answers) P.Link.ReadyLink K.start
        (entrance_by P.left P.returned P.returns P.out P.faults door.old) desks.old ∥₁ }
    requires free { IsSomeAnd (slice_get desks.old.slots.items at) (λ slot. is_free slot ≡ true) }
    requires more { (desks.old.taken < desks.old.most) × (desks.old.shut ≡ None) }
    ensures kept { ∥ IsKept (Asks C.tells D.answers) P.Link.ReadyLink K.start
        (entrance_by P.left P.returned P.returns P.out P.faults door.new) desks.new ∥₁ }
    ensures long { vec_len desks.new.slots ≡ vec_len desks.old.slots }
    ensures most { desks.new.most ≡ desks.old.most }
{
    match door.try_next() {
        Ok(Arrival::Link(link)) => {
            desks.taken += 1;
            if let Some(ended) = desks.slots[at].open(line, link) {
                give_back(door, desks, ended);
            }
            true
        }
        Ok(Arrival::NotYet) => false,
        Ok(Arrival::Over) => {
            desks.shut = Some(Shut::Over);
            true
        }
        Err(Failed) => {
            desks.shut = Some(Shut::Fault);
            true
        }
    }
}

/// Takes the next link, where a desk is free and one may come.
fn admit<D: Desk + Drop, P: ReadyDoor<Link: Drop>, C: Clock + Drop, K: Began<D, P::Link, C>>(
    door: &mut P,
    desks: &mut Desks<D, P::Link, C, K>,
    line: &Line,
    cx: &mut Context<'_>,
) -> Turn
    requires kept { ∥ IsKept (Asks C.tells D.answers) P.Link.ReadyLink K.start
        (entrance_by P.left P.returned P.returns P.out P.faults door.old) desks.old ∥₁ }
    ensures kept { ∥ IsKept (Asks C.tells D.answers) P.Link.ReadyLink K.start
        (entrance_by P.left P.returned P.returns P.out P.faults door.new) desks.new ∥₁ }
    ensures armed { result ≡ turn.Waits → IsArmed cx.new }
    ensures long { vec_len desks.new.slots ≡ vec_len desks.old.slots }
    ensures most { desks.new.most ≡ desks.old.most }
    ensures goes_on { Keeps cx.old cx.new }
{
    let Some(at) = desks.next_free() else {
        return Turn::Idle;
    };
    let Poll::Ready(fired) = cx.poll_fired(&line.door_key) else {
        return Turn::Waits;
    };
    if take(door, desks, line, at) {
        return Turn::Moved;
    }
    match fired {
        Ok(seen) => {
            let _ = cx.blocked::<()>(&line.door_key, seen);
            Turn::Waits
        }
        Err(_) => Turn::Moved,
    }
}

/// Goes on with the link at a desk, and gives it back where it has ended.
fn serve_at<D: Desk + Drop, P: ReadyDoor<Link: Drop>, C: Clock + Drop, K: Began<D, P::Link, C>>(
    door: &mut P,
    desks: &mut Desks<D, P::Link, C, K>,
    bells: &Bells,
    at: usize,
    cx: &mut Context<'_>,
) -> Turn
    requires takes { TakesAll D.takes }
    requires within { at < length desks.old.slots.items }
    requires kept { ∥ IsKept (Asks C.tells D.answers) P.Link.ReadyLink K.start
        (entrance_by P.left P.returned P.returns P.out P.faults door.old) desks.old ∥₁ }
    ensures kept { ∥ IsKept (Asks C.tells D.answers) P.Link.ReadyLink K.start
        (entrance_by P.left P.returned P.returns P.out P.faults door.new) desks.new ∥₁ }
    ensures heard { SetsHeard cx.new desks.old.slots.items desks.new.slots.items at }
    ensures armed { result ≡ turn.Waits → IsArmed cx.new }
    ensures goes_on { Keeps cx.old cx.new }
    ensures long { vec_len desks.new.slots ≡ vec_len desks.old.slots }
    ensures most { desks.new.most ≡ desks.old.most }
{
    let Some(ended) = desks.slots[at].go_on(cx) else {
        return if desks.slots[at].is_free() {
            Turn::Idle
        } else {
            Turn::Waits
        };
    };
    bells.take_down(ended.link.key());
    give_back(door, desks, ended);
    Turn::Moved
}

/// Takes the next link, if one comes and a desk is free, and goes on with each link that is open and whose bell was rung.
pub fn round<D: Desk + Drop, P: ReadyDoor<Link: Drop>, C: Clock + Drop, K: Began<D, P::Link, C>>(
    door: &mut P,
    desks: &mut Desks<D, P::Link, C, K>,
    line: &Line,
    cx: &mut Context<'_>,
) -> Turn
    requires takes { TakesAll D.takes }
    requires kept { ∥ IsKept (Asks C.tells D.answers) P.Link.ReadyLink K.start
        (entrance_by P.left P.returned P.returns P.out P.faults door.old) desks.old ∥₁ }
    ensures kept { ∥ IsKept (Asks C.tells D.answers) P.Link.ReadyLink K.start
        (entrance_by P.left P.returned P.returns P.out P.faults door.new) desks.new ∥₁ }
    ensures heard { All (IsHeard cx.new) desks.new.slots.items }
    ensures armed { result ≡ turn.Waits → IsArmed cx.new }
    ensures goes_on { Keeps cx.old cx.new }
    ensures long { vec_len desks.new.slots ≡ vec_len desks.old.slots }
    ensures most { desks.new.most ≡ desks.old.most }
{
    let mut turn = admit(door, desks, line, cx);
    for at in 0..desks.slots.len() {
        turn = turn.or(serve_at(door, desks, &line.bells, at, cx));
    }
    turn
}

/// Gives up the link at a desk, if there is one, and gives it back.
fn stop_at<D: Desk + Drop, P: ReadyDoor<Link: Drop>, C: Clock + Drop, K: Began<D, P::Link, C>>(
    door: &mut P,
    desks: &mut Desks<D, P::Link, C, K>,
    at: usize,
)
    requires within { at < length desks.old.slots.items }
    requires kept { ∥ IsKept (Asks C.tells D.answers) P.Link.ReadyLink K.start
        (entrance_by P.left P.returned P.returns P.out P.faults door.old) desks.old ∥₁ }
    ensures kept { ∥ IsKept (Asks C.tells D.answers) P.Link.ReadyLink K.start
        (entrance_by P.left P.returned P.returns P.out P.faults door.new) desks.new ∥₁ }
    ensures frees { SetsFree desks.old.slots.items desks.new.slots.items at }
    ensures long { vec_len desks.new.slots ≡ vec_len desks.old.slots }
    ensures most { desks.new.most ≡ desks.old.most }
{
    if let Some(ended) = desks.slots[at].stop() {
        give_back(door, desks, ended);
    }
}

/// Gives up each link that is still open, and gives it back.
pub fn stop_all<D: Desk + Drop, P: ReadyDoor<Link: Drop>, C: Clock + Drop, K: Began<D, P::Link, C>>(
    door: &mut P,
    desks: &mut Desks<D, P::Link, C, K>,
)
    requires kept { ∥ IsKept (Asks C.tells D.answers) P.Link.ReadyLink K.start
        (entrance_by P.left P.returned P.returns P.out P.faults door.old) desks.old ∥₁ }
    ensures kept { ∥ IsKept (Asks C.tells D.answers) P.Link.ReadyLink K.start
        (entrance_by P.left P.returned P.returns P.out P.faults door.new) desks.new ∥₁ }
    ensures free { list_all is_free desks.new.slots.items ≡ true }
    ensures long { vec_len desks.new.slots ≡ vec_len desks.old.slots }
    ensures most { desks.new.most ≡ desks.old.most }
{
    for at in 0..desks.slots.len() {
        stop_at(door, desks, at);
    }
}
