//! Serving a door whose links never wait.

ghost use Rattle.std.specs.Prelude.{◌≡◌, ◌↔◌, ◌≤◌, true, [], map, Some, vec_capacity, vec_len};
ghost use Rattle.std.specs.List.{list_all};
ghost use Rattle.qz_asking.specs.Asking.{Asks};
ghost use Rattle.qz_poll.specs.Tasks.{TakesAll};
ghost use Rattle.qz_ready_doors.specs.declared.desks.Shut.TheVariants as shuts;
ghost use Rattle.qz_ready_doors.specs.declared.end.PollWhy.TheVariants as ends;
ghost use Rattle.qz_ready_doors.specs.Halls.{ServesReady, all_free, entrance_by};
ghost use Rattle.qz_ready_doors.specs.Kept.{EndsAtOnce, IsKept, free_slot, peer_of};
ghost use Rattle.qz_ready_doors.specs.Slots.{is_free};

use crate::began::Began;
use crate::desks::{Desks, Shut};
use crate::lead::{Held, run};
use crate::round::stop_all;
use crate::slot::Slot;
use crate::{PollEnd, PollWhy, Watch};
use core::mem::replace_with;
use qz_links::Clock;
use qz_ready::ReadyDoor;
use qz_terms::Desk;
use std::alloc::AllocGlobal;
use std::collections::VecDeque;
use std::marker::{Brand, PhantomData};
use std::random::RandomSource;
use std::sync::Wait;

/// What a door is served with.
struct Work<'a, R, W, D, C> {
    rt: &'a R,
    watch: &'a mut W,
    desks: Vec<(D, C)>,
    links: u64,
}

/// The desks, all of them free, in a vector that has room for them.
fn seated<D: Drop, L: Drop, C: Drop>(
    desks: Vec<(D, C)>,
    mut slots: Vec<Slot<D, L, C>>,
) -> Vec<Slot<D, L, C>>
    requires empty { slots.items ≡ [] }
    requires room { vec_len desks ≤ vec_capacity slots }
    ensures { result.items ≡ map free_slot desks.items }
{
    let mut rest = VecDeque::from_vec(desks);
    while let Some(seat) = rest.pop_front() {
        slots.push_reserved(Slot::Free(seat.0, seat.1));
    }
    slots
}

/// The desks of slots that are free, in a vector that has room for them.
fn vacated<D: Drop, L: Drop, C: Drop>(
    slots: Vec<Slot<D, L, C>>,
    mut desks: Vec<(D, C)>,
) -> Vec<(D, C)>
    requires free { list_all is_free slots.items ≡ true }
    requires empty { desks.items ≡ [] }
    requires room { vec_len slots ≤ vec_capacity desks }
    ensures { slots.items ≡ map free_slot result.items }
{
    let mut rest = VecDeque::from_vec(slots);
    while let Some(slot) = rest.pop_front() {
        match slot {
            Slot::Free(desk, clock) => desks.push_reserved((desk, clock)),
            Slot::Open(_) => unreachable!(),
        }
    }
    desks
}

/// Why no more links were taken.
fn why<D, L, C, K>(desks: &Desks<D, L, C, K>) -> PollWhy
    ensures enough { (result ≡ ends.Enough) ↔ (desks.now.most ≤ desks.now.taken) }
    ensures over { result ≡ ends.Over → desks.now.shut ≡ Some shuts.Over }
    ensures fault { result ≡ ends.DoorFault → desks.now.shut ≡ Some shuts.Fault }
{
    if desks.taken >= desks.most {
        return PollWhy::Enough;
    }
    match desks.shut {
        Some(Shut::Over) => PollWhy::Over,
        Some(Shut::Fault) => PollWhy::DoorFault,
        None => PollWhy::Memory,
    }
}

/// No memory was found to begin with.
fn none_taken<D, C>(desks: Vec<(D, C)>, links: u64) -> PollEnd<D, C>
    ensures desks { result.desks ≡ desks }
    ensures none { (result.links ≡ 0) × (result.short ≡ 0) }
    ensures why { EndsAtOnce links result.why }
{
    PollEnd {
        links: 0,
        short: 0,
        desks,
        why: if links == 0 {
            PollWhy::Enough
        } else {
            PollWhy::Memory
        },
    }
}

/// How it ended, where the run has: the links that are still open are given up first.
fn ended<D: Desk + Drop, P: ReadyDoor<Link: Drop>, C: Clock + Drop, K: Began<D, P::Link, C>>(
    mut door: P,
    mut desks: Desks<D, P::Link, C, K>,
    room: Vec<(D, C)>,
) -> (P, PollEnd<D, C>)
    requires kept { ∥ IsKept (Asks C.tells D.answers) P.Link.ReadyLink K.start
        (entrance_by P.left P.returned P.returns P.out P.faults door) desks ∥₁ }
    requires empty { room.items ≡ [] }
    requires room { vec_len desks.slots ≤ vec_capacity room }
    ensures serves { ∥ ServesReady (Asks C.tells D.answers) (peer_of P.Link.ReadyLink) desks.most
        K.start (entrance_by P.left P.returned P.returns P.out P.faults result.0)
        result.1.desks.items result.1.links result.1.short result.1.why ∥₁ }
{
    stop_all(&mut door, &mut desks);
    let why = why(&desks);
    let Desks {
        slots,
        taken,
        short,
        most: _,
        shut: _,
        began: _,
    } = desks;
    let end = PollEnd {
        links: taken,
        short,
        desks: vacated(slots, room),
        why,
    };
    (door, end)
}

/// Serves a door that the run has for itself.
fn serve_from<R, W, D, P, C, K>(door: P, work: Work<'_, R, W, D, C>) -> (P, PollEnd<D, C>)
where
    R: Wait + RandomSource + AllocGlobal,
    W: Watch,
    D: Desk + Drop,
    P: ReadyDoor<Link: Drop>,
    C: Clock + Drop,
    K: Began<D, P::Link, C>,
    requires takes { TakesAll D.takes }
    requires start { K.start ≡ all_free
        (entrance_by P.left P.returned P.returns P.out P.faults door) work.desks.items }
    requires most { K.most ≡ work.links }
    requires count { K.count ≡ vec_len work.desks }
    ensures serves { ∥ ServesReady (Asks C.tells D.answers) (peer_of P.Link.ReadyLink)
        work.entry.links K.start
        (entrance_by P.left P.returned P.returns P.out P.faults result.0)
        result.1.desks.items result.1.links result.1.short result.1.why ∥₁ }
{
    let Work {
        rt,
        watch,
        desks,
        links,
    } = work;
    let alloc = rt.alloc();
    let (Ok(slots), Ok(room)) = (
        Vec::with_capacity(alloc, desks.len()),
        Vec::with_capacity(alloc, desks.len()),
    ) else {
        return (door, none_taken(desks, links));
    };
    let mut held = Held::<D, P, C, K> {
        door,
        desks: Desks {
            slots: seated(desks, slots),
            most: links,
            taken: 0,
            short: 0,
            shut: None,
            began: PhantomData,
        },
    };
    run(rt, watch, &mut held);
    let Held { door, desks } = held;
    ended(door, desks, room)
}

/// The same, where nobody knows yet how it began.
fn serve_owned<R, W, D, P, C>(door: P, work: Work<'_, R, W, D, C>) -> (P, PollEnd<D, C>)
where
    R: Wait + RandomSource + AllocGlobal,
    W: Watch,
    D: Desk + Drop,
    P: ReadyDoor<Link: Drop>,
    C: Clock + Drop,
    requires takes { TakesAll D.takes }
    ensures serves { ∥ ServesReady (Asks C.tells D.answers) (peer_of P.Link.ReadyLink)
        work.entry.links
        (all_free (entrance_by P.left P.returned P.returns P.out P.faults door)
        work.entry.desks.items)
        (entrance_by P.left P.returned P.returns P.out P.faults result.0)
        result.1.desks.items result.1.links result.1.short result.1.why ∥₁ }
{
    serve_from::<R, W, D, P, C, Brand>(door, work)
}

/// Serves the links of a door on this thread: each is taken to a desk that is free, answered there as `serve_link` answers, and given back as
/// soon as it has ended. Links that wait cost the others nothing. What a watch finds ready goes on.
///
/// It ends when `links` of them were taken, none is left or the door fails, and those that were taken have ended. Where memory is wanting for
/// the run itself, the links that are open are given up: they end for want of memory, as others do for which it is wanting.
pub fn serve_ready<R, W, D, P, C>(
    rt: &R,
    watch: &mut W,
    desks: Vec<(D, C)>,
    door: &mut P,
    links: u64,
) -> PollEnd<D, C>
where
    R: Wait + RandomSource + AllocGlobal,
    W: Watch,
    D: Desk + Drop,
    P: ReadyDoor<Link: Drop>,
    C: Clock + Drop,
    requires takes { TakesAll D.takes }
    ensures serves { ∥ ServesReady (Asks C.tells D.answers) (peer_of P.Link.ReadyLink) links
        (all_free (entrance_by P.left P.returned P.returns P.out P.faults door.old) desks.items)
        (entrance_by P.left P.returned P.returns P.out P.faults door.new)
        result.desks.items result.links result.short result.why ∥₁ }
{
    let work = Work {
        rt,
        watch,
        desks,
        links,
    };
    replace_with(door, work, serve_owned)
}
