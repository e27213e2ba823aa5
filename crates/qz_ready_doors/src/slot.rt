//! A desk at a door, and the link that it serves.

ghost use Rattle.std.specs.Prelude.{◌≡◌, false, true, IfNone, MatchOption, OnSome};
ghost use Rattle.futures.specs.Task.{IsArmed, Keeps};
ghost use Rattle.qz_asking.specs.Asking.{Asks};
ghost use Rattle.qz_poll.specs.Tasks.{TakesAll};
ghost use Rattle.qz_ready_doors.specs.declared.slot.Slot.TheVariants as slots;
ghost use Rattle.qz_ready_doors.specs.Slots.{Declines, Frees, IsSlot, Opens, Stays, is_free};
ghost use Rattle.qz_ready_doors.specs.Waits.{IsHeard};

use crate::bells::Bells;
use core::mem::replace_with;
use futures::Future;
use futures::task::{Context, Key, Keys, Poll};
use qz_http::LinkEnd;
use qz_links::Clock;
use qz_poll::{LinkTask, TaskEnd};
use qz_ready::ReadyLink;
use qz_terms::Desk;
use std::alloc::Global;
use std::snapshot::Snapshot;

/// A desk with its clock.
#[derive(Drop)]
pub enum Slot<D, L, C> {
    /// It is free.
    Free(D, C),
    /// It serves a link.
    Open(Taken<D, L, C>),
}

/// A link that was taken, and is served.
#[derive(Drop)]
pub struct Taken<D, L, C> {
    task: LinkTask<D, L, C>,
    // As they were when it was taken. Only clauses read these.
    link: Snapshot<L>,
    desk: Snapshot<D>,
    clock: Snapshot<C>,
}

/// A link that has ended, and why.
#[derive(Drop)]
pub struct Ended<L> {
    pub link: L,
    pub why: LinkEnd,
}

/// What a run waits with: where its tasks come from, and who rings them.
#[derive(Drop)]
pub struct Line {
    pub alloc: Global,
    pub keys: Keys,
    /// The key that it waits at for the door.
    pub door_key: Key,
    pub bells: Bells,
}

impl<D, L, C> Slot<D, L, C> {
    pub fn is_free(&self) -> bool
        ensures { result ≡ is_free self.now }
    {
        match self {
            Slot::Free(_, _) => true,
            Slot::Open(_) => false,
        }
    }
}

impl<D: Desk + Drop, L: ReadyLink + Drop, C: Clock + Drop> Slot<D, L, C> {
    /// Takes a link to a desk that is free, and hangs its bell. Where memory is wanting for it, it has ended.
    pub fn open(&mut self, line: &Line, link: L) -> Option<Ended<L>>
        requires free { is_free self.old ≡ true }
        ensures opens { MatchOption result (Opens (Asks C.tells D.answers) L.ReadyLink self.old self.new link)
            (Declines (Asks C.tells D.answers) L.ReadyLink self.old self.new link) }
    {
        replace_with(self, (line, link), opened)
    }

    /// Goes on with the link, if there is one whose bell was rung. Gives it where it has ended; else this poll waits for it.
    pub fn go_on(&mut self, cx: &mut Context<'_>) -> Option<Ended<L>>
        requires takes { TakesAll D.takes }
        requires slot { ∥ IsSlot (Asks C.tells D.answers) L.ReadyLink self.old ∥₁ }
        ensures goes { IsSlot (Asks C.tells D.answers) L.ReadyLink self.old → MatchOption result
            (Stays (Asks C.tells D.answers) L.ReadyLink self.old self.new)
            (Frees (Asks C.tells D.answers) L.ReadyLink self.old self.new) }
        ensures armed { IfNone result (is_free self.new ≡ false → IsArmed cx.new) }
        ensures heard { IfNone result (IsHeard cx.new self.new) }
        ensures freed { OnSome result (is_free self.new ≡ true) }
        ensures kept { Keeps cx.old cx.new }
    {
        let Slot::Open(taken) = self else {
            return None;
        };
        if !taken.task.is_rung(cx) {
            return None;
        }
        let Poll::Ready(end) = taken.task.poll(cx) else {
            return None;
        };
        let (slot, ended) = freed(end);
        *self = slot;
        Some(ended)
    }

    /// Gives the link up, if there is one: it ends for want of memory.
    pub fn stop(&mut self) -> Option<Ended<L>>
        requires slot { ∥ IsSlot (Asks C.tells D.answers) L.ReadyLink self.old ∥₁ }
        ensures stops { IsSlot (Asks C.tells D.answers) L.ReadyLink self.old → MatchOption result
            (self.new ≡ self.old) (Frees (Asks C.tells D.answers) L.ReadyLink self.old self.new) }
        ensures free { is_free self.new ≡ true }
    {
        replace_with(self, (), stopped)
    }
}

fn opened<D: Desk + Drop, L: ReadyLink + Drop, C: Clock + Drop>(
    slot: Slot<D, L, C>,
    arrival: (&Line, L),
) -> (Slot<D, L, C>, Option<Ended<L>>)
    requires free { is_free slot ≡ true }
    ensures opens { MatchOption result.1
        (Opens (Asks C.tells D.answers) L.ReadyLink slot result.0 arrival.entry.1)
        (Declines (Asks C.tells D.answers) L.ReadyLink slot result.0 arrival.entry.1) }
{
    let (line, link) = arrival;
    let Slot::Free(desk, clock) = slot else {
        unreachable!()
    };
    let key = link.key();
    let (first, at, then) = (
        Snapshot::of(&link),
        Snapshot::of(&desk),
        Snapshot::of(&clock),
    );
    match LinkTask::new(line.alloc, &line.keys, desk, link, clock) {
        Ok(task) => hung(
            line,
            key,
            Taken {
                task,
                link: first,
                desk: at,
                clock: then,
            },
        ),
        Err((desk, link, clock)) => (
            Slot::Free(desk, clock),
            Some(Ended {
                link,
                why: LinkEnd::Memory,
            }),
        ),
    }
}

/// A link that was taken, whose bell hangs. Where memory is wanting for that, it has ended.
fn hung<D: Desk + Drop, L: ReadyLink + Drop, C: Clock + Drop>(
    line: &Line,
    key: u64,
    taken: Taken<D, L, C>,
) -> (Slot<D, L, C>, Option<Ended<L>>)
    requires slot { IsSlot (Asks C.tells D.answers) L.ReadyLink (slots.Open taken) }
    ensures hangs { MatchOption result.1 (result.0 ≡ slots.Open taken)
        (Frees (Asks C.tells D.answers) L.ReadyLink (slots.Open taken) result.0) }
{
    if line.bells.hang(key, taken.task.bell()).is_ok() {
        return (Slot::Open(taken), None);
    }
    let (slot, ended) = freed(taken.task.stop());
    (slot, Some(ended))
}

/// What is left of a link that has ended.
fn freed<D, L, C>(end: TaskEnd<D, L, C>) -> (Slot<D, L, C>, Ended<L>)
    ensures slot { result.0 ≡ slots.Free end.desk end.clock }
    ensures ended { result.1 ≡ record { link = end.link; why = end.why } }
{
    let TaskEnd {
        why,
        link,
        desk,
        clock,
    } = end;
    (Slot::Free(desk, clock), Ended { link, why })
}

fn stopped<D: Desk + Drop, L: ReadyLink + Drop, C: Clock + Drop>(
    slot: Slot<D, L, C>,
    _nothing: (),
) -> (Slot<D, L, C>, Option<Ended<L>>)
    requires slot { ∥ IsSlot (Asks C.tells D.answers) L.ReadyLink slot ∥₁ }
    ensures stops { IsSlot (Asks C.tells D.answers) L.ReadyLink slot → MatchOption result.1
        (result.0 ≡ slot) (Frees (Asks C.tells D.answers) L.ReadyLink slot result.0) }
    ensures free { is_free result.0 ≡ true }
{
    match slot {
        Slot::Free(desk, clock) => (Slot::Free(desk, clock), None),
        Slot::Open(taken) => {
            let (slot, ended) = freed(taken.task.stop());
            (slot, Some(ended))
        }
    }
}
