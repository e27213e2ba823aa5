//! The future that serves a door, and what is known whenever it ends.

ghost use Rattle.std.specs.Prelude.{◌≡◌, vec_len};
ghost use Rattle.qz_asking.specs.Asking.{Asks};
ghost use Rattle.qz_poll.specs.Tasks.{TakesAll};
ghost use Rattle.qz_ready_doors.specs.Halls.{entrance_by};
ghost use Rattle.qz_ready_doors.specs.Kept.{IsKept};

use crate::Watch;
use crate::began::Began;
use crate::bells::Bells;
use crate::desks::Desks;
use crate::ringing::Ringing;
use crate::round::{Turn, round};
use crate::slot::Line;
use futures::Future;
use futures::executor::EventLoop;
use futures::task::{Context, Doorbell, Poll};
use qz_links::Clock;
use qz_ready::ReadyDoor;
use qz_terms::Desk;
use std::alloc::AllocGlobal;
use std::random::RandomSource;
use std::sync::Wait;

/// A door and the desks before it, while its links are served. A run may fail at any time for want of memory, and then nothing is
/// told but what always holds: that it is still as the links served so far left it.
pub struct Held<D: Desk, P: ReadyDoor, C: Clock, K: Began<D, P::Link, C>> {
    pub door: P,
    pub desks: Desks<D, P::Link, C, K>,
    pub ghost most: { desks.most ≡ K.most },
    pub ghost count: { vec_len desks.slots ≡ K.count },
    pub ghost kept: { ∥ IsKept (Asks C.tells D.answers) P.Link.ReadyLink K.start
        (entrance_by P.left P.returned P.returns P.out P.faults door) desks ∥₁ },
}

/// Serves the links of a door until no more are taken and none is open.
#[derive(Drop)]
struct Lead<'a, 'b, D: Desk, P: ReadyDoor, C: Clock, K: Began<D, P::Link, C>> {
    held: &'a mut Held<D, P, C, K>,
    line: &'b Line,
}

impl<D: Desk + Drop, P: ReadyDoor<Link: Drop>, C: Clock + Drop, K: Began<D, P::Link, C>> Future
    for Lead<'_, '_, D, P, C, K> {
    ghost use Rattle.qz_ready_doors.specs.Waits.{IsAwaited};

    type Output = ();

    ghost can_poll = { λ _. TakesAll D.takes };

    ghost needs = { λ lead. IsAwaited lead.held.now.desks.slots.items };

    fn poll(&mut self, cx: &mut Context<'_>) -> Poll<()> {
        let line = self.line;
        let Held { door, desks } = &mut *self.held;
        match round(door, desks, line, cx) {
            Turn::Moved => cx.yield_now(),
            Turn::Waits => Poll::Pending,
            Turn::Idle => Poll::Ready(()),
        }
    }
}

/// Serves the links of a door. Where memory is wanting it ends early: what it leaves is known in each case.
pub(crate) fn run<R, W, D, P, C, K>(rt: &R, watch: &mut W, held: &mut Held<D, P, C, K>)
where
    R: Wait + RandomSource + AllocGlobal,
    W: Watch,
    D: Desk + Drop,
    P: ReadyDoor<Link: Drop>,
    C: Clock + Drop,
    K: Began<D, P::Link, C>,
    requires takes { TakesAll D.takes }
{
    let alloc = rt.alloc();
    let Ok(mut looped) = EventLoop::new(rt, Doorbell::spinning()) else {
        return;
    };
    let Ok(keys) = looped.keys().clone() else {
        return;
    };
    let Ok(door_key) = keys.issue() else {
        return;
    };
    let line = Line {
        alloc,
        keys,
        door_key,
        bells: Bells::new(alloc),
    };
    if line
        .bells
        .hang(held.door.key(), line.door_key.bell())
        .is_err()
    {
        return;
    }
    let mut ringing = Ringing::new(watch, &line.bells);
    let _ = looped.block_on(rt, &mut ringing, Lead { held, line: &line });
}
