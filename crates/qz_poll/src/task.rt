//! The task that serves one link.

ghost use Rattle.std.specs.Prelude.{◌≡◌, false, IfErr, IfOk, IsSome, IsSomeAnd, option_map};
ghost use Rattle.futures.specs.Poll.{IfReady, OnPending};
ghost use Rattle.futures.specs.Task.{Covers, Keeps};
ghost use Rattle.futures.specs.Task.EventLoop.Names.{key_source};
ghost use Rattle.qz_http.specs.declared.items.LinkEnd.TheVariants as end;
ghost use Rattle.qz_asking.specs.Asking.{Asks};
ghost use Rattle.qz_poll.specs.Outsides.{outside_of};
ghost use Rattle.qz_poll.specs.Tasks.{Begins, MayEnd, MayPoll, PollsOn, TakesAll};

use crate::outbox::Outbox;
use crate::serving::Serving;
use crate::step::Advance;
use futures::Future;
use futures::task::{Bell, Context, Key, Keys, Poll};
use qz_http::{LinkCore, LinkEnd};
use qz_links::Clock;
use qz_ready::ReadyLink;
use qz_terms::Desk;
use std::alloc::Global;

/// One read gives at most so many bytes: as many as a head has.
const PIECE: usize = 8192;

/// How a link ended, and what it was served with.
#[derive(Drop)]
pub struct TaskEnd<D, L, C> {
    pub why: LinkEnd,
    pub link: L,
    pub desk: D,
    pub clock: C,
}

/// A link that is served whenever it is ready, by a desk that it has for itself. A poll goes on until the link isn't ready,
/// or 64 requests were answered; and then others have their turn.
///
/// Each request is answered, and its response written, before the next bytes are read, as by a thread of the link's own. In
/// between a task waits at its key, whose bell is to be rung where the link has become ready.
#[derive(Drop)]
pub struct LinkTask<D, L, C> {
    alloc: Global,
    key: Key,
    serving: Option<Serving<D, L, C>>,
}

impl<D: Desk, L: ReadyLink, C: Clock> LinkTask<D, L, C> {
    /// A task for a link of which nothing was read yet, with a key of this event loop's own. Where memory is wanting for it, the
    /// desk, the link and the clock come back.
    pub fn new(
        alloc: Global,
        keys: &Keys,
        desk: D,
        link: L,
        clock: C,
    ) -> Result<LinkTask<D, L, C>, (D, L, C)>
        ensures begins { IfOk result (λ task. IsSomeAnd task.serving
            (Begins (Asks C.tells D.answers) L.ReadyLink desk link clock)) }
        ensures refused { IfErr result (λ back. (back.0 ≡ desk) × (back.1 ≡ link) × (back.2 ≡ clock)) }
    {
        let Ok(key) = keys.issue() else {
            return Err((desk, link, clock));
        };
        let Ok(room) = vec![in alloc; 0u8; PIECE] else {
            return Err((desk, link, clock));
        };
        let Ok(core) = LinkCore::new(alloc) else {
            return Err((desk, link, clock));
        };
        Ok(LinkTask {
            alloc,
            key,
            serving: Some(Serving {
                desk,
                link,
                clock,
                core,
                room,
                outbox: Outbox::new(alloc),
                over: None,
            }),
        })
    }

    /// The key of the link, until it is over.
    pub fn key(&self) -> Option<u64>
        ensures { result ≡ option_map (λ s. L.key s.link) self.now.serving }
    {
        match &self.serving {
            Some(serving) => Some(serving.link.key()),
            None => None,
        }
    }

    /// What is to be rung where the link has become ready.
    pub fn bell(&self) -> Bell
        ensures { result ≡ self.now.key.bell }
    {
        self.key.bell()
    }

    /// Whether the bell was rung since a poll found the link not ready. Where it wasn't, the task waits at its key again, as
    /// after such a poll.
    pub fn is_rung(&self, cx: &mut Context<'_>) -> bool
        ensures waits { result ≡ false → Covers cx.new (λ s. s ≡ key_source self.now.key) }
        ensures kept { Keeps cx.old cx.new }
    {
        match cx.poll_fired(&self.key) {
            Poll::Ready(_) => true,
            Poll::Pending => false,
        }
    }

    /// Gives the link up before it is over. It ends as one for which memory was wanting.
    pub fn stop(self) -> TaskEnd<D, L, C>
        requires { MayPoll (Asks C.tells D.answers) L.ReadyLink self.serving }
        ensures ends { MayEnd (Asks C.tells D.answers) L.ReadyLink self.serving result }
        ensures why { result.why ≡ end.Memory }
    {
        let LinkTask {
            alloc: _,
            key: _,
            serving,
        } = self;
        let Some(serving) = serving else {
            unreachable!()
        };
        ended(serving, LinkEnd::Memory)
    }
}

impl<D: Desk + Drop, L: ReadyLink + Drop, C: Clock + Drop> Future for LinkTask<D, L, C> {
    type Output = TaskEnd<D, L, C>;

    ghost can_poll = { λ task. MayPoll (Asks C.tells D.answers) L.ReadyLink task.serving × TakesAll D.takes };

    ghost needs = { λ task s. s ≡ key_source task.key };

    ghost gives = { λ task end. MayEnd (Asks C.tells D.answers) L.ReadyLink task.serving end };

    fn poll(&mut self, cx: &mut Context<'_>) -> Poll<TaskEnd<D, L, C>>
        requires { MayPoll (Asks C.tells D.answers) L.ReadyLink self.old.serving × TakesAll D.takes }
        ensures value { IfReady result (MayEnd (Asks C.tells D.answers) L.ReadyLink self.old.serving) }
        ensures again { OnPending result
            (MayPoll (Asks C.tells D.answers) L.ReadyLink self.new.serving × TakesAll D.takes) }
        ensures same { OnPending result ((end : TaskEnd D L C)
            → MayEnd (Asks C.tells D.answers) L.ReadyLink self.new.serving end
            → MayEnd (Asks C.tells D.answers) L.ReadyLink self.old.serving end) }
        ensures registered { OnPending result (Covers cx.new (λ s. s ≡ key_source self.new.key)) }
        ensures kept { Keeps cx.old cx.new }

        // What is written is a front of what is owed, and it pauses only with a cause.
        ensures polls { OnPending result (PollsOn (Asks C.tells D.answers) L.ReadyLink
            self.old.serving self.new.serving cx.new.is_woken) }
        ensures same_key { OnPending result (self.new.key ≡ self.old.key) }
    {
        // Before the link is tried, so that no readiness that comes meanwhile is lost.
        let fired = cx.poll_fired(&self.key);
        let Some(serving) = &mut self.serving else {
            unreachable!()
        };
        match serving.advance(self.alloc) {
            Advance::Over(why) => self.end(why),
            Advance::Enough => cx.yield_now(),
            Advance::NotYet => match fired {
                Poll::Ready(Ok(seen)) => cx.blocked(&self.key, seen),
                Poll::Ready(Err(_)) => cx.yield_now(),
                Poll::Pending => Poll::Pending,
            },
        }
    }
}

impl<D, L, C> LinkTask<D, L, C> {
    // The link is over.
    fn end(&mut self, why: LinkEnd) -> Poll<TaskEnd<D, L, C>>
        requires { IsSome self.old.serving }
        ensures { IsSomeAnd self.old.serving (λ s. result ≡ Poll.Ready (record {
          why = why;
          link = s.link;
          desk = s.desk;
          clock = s.clock;
        })) }
    {
        let Some(serving) = self.serving.take() else {
            unreachable!()
        };
        Poll::Ready(ended(serving, why))
    }
}

// What is left of a link that has ended.
fn ended<D, L, C>(serving: Serving<D, L, C>, why: LinkEnd) -> TaskEnd<D, L, C>
    ensures { result ≡ record {
      why = why;
      link = serving.link;
      desk = serving.desk;
      clock = serving.clock;
    } }
{
    let Serving {
        desk,
        link,
        clock,
        core: _,
        room: _,
        outbox: _,
        over: _,
    } = serving;
    TaskEnd {
        why,
        link,
        desk,
        clock,
    }
}
