//! The events of a run: the bells of what has become ready are rung.

ghost use Rattle.futures.specs.Task.{Keeps};

use crate::Watch;
use crate::bells::Bells;
use futures::executor::{Events, Rest};
use futures::task::Context;
use qz_outside::Failed;
use std::io;

/// Rings the bells of what a watch finds ready, and all of them where it can't tell. So it never fails.
#[derive(Drop)]
pub struct Ringing<'a, 'b, W> {
    watch: &'a mut W,
    bells: &'b Bells,
    found: Result<(), Failed>,
}

impl<'a, 'b, W: Watch> Ringing<'a, 'b, W> {
    pub fn new(watch: &'a mut W, bells: &'b Bells) -> Ringing<'a, 'b, W> {
        Ringing {
            watch,
            bells,
            found: Ok(()),
        }
    }

    fn ring_found(&mut self, cx: &mut Context<'_>)
        ensures kept { Keeps cx.old cx.new }
    {
        for _ in 0..u64::MAX {
            let Some(key) = self.watch.next() else {
                return;
            };
            self.bells.ring(key, cx);
        }
    }
}

impl<R, W: Watch> Events<R> for Ringing<'_, '_, W> {
    fn look(&mut self, _rt: &R) -> io::Result<()> {
        self.found = self.watch.look(false);
        Ok(())
    }

    fn wait(&mut self, _rt: &R, _rest: &Rest<'_>) -> io::Result<()> {
        self.found = self.watch.look(true);
        Ok(())
    }

    // No timers: the time stands still.
    fn dispatch(&mut self, _rt: &R, cx: &mut Context<'_>) -> io::Result<u64> {
        match self.found {
            Ok(()) => self.ring_found(cx),
            Err(Failed) => self.bells.ring_all(cx),
        }
        Ok(0)
    }
}
