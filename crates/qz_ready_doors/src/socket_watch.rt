//! A watch over sockets.

use crate::Watch;
use mio::{Events, Poll};
use qz_outside::Failed;
use qz_text::NoMemory;
use std::alloc::Global;
use std::time::Duration;

/// One look finds at most so many; the others are found by the next.
const EVENTS: usize = 1024;

/// A watch over the sockets that are registered with a poller, under their keys. Where a wait fails, or memory is wanting for what it
/// found, it can't tell.
#[derive(Drop)]
pub struct SocketWatch {
    poll: Poll,
    events: Events<Global>,
    keys: Vec<u64>,
}

impl SocketWatch {
    /// A watch over this poller.
    pub fn over(alloc: Global, poll: Poll) -> Result<SocketWatch, NoMemory> {
        Ok(SocketWatch {
            poll,
            events: Events::with_capacity(alloc, EVENTS)?,
            keys: Vec::with_capacity(alloc, EVENTS)?,
        })
    }

    fn collect(&mut self) -> Result<(), Failed> {
        for event in &self.events {
            if self.keys.push(event.token().0 as u64).is_err() {
                return Err(Failed);
            }
        }
        Ok(())
    }
}

impl Watch for SocketWatch {
    fn look(&mut self, may_wait: bool) -> Result<(), Failed> {
        self.keys.clear();
        let limit = if may_wait { None } else { Some(Duration::ZERO) };
        if self.poll.poll(&mut self.events, limit).is_err() {
            return Err(Failed);
        }
        self.collect()
    }

    fn next(&mut self) -> Option<u64> {
        self.keys.pop()
    }
}
