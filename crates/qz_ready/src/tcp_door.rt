//! A listener as a door that never waits.

ghost use Rattle.std.specs.Prelude.{◌≡◌, ◌+◌, ◌<◌, ◌≤◌, None, IfOk};
ghost use Rattle.qz_links.specs.Doors.{NextLink};
ghost use Rattle.qz_outside.specs.Causes.{HasCause, counted};
ghost use Rattle.qz_ready.specs.Arrivals.{HasDelay, arrived};
ghost use Rattle.qz_ready.specs.Sockets.{CountsTry};

use crate::{Arrival, ReadyDoor, ReadyTcpLink};
use mio::net::{TcpListener, TcpStream};
use mio::{Interest, Registry, Token};
use qz_outside::Failed;
use std::io;
use std::io::ErrorKind;
use std::marker::Model;

/// The key of a door over sockets. Its links have the keys behind, in the order in which they come.
const DOOR_KEY: u64 = 0;

/// A door at which connections to a listener come, and which watches for them, and for the readiness of each that came,
/// where the registry does. What it tells of its links is their number.
#[derive(Drop)]
pub struct ReadyTcpDoor {
    listener: TcpListener,
    registry: Registry,
    taken: u64,
    returns: u64,
    faults: u64,
    waits: u64,
}

impl Model for ReadyTcpDoor {
    ghost use Rattle.std.specs.Prelude.{◌-◌, ◌≤◌};
    ghost use Rattle.qz_ready.specs.Sockets.{DoorSignals};

    ghost Value = { DoorSignals };

    ghost view = { λ d. record {
      returns = d.returns;
      out = d.taken - d.returns;
      faults = d.faults;
      waits = d.waits;
    } };

    ghost invariant = { λ d. d.returns ≤ d.taken };
}

impl ReadyTcpDoor {
    /// A door at this listener, which is watched from now on. The system may refuse that.
    pub fn over(mut listener: TcpListener, registry: Registry) -> io::Result<ReadyTcpDoor>
        ensures { IfOk result (λ made. made ≡ record { returns = 0; out = 0; faults = 0; waits = 0 }) }
    {
        registry.register(&mut listener, Token(DOOR_KEY as usize), Interest::READABLE)?;
        Ok(ReadyTcpDoor {
            listener,
            registry,
            taken: 0,
            returns: 0,
            faults: 0,
            waits: 0,
        })
    }

    /// How many calls have failed.
    pub fn faults(&self) -> u64
        ensures { result ≡ self.now.faults }
    {
        self.faults
    }

    // A connection as a link, which is watched under its key. A small answer is sent at once, and not held back to be
    // joined with the next; where the system can't do that, the link serves all the same.
    fn watched(&self, key: u64, mut stream: TcpStream) -> io::Result<ReadyTcpLink>
        ensures { IfOk result (λ link. link ≡ record { key = key; faults = 0; waits = 0; stalls = 0 }) }
    {
        let _ = stream.set_nodelay(true);
        self.registry.register(
            &mut stream,
            Token(key as usize),
            Interest::READABLE | Interest::WRITABLE,
        )?;
        Ok(ReadyTcpLink::over(key, stream))
    }

    // Counts a failure.
    fn fail(&mut self) -> Failed
        ensures counts { self.new ≡ record self.old { faults = counted self.old.faults } }
    {
        self.faults = self.faults.saturating_add(1);
        Failed
    }
}

impl ReadyDoor for ReadyTcpDoor {
    type Link = ReadyTcpLink;

    ghost use Rattle.qz_ready.specs.declared.tcp_door.TheConstants.{DOOR_KEY};

    ghost left = { λ _. None };

    ghost returned = { λ _. None };

    ghost returns = { λ d. d.returns };

    ghost out = { λ d. d.out };

    ghost faults = { λ d. d.faults };

    ghost waits = { λ d. d.waits };

    ghost key = { λ _. DOOR_KEY };

    fn key(&self) -> u64 {
        DOOR_KEY
    }

    // A door from which 2^64 - 1 links were taken counts no further, and fails.
    fn try_next(&mut self) -> Result<Arrival<ReadyTcpLink>, Failed>
        ensures takes { NextLink None None self.old.out self.new.out (arrived result) }
        ensures cause { HasCause self.old.faults self.new.faults result }
        ensures delay { HasDelay self.old.waits self.new.waits result }
        ensures returns_stay { self.new.returns ≡ self.old.returns }

        // It never ends. One count rises in a call that fails or finds no link yet, and none in any other.
        ensures counts { CountsTry result self.old self.new }
    {
        let Some(taken) = self.taken.checked_add(1) else {
            return Err(self.fail());
        };
        match self.listener.accept() {
            Ok((stream, _)) => match self.watched(taken, stream) {
                Ok(link) => {
                    self.taken = taken;
                    Ok(Arrival::Link(link))
                }
                Err(_) => Err(self.fail()),
            },
            Err(error) if error.kind() == ErrorKind::WouldBlock => {
                self.waits = self.waits.saturating_add(1);
                Ok(Arrival::NotYet)
            }
            Err(_) => Err(self.fail()),
        }
    }

    // Closes the connection.
    fn back(&mut self, _link: ReadyTcpLink)
        requires { 0 < self.old.out }
        ensures returns { self.new.returns ≡ self.old.returns + 1 }
        ensures out { self.old.out ≡ self.new.out + 1 }
        ensures steady { self.new.faults ≡ self.old.faults }
        ensures waits_stay { self.new.waits ≡ self.old.waits }
    {
        self.returns += 1;
    }
}
