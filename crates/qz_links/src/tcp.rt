//! Sockets as links, and a listener as doors.

ghost use Rattle.std.specs.Prelude.{◌≡◌, ◌+◌, ◌-◌, ◌^◌, ◌<◌, min, None, IsSome, IfOk, OnOk, OnErr};
ghost use Rattle.qz_outside.specs.Causes.{HasCause, counted};
ghost use Rattle.qz_links.specs.Doors.{NextLink};

use crate::{Door, Duplex};
use qz_outside::{Failed, StdSink, StdSource};
use std::io;
use std::io::ErrorKind;
use std::marker::Model;
use std::net::{Ipv4Addr, Net, SocketAddrV4, TcpListener, TcpStream};
use std::time::Duration;

/// A read or a write of a link over a socket that moves no byte for so many seconds has failed.
const LINK_SECONDS: u64 = 10;

/// A socket as a link, which tells nothing of its bytes. A call that was interrupted is made again, and any other
/// error is a failure; so is a socket that takes none of a piece, and a call that moves no byte in its time.
pub type TcpLink = Duplex<StdSource<TcpStream>, StdSink<TcpStream>>;

impl TcpLink {
    /// A link over this socket. It has a handle of the socket for each direction, so the system may refuse it.
    pub fn over(stream: TcpStream) -> io::Result<TcpLink> {
        limit_waits(&stream)?;
        Ok(Duplex {
            source: StdSource::new(stream.try_clone()?),
            sink: StdSink::new(stream),
        })
    }

    /// How many calls have failed.
    pub fn faults(&self) -> u64
        ensures { result ≡ min (self.now.source.faults + self.now.sink.faults) (2 ^ 64 - 1) }
    {
        self.source.faults().saturating_add(self.sink.faults())
    }
}

// No call of the socket waits longer than its time. Where the system can't set that, none waits at all, so that the link
// fails at the first call that would have to wait: no link holds its worker for ever.
fn limit_waits(stream: &TcpStream) -> io::Result<()> {
    let time = Some(Duration::from_secs(LINK_SECONDS));
    stream
        .set_read_timeout(time)
        .and_then(|()| stream.set_write_timeout(time))
        .or_else(|_| stream.set_nonblocking(true))
}

/// Why no door could be opened at a port.
#[derive(Clone, Copy, Debug, PartialEq, Eq)]
pub enum BindFault {
    /// Another program has the port.
    InUse,
    /// The program may not have it.
    NotAllowed,
    /// The system gave another error.
    Other,
}

/// A door at which connections to one port of this machine come. Several doors can share its listener, and each
/// connection comes at one of them. What it tells of its links is their number.
#[derive(Drop)]
pub struct TcpDoor {
    listener: TcpListener,
    taken: u64,
    returns: u64,
    faults: u64,
}

impl Model for TcpDoor {
    ghost use Rattle.std.specs.Prelude.{◌-◌, ◌≤◌};
    ghost use Rattle.qz_links.specs.Doors.{Tally};

    ghost Value = { Tally };

    ghost view = { λ d. record { returns = d.returns; out = d.taken - d.returns; faults = d.faults } };

    ghost invariant = { λ d. d.returns ≤ d.taken };
}

impl TcpDoor {
    /// Opens a door at a port of 127.0.0.1, so that no other machine can reach it. Port 0 lets the system choose one.
    pub fn bind<R: Net<Listener = TcpListener, Stream = TcpStream>>(
        rt: &R,
        port: u16,
    ) -> Result<TcpDoor, BindFault>
        ensures { IfOk result (λ made. made ≡ record { returns = 0; out = 0; faults = 0 }) }
    {
        match TcpListener::bind(rt, SocketAddrV4::new(Ipv4Addr::LOCALHOST, port)) {
            Ok(listener) => Ok(TcpDoor::over(listener)),
            Err(error) => Err(match error.kind() {
                ErrorKind::AddrInUse => BindFault::InUse,
                ErrorKind::PermissionDenied => BindFault::NotAllowed,
                _ => BindFault::Other,
            }),
        }
    }

    /// Another door at the same listener, from which nothing was taken yet. `Failed` where the system gives no
    /// further handle of it.
    pub fn try_share(&mut self) -> Result<TcpDoor, Failed>
        ensures made { IfOk result (λ made. made ≡ record { returns = 0; out = 0; faults = 0 }) }
        ensures cause { HasCause self.old.faults self.new.faults result }
        ensures rest { self.new ≡ record self.old { faults = self.new.faults } }
    {
        match self.listener.try_clone() {
            Ok(listener) => Ok(TcpDoor::over(listener)),
            Err(_) => Err(self.fail()),
        }
    }

    /// How many calls have failed.
    pub fn faults(&self) -> u64
        ensures { result ≡ self.now.faults }
    {
        self.faults
    }

    /// A door over this listener, from which nothing was taken yet.
    pub fn over(listener: TcpListener) -> TcpDoor
        ensures { result ≡ record { returns = 0; out = 0; faults = 0 } }
    {
        TcpDoor {
            listener,
            taken: 0,
            returns: 0,
            faults: 0,
        }
    }

    // The system makes an interrupted call again. A small answer is sent at once, and not held back to be joined with the
    // next; where the system can't do that, the link serves all the same.
    fn accept(&self) -> io::Result<TcpLink> {
        let (stream, _) = self.listener.accept()?;
        let _ = stream.set_nodelay(true);
        TcpLink::over(stream)
    }

    // Counts a failure.
    fn fail(&mut self) -> Failed
        ensures counts { self.new ≡ record self.old { faults = counted self.old.faults } }
    {
        self.faults = self.faults.saturating_add(1);
        Failed
    }
}

impl Door for TcpDoor {
    type Link = TcpLink;

    ghost left = { λ _. None };

    ghost returned = { λ _. None };

    ghost returns = { λ d. d.returns };

    ghost out = { λ d. d.out };

    ghost faults = { λ d. d.faults };

    // A door from which 2^64 - 1 links were taken counts no further, and fails.
    fn next(&mut self) -> Result<Option<TcpLink>, Failed>
        ensures takes { NextLink None None self.old.out self.new.out result }
        ensures cause { HasCause self.old.faults self.new.faults result }
        ensures returns_stay { self.new.returns ≡ self.old.returns }

        // It waits for a connection, and so never ends. The count rises in a call that fails, and in no other.
        ensures some { IfOk result (λ link. IsSome link) }
        ensures steady { OnOk result (self.new.faults ≡ self.old.faults) }
        ensures counts { OnErr result (self.new.faults ≡ counted self.old.faults) }
    {
        let Some(taken) = self.taken.checked_add(1) else {
            return Err(self.fail());
        };
        let Ok(link) = self.accept() else {
            return Err(self.fail());
        };
        self.taken = taken;
        Ok(Some(link))
    }

    // Closes the connection.
    fn back(&mut self, _link: TcpLink)
        requires { 0 < self.old.out }
        ensures returns { self.new.returns ≡ self.old.returns + 1 }
        ensures out { self.old.out ≡ self.new.out + 1 }
        ensures steady { self.new.faults ≡ self.old.faults }
    {
        self.returns += 1;
    }
}
