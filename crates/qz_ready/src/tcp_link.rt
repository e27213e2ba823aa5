//! Sockets as links that never wait.

ghost use Rattle.std.specs.Prelude.{◌≡◌, ◌<◌, ◌≤◌, length, None, IfOk};
ghost use Rattle.std.specs.Io.KnownBytes.{ReadConsumes, WriteAppends};
ghost use Rattle.qz_outside.specs.Causes.{HasCause, HasRisen, counted};
ghost use Rattle.qz_ready.specs.Looks.{HasPause, moved};
ghost use Rattle.qz_ready.specs.Sockets.{after_read, after_write};

use crate::{Look, ReadyLink};
use mio::net::TcpStream;
use qz_outside::Failed;
use std::io::{ErrorKind, Read, Write};
use std::marker::Model;

/// A socket as a link that never waits, which tells nothing of its bytes. A call that was interrupted is made again, one
/// that would wait finds nothing yet, and any other error is a failure; so is a socket that takes none of a piece.
#[derive(Drop)]
pub struct ReadyTcpLink {
    key: u64,
    stream: TcpStream,
    faults: u64,
    waits: u64,
    stalls: u64,
}

impl Model for ReadyTcpLink {
    ghost use Rattle.qz_ready.specs.Sockets.{Signals};

    ghost Value = { Signals };

    ghost view = { λ l. record { key = l.key; faults = l.faults; waits = l.waits; stalls = l.stalls } };
}

impl ReadyTcpLink {
    /// A link over this socket, which doesn't block, under a key.
    pub fn over(key: u64, stream: TcpStream) -> ReadyTcpLink
        ensures { result ≡ record { key = key; faults = 0; waits = 0; stalls = 0 } }
    {
        ReadyTcpLink {
            key,
            stream,
            faults: 0,
            waits: 0,
            stalls: 0,
        }
    }

    /// How many calls have failed.
    pub fn faults(&self) -> u64
        ensures { result ≡ self.now.faults }
    {
        self.faults
    }
}

// Reads once. A loop has to end, so it gives up after so many interrupted calls.
fn read_once(stream: &mut TcpStream, room: &mut [u8]) -> Result<Look, Failed>
    ensures { IfOk (moved result) (λ n. n ≤ length room.new) }
{
    for _ in 0..u64::MAX {
        match stream.read(room) {
            Ok(count) => return Ok(Look::Moved(count)),
            Err(error) if error.kind() == ErrorKind::Interrupted => {}
            Err(error) if error.kind() == ErrorKind::WouldBlock => return Ok(Look::NotYet),
            Err(_) => break,
        }
    }
    Err(Failed)
}

// Writes once, as `read_once` reads.
fn write_once(stream: &mut TcpStream, piece: &[u8]) -> Result<Look, Failed>
    ensures count { IfOk (moved result) (λ n. n ≤ length piece.now) }
    ensures some { IfOk (moved result) (λ n. 0 < length piece.now → 0 < n) }
{
    for _ in 0..u64::MAX {
        match stream.write(piece) {
            Ok(0) if !piece.is_empty() => break,
            Ok(count) => return Ok(Look::Moved(count)),
            Err(error) if error.kind() == ErrorKind::Interrupted => {}
            Err(error) if error.kind() == ErrorKind::WouldBlock => return Ok(Look::NotYet),
            Err(_) => break,
        }
    }
    Err(Failed)
}

impl ReadyLink for ReadyTcpLink {
    ghost left = { λ _. None };

    ghost holds = { λ _. None };

    ghost faults = { λ l. l.faults };

    ghost waits = { λ l. l.waits };

    ghost stalls = { λ l. l.stalls };

    ghost key = { λ l. l.key };

    fn key(&self) -> u64 {
        self.key
    }

    fn try_read(&mut self, room: &mut [u8]) -> Result<Look, Failed>
        ensures count { IfOk (moved result) (λ n. n ≤ length room.new) }
        ensures bytes { ReadConsumes None None (moved result) room.new }
        ensures cause { HasCause self.old.faults self.new.faults result }
        ensures pause { HasPause self.old.waits self.new.waits result }
        ensures stalls_later { self.old.stalls ≤ self.new.stalls }
        ensures same_key { self.new.key ≡ self.old.key }

        // One count rises in a call that fails or finds nothing yet, and none in any other.
        ensures counts { self.new ≡ after_read result self.old }
    {
        match read_once(&mut self.stream, room) {
            Ok(Look::Moved(count)) => Ok(Look::Moved(count)),
            Ok(Look::NotYet) => {
                self.waits = self.waits.saturating_add(1);
                Ok(Look::NotYet)
            }
            Err(Failed) => {
                self.faults = self.faults.saturating_add(1);
                Err(Failed)
            }
        }
    }

    fn try_write(&mut self, piece: &[u8]) -> Result<Look, Failed>
        ensures count { IfOk (moved result) (λ n. n ≤ length piece.now) }
        ensures bytes { WriteAppends None None (moved result) piece.now }
        ensures cause { HasCause self.old.faults self.new.faults result }
        ensures pause { HasPause self.old.stalls self.new.stalls result }
        ensures stuck { IfOk (moved result) (λ n. n ≡ 0 → 0 < length piece.now
            → HasRisen self.old.faults self.new.faults) }
        ensures waits_later { self.old.waits ≤ self.new.waits }
        ensures same_key { self.new.key ≡ self.old.key }

        // One count rises in a call that fails or finds no room yet, and none in any other.
        ensures counts { self.new ≡ after_write result self.old }
    {
        match write_once(&mut self.stream, piece) {
            Ok(Look::Moved(count)) => Ok(Look::Moved(count)),
            Ok(Look::NotYet) => {
                self.stalls = self.stalls.saturating_add(1);
                Ok(Look::NotYet)
            }
            Err(Failed) => {
                self.faults = self.faults.saturating_add(1);
                Err(Failed)
            }
        }
    }
}
