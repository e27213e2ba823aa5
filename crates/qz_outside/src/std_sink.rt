//! Std's writers as sinks.

ghost use Rattle.std.specs.Prelude.{◌≡◌, ◌<◌, ◌≤◌, length, None, IfOk, OnOk, OnErr};
ghost use Rattle.std.specs.Io.KnownBytes.{WriteAppends};
ghost use Rattle.qz_outside.specs.Causes.{HasCause, HasRisen, counted};

use crate::{Failed, Sink};
use std::io::{ErrorKind, Write};
use std::marker::Model;

/// A writer of std as a sink, which tells nothing of its bytes. A call that was interrupted is made again, and any
/// other error is a failure; so is a writer that takes none of a piece. What the writer keeps back in a buffer of its
/// own is not flushed.
#[derive(Drop)]
pub struct StdSink<W> {
    writer: W,
    faults: u64,
}

impl<W> Model for StdSink<W> {
    ghost use Rattle.qz_outside.specs.Sources.{Adapted};

    ghost Value = { Adapted W };

    ghost view = { λ s. record { inner = s.writer; faults = s.faults } };
}

impl<W: Write> StdSink<W> {
    /// A sink over this writer.
    pub fn new(writer: W) -> StdSink<W>
        ensures { result ≡ record { inner = writer; faults = 0 } }
    {
        StdSink { writer, faults: 0 }
    }

    /// How many calls have failed.
    pub fn faults(&self) -> u64
        ensures { result ≡ self.now.faults }
    {
        self.faults
    }
}

impl<W: Write> Sink for StdSink<W> {
    ghost holds = { λ _. None };

    ghost faults = { λ s. s.faults };

    fn write(&mut self, piece: &[u8]) -> Result<usize, Failed>
        ensures count { IfOk result (λ n. n ≤ length piece.now) }
        ensures bytes { WriteAppends None None result piece.now }
        ensures cause { HasCause self.old.faults self.new.faults result }
        ensures stuck { IfOk result (λ n. n ≡ 0 → 0 < length piece.now
            → HasRisen self.old.faults self.new.faults) }

        // The bytes went to the writer.
        ensures passed { WriteAppends (W.contents self.old.inner) (W.contents self.new.inner)
            result piece.now }

        // The count rises in a call that fails, and in no other.
        ensures steady { OnOk result (self.new.faults ≡ self.old.faults) }
        ensures counts { OnErr result (self.new.faults ≡ counted self.old.faults) }
    {
        // A loop has to end, so it gives up after so many interrupted calls.
        for _ in 0..u64::MAX {
            match self.writer.write(piece) {
                Ok(0) if !piece.is_empty() => break,
                Ok(count) => return Ok(count),
                Err(error) if error.kind() == ErrorKind::Interrupted => {}
                Err(_) => break,
            }
        }
        self.faults = self.faults.saturating_add(1);
        Err(Failed)
    }
}
