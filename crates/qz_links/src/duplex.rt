//! A source and a sink as one link.

ghost use Rattle.std.specs.Prelude.{◌≡◌, ◌+◌, ◌<◌, ◌≤◌, length, IfOk};
ghost use Rattle.std.specs.Io.KnownBytes.{ReadConsumes, WriteAppends};
ghost use Rattle.qz_outside.specs.Causes.{HasCause, HasRisen};

use crate::Link;
use qz_outside::{Failed, Sink, Source};

/// The two directions of one link: a source of what the peer sends, and a sink for what is sent to it. A fault of
/// either is the link's.
#[derive(Drop)]
pub struct Duplex<S, O> {
    /// What the peer sends.
    pub source: S,
    /// What is sent to the peer.
    pub sink: O,
}

impl<S: Source, O: Sink> Link for Duplex<S, O> {
    ghost left = { λ l. S.left l.source };

    ghost holds = { λ l. O.holds l.sink };

    ghost faults = { λ l. S.faults l.source + O.faults l.sink };

    fn read(&mut self, room: &mut [u8]) -> Result<usize, Failed> {
        self.source.read(room)
    }

    fn write(&mut self, piece: &[u8]) -> Result<usize, Failed> {
        self.sink.write(piece)
    }
}
