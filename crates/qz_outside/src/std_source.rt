//! Std's readers as sources.

ghost use Rattle.std.specs.Prelude.{◌≡◌, ◌≤◌, length, None, IfOk, OnOk, OnErr};
ghost use Rattle.std.specs.Io.KnownBytes.{ReadConsumes};
ghost use Rattle.qz_outside.specs.Causes.{HasCause, counted};

use crate::{Failed, Source};
use std::io::{ErrorKind, Read};
use std::marker::Model;

/// A reader of std as a source, which tells nothing of its bytes. A call that was interrupted is made again, and any
/// other error is a failure.
#[derive(Drop)]
pub struct StdSource<R> {
    reader: R,
    faults: u64,
}

impl<R> Model for StdSource<R> {
    ghost use Rattle.qz_outside.specs.Sources.{Adapted};

    ghost Value = { Adapted R };

    ghost view = { λ s. record { inner = s.reader; faults = s.faults } };
}

impl<R: Read> StdSource<R> {
    /// A source over this reader.
    pub fn new(reader: R) -> StdSource<R>
        ensures { result ≡ record { inner = reader; faults = 0 } }
    {
        StdSource { reader, faults: 0 }
    }

    /// How many calls have failed.
    pub fn faults(&self) -> u64
        ensures { result ≡ self.now.faults }
    {
        self.faults
    }
}

impl<R: Read> Source for StdSource<R> {
    ghost left = { λ _. None };

    ghost faults = { λ s. s.faults };

    fn read(&mut self, room: &mut [u8]) -> Result<usize, Failed>
        ensures count { IfOk result (λ n. n ≤ length room.new) }
        ensures bytes { ReadConsumes None None result room.new }
        ensures cause { HasCause self.old.faults self.new.faults result }

        // The bytes are the reader's.
        ensures passed { ReadConsumes (R.remaining self.old.inner) (R.remaining self.new.inner)
            result room.new }

        // The count rises in a call that fails, and in no other.
        ensures steady { OnOk result (self.new.faults ≡ self.old.faults) }
        ensures counts { OnErr result (self.new.faults ≡ counted self.old.faults) }
    {
        // A loop has to end, so it gives up after so many interrupted calls.
        for _ in 0..u64::MAX {
            match self.reader.read(room) {
                Ok(count) => return Ok(count),
                Err(error) if error.kind() == ErrorKind::Interrupted => {}
                Err(_) => break,
            }
        }
        self.faults = self.faults.saturating_add(1);
        Err(Failed)
    }
}
