//! A source in memory.

ghost use Rattle.std.specs.Prelude.{◌≡◌, ◌↔◌, ◌<◌, ◌≤◌, [], length, Some, IsOk, IsErr, IfOk, OnErr, Contains};
ghost use Rattle.std.specs.Io.KnownBytes.{ReadConsumes};
ghost use Rattle.qz_outside.specs.Causes.{HasCause, counted};
ghost use Rattle.qz_outside.specs.Sources.{GivesFront};

use crate::calls::Calls;
use crate::{Failed, Source};
use qz_text::{Bytes, Listed};
use std::marker::Model;

/// Some bytes in memory, read from the first on. Chosen calls fail, and one call gives so many bytes at most.
#[derive(Drop)]
pub struct MemorySource {
    bytes: Bytes,
    at: usize,
    most: usize,
    calls: Calls,
}

impl Model for MemorySource {
    ghost use Rattle.std.specs.Prelude.{◌<◌, ◌≤◌, length, drop};
    ghost use Rattle.qz_outside.specs.Sources.{Feed};

    ghost Value = { Feed };

    ghost view = { λ s. record {
      left = drop s.at s.bytes;
      most = s.most;
      failing = s.calls.failing;
      calls = s.calls.made;
      faults = s.calls.faults;
    } };

    ghost invariant = { λ s. (0 < s.most) × (s.at ≤ length s.bytes) };
}

impl MemorySource {
    /// A source of these bytes. The calls of `read` whose numbers, from 1, are in `failing` fail, and each other
    /// gives `most` bytes at most.
    pub fn new(bytes: Bytes, failing: Listed<u64>, most: usize) -> MemorySource
        requires { 0 < most }
        ensures { result ≡ record { left = bytes; most = most; failing = failing; calls = 0; faults = 0 } }
    {
        MemorySource {
            bytes,
            at: 0,
            most,
            calls: Calls::new(failing),
        }
    }

    /// The bytes that are left.
    pub fn left(&self) -> &[u8]
        ensures { result.now ≡ self.now.left }
    {
        &self.bytes.as_slice()[self.at..]
    }

    /// How many calls have failed.
    pub fn faults(&self) -> u64
        ensures { result ≡ self.now.faults }
    {
        self.calls.faults
    }
}

impl Source for MemorySource {
    ghost left = { λ s. Some s.left };

    ghost faults = { λ s. s.faults };

    fn read(&mut self, room: &mut [u8]) -> Result<usize, Failed>
        ensures count { IfOk result (λ n. n ≤ length room.new) }
        ensures bytes { ReadConsumes (Some self.old.left) (Some self.new.left) result room.new }
        ensures cause { HasCause self.old.faults self.new.faults result }

        // It fails where the number of this call is listed, and there alone.
        ensures fails { IsErr result ↔ Contains self.old.failing (counted self.old.calls) }
        ensures sound { self.old.failing ≡ [] → IsOk result }
        ensures gives { IfOk result (GivesFront self.old self.new room.old room.new) }

        // A call that fails has no effect but to raise the counts.
        ensures failed { OnErr result (self.new
            ≡ record self.old { calls = counted self.old.calls; faults = counted self.old.faults }) }
        ensures room_stays { OnErr result (room.new ≡ room.old) }
    {
        self.calls.begin()?;
        let left = &self.bytes.as_slice()[self.at..];
        let count = self.most.min(room.len()).min(left.len());
        room[..count].copy_from_slice(&left[..count]);
        self.at += count;
        Ok(count)
    }
}
