//! A sink in memory.

ghost use Rattle.std.specs.Prelude.{◌≡◌, ◌↔◌, ◌<◌, ◌≤◌, [], length, Some, IsOk, IsErr, IfOk, OnErr, Contains};
ghost use Rattle.std.specs.Io.KnownBytes.{WriteAppends};
ghost use Rattle.qz_outside.specs.Causes.{HasCause, HasRisen, counted};
ghost use Rattle.qz_outside.specs.Sources.{TakesFront};

use crate::calls::Calls;
use crate::{Failed, Sink};
use qz_text::{Listed, NoMemory};
use std::alloc::Global;
use std::marker::Model;

/// Bytes written to memory, for which it takes the room when it is made. Chosen calls fail, one call takes so many
/// bytes at most, and a full sink takes none.
#[derive(Drop)]
pub struct MemorySink {
    held: Vec<u8>,
    room: usize,
    most: usize,
    calls: Calls,
}

impl Model for MemorySink {
    ghost use Rattle.std.specs.Prelude.{◌+◌, ◌<◌, ◌≤◌, vec_len, vec_capacity};
    ghost use Rattle.qz_outside.specs.Sources.{Store};

    ghost Value = { Store };

    ghost view = { λ s. record {
      held = s.held.items;
      room = s.room;
      most = s.most;
      failing = s.calls.failing;
      calls = s.calls.made;
      faults = s.calls.faults;
    } };

    ghost invariant = { λ s. (0 < s.most) × (vec_len s.held + s.room ≤ vec_capacity s.held) };
}

impl MemorySink {
    /// A sink with room for `room` bytes. The calls of `write` whose numbers, from 1, are in `failing` fail, and each
    /// other takes `most` bytes at most.
    pub fn new(
        alloc: Global,
        room: usize,
        failing: Listed<u64>,
        most: usize,
    ) -> Result<MemorySink, NoMemory>
        requires { 0 < most }
        ensures { IfOk result (λ made. made
            ≡ record { held = []; room = room; most = most; failing = failing; calls = 0; faults = 0 }) }
    {
        Ok(MemorySink {
            held: Vec::with_capacity(alloc, room)?,
            room,
            most,
            calls: Calls::new(failing),
        })
    }

    /// The bytes written so far.
    pub fn bytes(&self) -> &[u8]
        ensures { result.now ≡ self.now.held }
    {
        &self.held
    }

    /// How many faults were counted: calls that failed, and bytes that found no room.
    pub fn faults(&self) -> u64
        ensures { result ≡ self.now.faults }
    {
        self.calls.faults
    }
}

impl Sink for MemorySink {
    ghost holds = { λ s. Some s.held };

    ghost faults = { λ s. s.faults };

    fn write(&mut self, piece: &[u8]) -> Result<usize, Failed>
        ensures count { IfOk result (λ n. n ≤ length piece.now) }
        ensures bytes { WriteAppends (Some self.old.held) (Some self.new.held) result piece.now }
        ensures cause { HasCause self.old.faults self.new.faults result }
        ensures stuck { IfOk result (λ n. n ≡ 0 → 0 < length piece.now
            → HasRisen self.old.faults self.new.faults) }

        // It fails where the number of this call is listed, and there alone.
        ensures fails { IsErr result ↔ Contains self.old.failing (counted self.old.calls) }
        ensures sound { self.old.failing ≡ [] → 0 < self.old.room
            → IsOk result × (self.new.faults ≡ self.old.faults) }
        ensures takes { IfOk result (TakesFront self.old self.new piece.now) }

        // A call that fails has no effect but to raise the counts.
        ensures failed { OnErr result (self.new
            ≡ record self.old { calls = counted self.old.calls; faults = counted self.old.faults }) }
    {
        self.calls.begin()?;
        if self.room == 0 && !piece.is_empty() {
            self.calls.count_fault();
            return Ok(0);
        }
        let count = self.most.min(self.room).min(piece.len());
        // The room was taken when the sink was made, so this takes no memory.
        self.held.extend_from_slice(&piece[..count]).unwrap();
        self.room -= count;
        Ok(count)
    }
}
