//! A link in memory.

ghost use Rattle.std.specs.Prelude.{◌≡◌, ◌↔◌, ◌+◌, ◌-◌, ◌^◌, ◌<◌, ◌≤◌, ◌||◌, min, [], length, Some, IsOk, IsErr, IfOk, OnErr, Contains};
ghost use Rattle.std.specs.Io.KnownBytes.{ReadConsumes, WriteAppends};
ghost use Rattle.qz_outside.specs.Causes.{HasCause, HasRisen, counted};
ghost use Rattle.qz_outside.specs.Sources.{GivesFront, TakesFront};
ghost use Rattle.qz_links.specs.Gates.{Passes, ungated};

use crate::{Gates, Link};
use qz_outside::{Failed, MemorySink, MemorySource, Sink, Source};
use std::marker::Model;

/// A link in memory: the peer's bytes are those of a source, and what is written goes to a sink. Reads are numbered
/// apart from writes, each from 1.
#[derive(Drop)]
pub struct MemoryLink {
    source: MemorySource,
    sink: MemorySink,
    reads: Gates,
    writes: Gates,
}

impl Model for MemoryLink {
    ghost use Rattle.qz_links.specs.Links.{Line};

    ghost Value = { Line };

    ghost view = { λ l. record {
      source = l.source;
      sink = l.sink;
      reads = l.reads;
      writes = l.writes;
    } };
}

impl MemoryLink {
    /// A link whose peer sends the bytes of the source, and has room for what the sink has room for. Those reads and
    /// writes fail that are to fail there.
    pub fn new(source: MemorySource, sink: MemorySink) -> MemoryLink
        ensures { result ≡ record { source = source; sink = sink; reads = ungated; writes = ungated } }
    {
        MemoryLink {
            source,
            sink,
            reads: Gates::none(),
            writes: Gates::none(),
        }
    }

    /// The link with these gates, by the numbers of its reads and of its writes.
    pub fn gated(self, reads: Gates, writes: Gates) -> MemoryLink
        ensures { result ≡ record self { reads = reads; writes = writes } }
    {
        MemoryLink {
            reads,
            writes,
            ..self
        }
    }

    /// The bytes that are left to be read.
    pub fn left(&self) -> &[u8]
        ensures { result.now ≡ self.now.source.left }
    {
        self.source.left()
    }

    /// The bytes written so far.
    pub fn bytes(&self) -> &[u8]
        ensures { result.now ≡ self.now.sink.held }
    {
        self.sink.bytes()
    }

    /// How many faults were counted: calls that failed, and bytes that found no room.
    pub fn faults(&self) -> u64
        ensures { result ≡ min (self.now.source.faults + self.now.sink.faults) (2 ^ 64 - 1) }
    {
        self.source.faults().saturating_add(self.sink.faults())
    }

    /// Whether a call looked at its gate to the last time and left it closed.
    pub fn ran_out(&self) -> bool
        ensures { result ≡ (self.now.reads.ran_out || self.now.writes.ran_out) }
    {
        self.reads.ran_out() || self.writes.ran_out()
    }
}

impl Link for MemoryLink {
    ghost left = { λ l. Some l.source.left };

    ghost holds = { λ l. Some l.sink.held };

    ghost faults = { λ l. l.source.faults + l.sink.faults };

    fn read(&mut self, room: &mut [u8]) -> Result<usize, Failed>
        ensures count { IfOk result (λ n. n ≤ length room.new) }
        ensures bytes { ReadConsumes (Some self.old.source.left) (Some self.new.source.left)
            result room.new }
        ensures cause { HasCause (self.old.source.faults + self.old.sink.faults)
            (self.new.source.faults + self.new.sink.faults) result }
        ensures apart { Some self.new.sink.held ≡ Some self.old.sink.held }

        // What it answers is told by what is left to be read, whatever the gates: it fails where the number of this
        // read is listed, and there alone.
        ensures fails { IsErr result
            ↔ Contains self.old.source.failing (counted self.old.source.calls) }
        ensures sound { self.old.source.failing ≡ [] → IsOk result }
        ensures gives { IfOk result (GivesFront self.old.source self.new.source room.old room.new) }

        // A read that fails has no effect but to raise the counts.
        ensures failed { OnErr result (self.new.source ≡ record self.old.source {
          calls = counted self.old.source.calls;
          faults = counted self.old.source.faults;
        }) }
        ensures room_stays { OnErr result (room.new ≡ room.old) }

        // The rest of the link stays, but for the gates of its reads.
        ensures gates { Passes self.old.reads self.new.reads }
        ensures rest { (self.new.sink ≡ self.old.sink) × (self.new.writes ≡ self.old.writes) }
    {
        self.reads.enter();
        let count = self.source.read(room)?;
        self.reads.leave();
        Ok(count)
    }

    fn write(&mut self, piece: &[u8]) -> Result<usize, Failed>
        ensures count { IfOk result (λ n. n ≤ length piece.now) }
        ensures bytes { WriteAppends (Some self.old.sink.held) (Some self.new.sink.held)
            result piece.now }
        ensures cause { HasCause (self.old.source.faults + self.old.sink.faults)
            (self.new.source.faults + self.new.sink.faults) result }
        ensures stuck { IfOk result (λ n. n ≡ 0 → 0 < length piece.now
            → HasRisen (self.old.source.faults + self.old.sink.faults)
            (self.new.source.faults + self.new.sink.faults)) }
        ensures apart { Some self.new.source.left ≡ Some self.old.source.left }

        // What it answers is told by what was written, whatever the gates: it fails where the number of this write
        // is listed, and there alone.
        ensures fails { IsErr result ↔ Contains self.old.sink.failing (counted self.old.sink.calls) }
        ensures sound { self.old.sink.failing ≡ [] → 0 < self.old.sink.room
            → IsOk result × (self.new.sink.faults ≡ self.old.sink.faults) }
        ensures takes { IfOk result (TakesFront self.old.sink self.new.sink piece.now) }

        // A write that fails has no effect but to raise the counts.
        ensures failed { OnErr result (self.new.sink ≡ record self.old.sink {
          calls = counted self.old.sink.calls;
          faults = counted self.old.sink.faults;
        }) }

        // The rest of the link stays, but for the gates of its writes.
        ensures gates { Passes self.old.writes self.new.writes }
        ensures rest { (self.new.source ≡ self.old.source) × (self.new.reads ≡ self.old.reads) }
    {
        self.writes.enter();
        let count = self.sink.write(piece)?;
        self.writes.leave();
        Ok(count)
    }
}
