//! A link in memory at a pace.

ghost use Rattle.std.specs.Prelude.{◌≡◌, ◌<◌, ◌≤◌, length, IfOk};
ghost use Rattle.std.specs.Io.KnownBytes.{ReadConsumes, WriteAppends};
ghost use Rattle.qz_outside.specs.Causes.{HasCause, HasRisen};
ghost use Rattle.qz_ready.specs.Looks.{HasPause, is_not_yet, moved};
ghost use Rattle.qz_ready.specs.Paces.{paced, waits_next};

use crate::{Look, Pace, ReadyLink};
use qz_links::Link;
use qz_outside::Failed;
use std::marker::Model;

/// A link that has its bytes at hand, as one in memory, whose reads and whose writes go each at a pace: every call moves
/// at most what its turn says, or finds nothing yet. To who waits it is that link.
#[derive(Drop)]
pub struct PacedLink<L> {
    key: u64,
    link: L,
    reads: Pace,
    writes: Pace,
}

impl<L> Model for PacedLink<L> {
    ghost use Rattle.qz_ready.specs.Paces.{PacedLine};

    ghost Value = { PacedLine L };

    ghost view = { λ p. record { key = p.key; link = p.link; reads = p.reads; writes = p.writes } };
}

impl<L> PacedLink<L> {
    /// This link at these paces of its reads and of its writes, under a key.
    pub fn new(key: u64, link: L, reads: Pace, writes: Pace) -> PacedLink<L>
        ensures { result ≡ record { key = key; link = link; reads = reads; writes = writes } }
    {
        PacedLink {
            key,
            link,
            reads,
            writes,
        }
    }

    /// The link itself.
    pub fn link(&self) -> &L
        ensures { result.now ≡ self.now.link }
    {
        &self.link
    }
}

impl<L: Link> Link for PacedLink<L> {
    ghost left = { λ p. L.left p.link };

    ghost holds = { λ p. L.holds p.link };

    ghost faults = { λ p. L.faults p.link };

    fn read(&mut self, room: &mut [u8]) -> Result<usize, Failed> {
        self.link.read(room)
    }

    fn write(&mut self, piece: &[u8]) -> Result<usize, Failed> {
        self.link.write(piece)
    }
}

impl<L: Link> ReadyLink for PacedLink<L> {
    ghost left = { λ p. L.left p.link };

    ghost holds = { λ p. L.holds p.link };

    ghost faults = { λ p. L.faults p.link };

    ghost waits = { λ p. p.reads.waits };

    ghost stalls = { λ p. p.writes.waits };

    ghost key = { λ p. p.key };

    fn key(&self) -> u64 {
        self.key
    }

    fn try_read(&mut self, room: &mut [u8]) -> Result<Look, Failed>
        ensures count { IfOk (moved result) (λ n. n ≤ length room.new) }
        ensures bytes { ReadConsumes (L.left self.old.link) (L.left self.new.link) (moved result)
            room.new }
        ensures cause { HasCause (L.faults self.old.link) (L.faults self.new.link) result }
        ensures pause { HasPause self.old.reads.waits self.new.reads.waits result }
        ensures stalls_later { self.old.writes.waits ≤ self.new.writes.waits }
        ensures apart { L.holds self.new.link ≡ L.holds self.old.link }
        ensures same_key { self.new.key ≡ self.old.key }

        // It finds nothing yet where its turn says so, and there alone.
        ensures follows { is_not_yet result ≡ waits_next self.old.reads.turns }
        ensures next { self.new.reads ≡ paced self.old.reads }
    {
        let Some(most) = self.reads.begin() else {
            return Ok(Look::NotYet);
        };
        let wanted = most.min(room.len());
        let count = self.link.read(&mut room[..wanted])?;
        Ok(Look::Moved(count))
    }

    fn try_write(&mut self, piece: &[u8]) -> Result<Look, Failed>
        ensures count { IfOk (moved result) (λ n. n ≤ length piece.now) }
        ensures bytes { WriteAppends (L.holds self.old.link) (L.holds self.new.link) (moved result)
            piece.now }
        ensures cause { HasCause (L.faults self.old.link) (L.faults self.new.link) result }
        ensures pause { HasPause self.old.writes.waits self.new.writes.waits result }
        ensures stuck { IfOk (moved result) (λ n. n ≡ 0 → 0 < length piece.now
            → HasRisen (L.faults self.old.link) (L.faults self.new.link)) }
        ensures waits_later { self.old.reads.waits ≤ self.new.reads.waits }
        ensures apart { L.left self.new.link ≡ L.left self.old.link }
        ensures same_key { self.new.key ≡ self.old.key }

        // It finds no room yet where its turn says so, and there alone.
        ensures follows { is_not_yet result ≡ waits_next self.old.writes.turns }
        ensures next { self.new.writes ≡ paced self.old.writes }
    {
        let Some(most) = self.writes.begin() else {
            return Ok(Look::NotYet);
        };
        let wanted = most.min(piece.len());
        let count = self.link.write(&piece[..wanted])?;
        Ok(Look::Moved(count))
    }
}
