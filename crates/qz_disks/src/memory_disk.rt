//! A disk in memory.

ghost use Rattle.std.specs.Prelude.{◌≡◌, ◌↔◌, ℕ, ◌+◌, ◌-◌, ◌^◌, ◌<◌, ◌≤◌, true, List, [], length, take, drop, vec_len, vec_capacity, Option, Some, Contains, IsErr, IfOk, OnOk, OnErr};
ghost use Rattle.qz_outside.specs.Causes.{HasCause, counted};
ghost use Rattle.qz_disks.specs.Sound.{StaysSound};
ghost use Rattle.qz_disks.specs.Disks.{overwritten, Torn, Cut, Same, Elapses, IsDurable, Spends, HasRoom};
ghost use Rattle.qz_disks.specs.Changes.{content, MayLeave, LeftAt, holding, left_now};
ghost use Rattle.qz_disks.specs.Stops.{filled, left_by};

use crate::Disk;
use qz_outside::{Calls, Failed};
use qz_text::{Bytes, Listed, NoMemory};
use std::alloc::Global;
use std::marker::Model;

/// How many writes, cuts and syncs a disk makes room for at once.
const CALLS: usize = 8;

/// What a stop leaves of the bytes written since the last sync.
#[derive(Clone, Copy, Debug, PartialEq, Eq)]
pub enum Fill {
    /// What stood there before them.
    Old,
    /// Themselves.
    New,
    /// Bytes 1.
    Ones,
    /// Bytes 255.
    Full,
}

/// A call in the log. The pieces written stand in a vector of their own, one behind the other.
#[derive(Clone, Copy)]
pub(crate) enum Done {
    Wrote { at: usize, count: usize },
    Cut { size: usize },
    Synced,
}

/// A disk in memory. It logs what it went through, so that what a crash may have left of it, at each of its moments,
/// is told. Chosen calls fail, and have no effect then.
#[derive(Drop)]
pub struct MemoryDisk {
    bytes: Vec<u8>,
    written: Vec<u8>,
    log: Vec<Done>,
    calls_left: usize,
    bytes_left: usize,
    calls: Calls,
}

impl Model for MemoryDisk {
    ghost use Rattle.std.specs.Prelude.{vec_len, vec_capacity};
    ghost use Rattle.qz_disks.specs.Changes.{History};

    ghost Value = { History };

    ghost use Rattle.qz_disks.specs.Log.{told, IsLogged, HasCapacity};

    ghost view = { λ d. record {
      changes = told d.written.items d.log.items;
      room = record { calls = d.calls_left; bytes = d.bytes_left };
      failing = d.calls.failing;
      calls = d.calls.made;
      faults = d.calls.faults;
    } };

    ghost invariant = { λ d. IsLogged d.bytes.items d.written.items d.log.items
        × HasCapacity d.calls_left d.bytes_left (vec_len d.bytes) (vec_capacity d.bytes)
        (vec_len d.written) (vec_capacity d.written) (vec_len d.log) (vec_capacity d.log) };
}

impl MemoryDisk {
    /// An empty disk. Its calls whose numbers, from 1, are in `failing` fail; `reserve` has no number.
    pub fn new(alloc: Global, failing: Listed<u64>) -> MemoryDisk
        ensures { result ≡ record {
          changes = [];
          room = record { calls = 0; bytes = 0 };
          failing = failing;
          calls = 0;
          faults = 0;
        } }
    {
        MemoryDisk {
            bytes: Vec::new(alloc),
            written: Vec::new(alloc),
            log: Vec::new(alloc),
            calls_left: 0,
            bytes_left: 0,
            calls: Calls::new(failing),
        }
    }

    /// A disk on which these bytes stand, all of them synced.
    pub fn holding(
        alloc: Global,
        bytes: &[u8],
        failing: Listed<u64>,
    ) -> Result<MemoryDisk, NoMemory>
        ensures { IfOk result (λ made. made ≡ record {
          changes = holding bytes.now;
          room = record { calls = 0; bytes = 0 };
          failing = failing;
          calls = 0;
          faults = 0;
        }) }
    {
        let mut log = Vec::with_capacity(alloc, 2)?;
        log.push_reserved(Done::Wrote {
            at: 0,
            count: bytes.len(),
        });
        log.push_reserved(Done::Synced);
        Ok(MemoryDisk {
            bytes: Vec::from_slice(alloc, bytes)?,
            written: Vec::from_slice(alloc, bytes)?,
            log,
            calls_left: 0,
            bytes_left: 0,
            calls: Calls::new(failing),
        })
    }

    /// A fresh disk as a stop now may leave it: with what stood here at the last sync, or with what a read gives,
    /// where each byte written since that sync is as `fill` says. None of its calls fails.
    pub fn stopped(&self, alloc: Global, fill: Fill) -> Result<MemoryDisk, NoMemory>
        ensures { IfOk result (λ made. made ≡ record {
          changes = holding (left_by fill self.now.changes [] []);
          room = record { calls = 0; bytes = 0 };
          failing = [];
          calls = 0;
          faults = 0;
        }) }
    {
        let mut pieces = self.written.as_slice();
        let mut reads = Vec::new(alloc);
        let mut left = Vec::new(alloc);
        for done in &self.log {
            match *done {
                Done::Wrote { at, count } => {
                    let (piece, rest) = pieces.split_at(count);
                    pieces = rest;
                    put_over(&mut reads, at, piece)?;
                    fill_over(alloc, &mut left, fill, at, piece)?;
                }
                Done::Cut { size } => {
                    reads.truncate(size);
                    if fill != Fill::Old {
                        left.truncate(size);
                    }
                }
                Done::Synced => {
                    left.clear();
                    left.extend_from_slice(&reads)?;
                }
            }
        }
        MemoryDisk::holding(alloc, &left, Listed::empty(alloc))
    }

    /// The same disk, with a count of faults of 0.
    pub(crate) fn without_faults(mut self) -> MemoryDisk
        ensures { result ≡ record self { faults = 0 } }
    {
        self.calls.faults = 0;
        self
    }

    /// The bytes that a read gives.
    pub fn bytes(&self) -> &[u8]
        ensures { result.now ≡ content self.now.changes }
    {
        &self.bytes
    }

    /// How many calls have failed.
    pub fn faults(&self) -> u64
        ensures { result ≡ self.now.faults }
    {
        self.calls.faults
    }
}

// Writes over what is there, and past the end.
fn put_over(bytes: &mut Vec<u8>, at: usize, piece: &[u8]) -> Result<(), NoMemory>
    ensures { OnOk result (bytes.new.items ≡ overwritten at piece.now bytes.old.items) }
{
    let at = at.min(bytes.len());
    let over = piece.len().min(bytes.len() - at);
    bytes[at..at + over].copy_from_slice(&piece[..over]);
    Ok(bytes.extend_from_slice(&piece[over..])?)
}

// Writes what a stop may leave of a piece.
fn fill_over(
    alloc: Global,
    bytes: &mut Vec<u8>,
    fill: Fill,
    at: usize,
    piece: &[u8],
) -> Result<(), NoMemory>
    ensures { OnOk result (bytes.new.items ≡ filled fill at piece.now bytes.old.items) }
{
    match fill {
        Fill::Old => Ok(()),
        Fill::New => put_over(bytes, at, piece),
        Fill::Ones => put_over(bytes, at, &vec![in alloc; 1u8; piece.len()]?),
        Fill::Full => put_over(bytes, at, &vec![in alloc; u8::MAX; piece.len()]?),
    }
}

// Writes over what is there, and past the end, for which there is room.
fn overwrite(bytes: &mut Vec<u8>, at: usize, piece: &[u8])
    requires place { at ≤ vec_len bytes.old }
    requires room { at + length piece.now ≤ vec_capacity bytes.old }
    ensures items { bytes.new.items ≡ overwritten at piece.now bytes.old.items }
    ensures capacity { vec_capacity bytes.old ≤ vec_capacity bytes.new }
{
    let over = piece.len().min(bytes.len() - at);
    bytes[at..at + over].copy_from_slice(&piece[..over]);
    bytes.extend_from_slice(&piece[over..]).unwrap();
}

impl Disk for MemoryDisk {
    ghost reads = { λ d. Some (content d.changes) };

    ghost moment = { λ d. length d.changes };

    ghost left_at = { λ d t c. MayLeave (take t d.changes) c };

    ghost room = { λ d. d.room };

    ghost faults = { λ d. d.faults };

    ghost blamed = { λ _. 0 };

    ghost sound = { λ d. d.failing ≡ [] };

    ghost reads_now = { λ d. left_now d.changes };

    fn size(&mut self) -> Result<u64, Failed>
        ensures size { IfOk result (λ size. size ≡ length (content self.old.changes)) }
        ensures reads { content self.new.changes ≡ content self.old.changes }
        ensures crash { Elapses Same (length self.old.changes) (length self.new.changes)
            (LeftAt self.old.changes) (LeftAt self.new.changes) }
        ensures room { Spends 0 0 self.old.room self.new.room }
        ensures cause { HasCause self.old.faults self.new.faults result }
        ensures stays_sound { StaysSound (self.old.failing ≡ []) (self.new.failing ≡ [])
            self.old.faults self.new.faults (IsErr result) }

        // It fails where the number of this call is listed, and there alone; it has no effect then.
        ensures fails { IsErr result ↔ Contains self.old.failing (counted self.old.calls) }
        ensures failed { OnErr result (self.new
            ≡ record self.old { calls = counted self.old.calls; faults = counted self.old.faults }) }
    {
        self.calls.begin()?;
        Ok(self.bytes.len() as u64)
    }

    fn read_at(&mut self, at: u64, target: &mut [u8]) -> Result<(), Failed>
        requires { at + length target.old ≤ length (content self.old.changes) }
        ensures bytes { OnOk result
            (target.new ≡ take (length target.old) (drop at (content self.old.changes))) }
        ensures reads { content self.new.changes ≡ content self.old.changes }
        ensures crash { Elapses Same (length self.old.changes) (length self.new.changes)
            (LeftAt self.old.changes) (LeftAt self.new.changes) }
        ensures room { Spends 0 0 self.old.room self.new.room }
        ensures cause { HasCause self.old.faults self.new.faults result }
        ensures stays_sound { StaysSound (self.old.failing ≡ []) (self.new.failing ≡ [])
            self.old.faults self.new.faults (IsErr result) }

        // It fails where the number of this call is listed, and there alone; it has no effect then.
        ensures fails { IsErr result ↔ Contains self.old.failing (counted self.old.calls) }
        ensures failed { OnErr result (self.new
            ≡ record self.old { calls = counted self.old.calls; faults = counted self.old.faults }) }
    {
        self.calls.begin()?;
        let at = at as usize;
        target.copy_from_slice(&self.bytes[at..at + target.len()]);
        Ok(())
    }

    fn write_at(&mut self, at: u64, piece: &[u8]) -> Result<(), Failed>
        requires place { at ≤ length (content self.old.changes) }
        requires room { HasRoom 1 (at + length piece.now - length (content self.old.changes))
            self.old.room }
        ensures written { OnOk result (content self.new.changes
            ≡ overwritten at piece.now (content self.old.changes)) }
        ensures bound { OnOk result (at + length piece.now < 2 ^ 64) }
        ensures crash { Elapses (Torn at (length piece.now)) (length self.old.changes) (length self.new.changes)
            (LeftAt self.old.changes) (LeftAt self.new.changes) }
        ensures room { Spends 1 (at + length piece.now - length (content self.old.changes))
            self.old.room self.new.room }
        ensures cause { HasCause self.old.faults self.new.faults result }
        ensures stays_sound { StaysSound (self.old.failing ≡ []) (self.new.failing ≡ [])
            self.old.faults self.new.faults (IsErr result) }

        // It fails where the number of this call is listed, and there alone; it has no effect then.
        ensures fails { IsErr result ↔ Contains self.old.failing (counted self.old.calls) }
        ensures failed { OnErr result (self.new
            ≡ record self.old { calls = counted self.old.calls; faults = counted self.old.faults }) }
    {
        self.calls.begin()?;
        let at = at as usize;
        let size = self.bytes.len();
        overwrite(&mut self.bytes, at, piece);
        // `reserve` has made the room for these two.
        self.written.extend_from_slice(piece).unwrap();
        self.log.push_reserved(Done::Wrote {
            at,
            count: piece.len(),
        });
        self.calls_left -= 1;
        self.bytes_left -= self.bytes.len() - size;
        Ok(())
    }

    fn cut(&mut self, size: u64) -> Result<(), Failed>
        requires place { size ≤ length (content self.old.changes) }
        requires room { HasRoom 1 0 self.old.room }
        ensures written { OnOk result
            (content self.new.changes ≡ take size (content self.old.changes)) }
        ensures crash { Elapses (Cut size) (length self.old.changes) (length self.new.changes)
            (LeftAt self.old.changes) (LeftAt self.new.changes) }
        ensures room { Spends 1 0 self.old.room self.new.room }
        ensures cause { HasCause self.old.faults self.new.faults result }
        ensures stays_sound { StaysSound (self.old.failing ≡ []) (self.new.failing ≡ [])
            self.old.faults self.new.faults (IsErr result) }

        // It fails where the number of this call is listed, and there alone; it has no effect then.
        ensures fails { IsErr result ↔ Contains self.old.failing (counted self.old.calls) }
        ensures failed { OnErr result (self.new
            ≡ record self.old { calls = counted self.old.calls; faults = counted self.old.faults }) }
    {
        self.calls.begin()?;
        let size = size as usize;
        self.bytes.truncate(size);
        self.log.push_reserved(Done::Cut { size });
        self.calls_left -= 1;
        Ok(())
    }

    fn sync(&mut self) -> Result<(), Failed>
        requires room { HasRoom 1 0 self.old.room }
        ensures durable { OnOk result (IsDurable (content self.old.changes)
            (LeftAt self.new.changes (length self.new.changes))) }
        ensures reads { content self.new.changes ≡ content self.old.changes }
        ensures crash { Elapses Same (length self.old.changes) (length self.new.changes)
            (LeftAt self.old.changes) (LeftAt self.new.changes) }
        ensures room { Spends 1 0 self.old.room self.new.room }
        ensures cause { HasCause self.old.faults self.new.faults result }
        ensures stays_sound { StaysSound (self.old.failing ≡ []) (self.new.failing ≡ [])
            self.old.faults self.new.faults (IsErr result) }

        // It fails where the number of this call is listed, and there alone; it has no effect then.
        ensures fails { IsErr result ↔ Contains self.old.failing (counted self.old.calls) }
        ensures failed { OnErr result (self.new
            ≡ record self.old { calls = counted self.old.calls; faults = counted self.old.faults }) }
    {
        self.calls.begin()?;
        self.log.push_reserved(Done::Synced);
        self.calls_left -= 1;
        Ok(())
    }

    fn reserve(&mut self, bytes: u64) -> Result<(), NoMemory> {
        let bytes = bytes as usize;
        self.bytes.reserve(bytes)?;
        self.log.reserve(CALLS)?;
        let most = self.bytes.len() + bytes;
        let Some(pieces) = most.checked_mul(CALLS) else {
            return Err(NoMemory);
        };
        self.written.reserve(pieces)?;
        self.calls_left = CALLS;
        self.bytes_left = bytes;
        Ok(())
    }

    // All its bytes stay.
    fn spare(&mut self, _size: u64) {}

    // It tells its bytes.
    fn blame(&mut self) {}
}
