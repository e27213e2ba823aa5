//! Reading the frames of a file.

ghost use Rattle.std.specs.Prelude.{◌≡◌, ◌+◌, ◌^◌, ◌<◌, ◌≤◌, length, take, drop, IfSome, IfOk, IfErr, IsErrOf, OnOk};
ghost use Rattle.qz_disks.specs.Disks.{Same, Elapses, IsDurable, Spends, HasRoom};
ghost use Rattle.qz_disks.specs.Sound.{StaysSound};
ghost use Rattle.qz_journal.specs.declared.fault.JournalFault.TheVariants.{Fault};
ghost use Rattle.qz_journal.specs.Frames.{stands_for};
ghost use Rattle.qz_journal.specs.Journals.{length_behind, frames_at, NextFrame, IsWhole, TellsDamage, HasJournalCause, IsRead};

use crate::JournalFault;
use qz_disks::Disk;
use qz_text::{Bytes, Listed};
use std::alloc::Global;

/// What a file begins with, and what its frames stand behind.
const HEADER: [u8; 8] = [0x51, 0x5a, 0x4a, 0x31, 1, 0, 0, 0];

/// A gate that is open; every other byte is shut.
pub(crate) const OPEN: u8 = 1;

/// A file that isn't longer stands for the empty list, whatever it holds: a header and a gate.
pub(crate) const SHORTEST: u64 = 9;

/// What a file holds.
#[derive(Drop)]
pub(crate) struct Found {
    /// How many bytes.
    pub(crate) size: u64,
    /// The place of the first gate that isn't open.
    pub(crate) gate: u64,
    /// The payloads of the frames in front of it.
    pub(crate) payloads: Listed<Bytes>,
}

/// Syncs a file, and reads it. Room is made for mending it.
pub(crate) fn survey<D: Disk>(alloc: Global, disk: &mut D) -> Result<Found, JournalFault>
    ensures found { IfOk result (λ found.
        IfSome (D.reads disk.old) (IsRead found.size found.gate found.payloads)) }
    ensures bound { IfOk result (λ found. found.gate + 1 < 2 ^ 64) }
    ensures damaged { IfErr result (λ fault.
        IfSome (D.reads disk.old) (λ bytes. TellsDamage (stands_for bytes) fault)) }
    ensures durable { OnOk result (IfSome (D.reads disk.old)
        (λ bytes. IsDurable bytes (D.left_at disk.new (D.moment disk.new)))) }
    ensures reads { D.reads disk.new ≡ D.reads disk.old }
    ensures crash { Elapses Same (D.moment disk.old) (D.moment disk.new)
        (D.left_at disk.old) (D.left_at disk.new) }
    ensures room { OnOk result (HasRoom 3 9 (D.room disk.new)) }
    ensures cause { HasJournalCause (D.faults disk.old) (D.faults disk.new) result }
    ensures blamed { D.blamed disk.new ≡ D.blamed disk.old }
    ensures stays_sound { StaysSound (D.sound disk.old) (D.sound disk.new)
        (D.faults disk.old) (D.faults disk.new) (IsErrOf result Fault) }
{
    disk.reserve(SHORTEST)?;
    disk.sync()?;
    let size = disk.size()?;
    if size <= SHORTEST {
        return Ok(Found {
            size,
            gate: HEADER.len() as u64,
            payloads: Listed::empty(alloc),
        });
    }
    read_frames(alloc, disk, size)
}

/// Reads a file of more bytes than a header and a gate.
fn read_frames<D: Disk>(alloc: Global, disk: &mut D, size: u64) -> Result<Found, JournalFault>
    requires size { IfSome (D.reads disk.old) (λ bytes. size ≡ length bytes) }
    requires long { 9 < size }
    ensures found { IfOk result (λ found.
        IfSome (D.reads disk.old) (IsRead found.size found.gate found.payloads)) }
    ensures bound { IfOk result (λ found. found.gate + 1 < 2 ^ 64) }
    ensures damaged { IfErr result (λ fault.
        IfSome (D.reads disk.old) (λ bytes. TellsDamage (stands_for bytes) fault)) }
    ensures reads { D.reads disk.new ≡ D.reads disk.old }
    ensures crash { Elapses Same (D.moment disk.old) (D.moment disk.new)
        (D.left_at disk.old) (D.left_at disk.new) }
    ensures room { Spends 0 0 (D.room disk.old) (D.room disk.new) }
    ensures cause { HasJournalCause (D.faults disk.old) (D.faults disk.new) result }
    ensures blamed { D.blamed disk.new ≡ D.blamed disk.old }
    ensures stays_sound { StaysSound (D.sound disk.old) (D.sound disk.new)
        (D.faults disk.old) (D.faults disk.new) (IsErrOf result Fault) }
{
    let mut start = [0u8; 8];
    disk.read_at(0, &mut start)?;
    if start != HEADER {
        return Err(JournalFault::Damaged { place: 0 });
    }
    let mut payloads = Vec::new(alloc);
    let mut gate = HEADER.len() as u64;
    while let Some(payload) = next_frame(alloc, disk, gate, size)? {
        gate += 5 + payload.items.len() as u64;
        payloads.push(payload)?;
    }
    Ok(Found {
        size,
        gate,
        payloads: Listed { items: payloads },
    })
}

/// Reads the payload behind a gate, or none where the gate isn't open.
fn next_frame<D: Disk>(
    alloc: Global,
    disk: &mut D,
    gate: u64,
    size: u64,
) -> Result<Option<Bytes>, JournalFault>
    requires size { IfSome (D.reads disk.old) (λ bytes. size ≡ length bytes) }
    requires inside { gate < size }
    ensures frame { IfOk result (λ frame.
        IfSome (D.reads disk.old) (λ bytes. NextFrame gate bytes frame)) }
    ensures inside { IfOk result (λ frame. IfSome frame (λ payload. gate + 5 + length payload < size)) }
    ensures damaged { IfErr result (λ fault.
        IfSome (D.reads disk.old) (λ bytes. TellsDamage (frames_at gate bytes) fault)) }
    ensures reads { D.reads disk.new ≡ D.reads disk.old }
    ensures crash { Elapses Same (D.moment disk.old) (D.moment disk.new)
        (D.left_at disk.old) (D.left_at disk.new) }
    ensures room { Spends 0 0 (D.room disk.old) (D.room disk.new) }
    ensures cause { HasJournalCause (D.faults disk.old) (D.faults disk.new) result }
    ensures blamed { D.blamed disk.new ≡ D.blamed disk.old }
    ensures stays_sound { StaysSound (D.sound disk.old) (D.sound disk.new)
        (D.faults disk.old) (D.faults disk.new) (IsErrOf result Fault) }
{
    let behind = size - gate - 1;
    if behind < 5 {
        // No frame is so short: its length alone has four bytes, and a gate follows it.
        let mut last = [0u8; 1];
        disk.read_at(gate, &mut last)?;
        return if last[0] == OPEN {
            Err(JournalFault::Damaged { place: gate })
        } else {
            Ok(None)
        };
    }
    let mut head = [0u8; 5];
    disk.read_at(gate, &mut head)?;
    let Some(length) = length_told(&head) else {
        return Ok(None);
    };
    if u64::from(length) + 4 >= behind {
        return Err(JournalFault::Damaged { place: gate });
    }
    Ok(Some(read_bytes(alloc, disk, gate + 5, length)?))
}

/// The length of the payload behind an open gate.
fn length_told(head: &[u8; 5]) -> Option<u32>
    ensures { result ≡ length_behind head.now }
{
    let [gate, first, second, third, fourth] = *head;
    if gate != OPEN {
        return None;
    }
    Some(u32::from_le_bytes([first, second, third, fourth]))
}

/// Reads so many bytes from a place on.
fn read_bytes<D: Disk>(
    alloc: Global,
    disk: &mut D,
    place: u64,
    count: u32,
) -> Result<Bytes, JournalFault>
    requires { IfSome (D.reads disk.old) (λ bytes. place + count ≤ length bytes) }
    ensures bytes { IfOk result (λ read.
        IfSome (D.reads disk.old) (λ bytes. read ≡ take count (drop place bytes))) }
    ensures count { IfOk result (λ read. length read ≡ count) }
    ensures whole { IfErr result IsWhole }
    ensures reads { D.reads disk.new ≡ D.reads disk.old }
    ensures crash { Elapses Same (D.moment disk.old) (D.moment disk.new)
        (D.left_at disk.old) (D.left_at disk.new) }
    ensures room { Spends 0 0 (D.room disk.old) (D.room disk.new) }
    ensures cause { HasJournalCause (D.faults disk.old) (D.faults disk.new) result }
    ensures blamed { D.blamed disk.new ≡ D.blamed disk.old }
    ensures stays_sound { StaysSound (D.sound disk.old) (D.sound disk.new)
        (D.faults disk.old) (D.faults disk.new) (IsErrOf result Fault) }
{
    let mut items = vec![in alloc; 0u8; count as usize]?;
    disk.read_at(place, &mut items)?;
    Ok(Bytes { items })
}
