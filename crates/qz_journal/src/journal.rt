//! The journal.

ghost use Rattle.std.specs.Prelude.{◌≡◌, ◌+◌, ◌^◌, ◌<◌, ◌≤◌, length, Ok, Some, None, option_map, is_some, IfSome, IfOk, IfErr, IsErr, OnOk, IsErrOf, MatchResult};
ghost use Rattle.qz_outside.specs.Causes.{HasCause, HasRisen};
ghost use Rattle.qz_disks.specs.Disks.{LeavesOnly, IsDurable, HasRoom};
ghost use Rattle.qz_disks.specs.Sound.{StaysSound};
ghost use Rattle.qz_disks.specs.Keepers.{with_one_more, EndsAppending, EndsReopening, HasKeepCause};
ghost use Rattle.qz_disks.specs.declared.keeper.KeepErr.TheVariants as keep;
ghost use Rattle.qz_disks.specs.declared.keeper.TheConstants.{MOST_PAYLOAD};
ghost use Rattle.qz_journal.specs.declared.journal.TheConstants.{AHEAD};
ghost use Rattle.qz_journal.specs.declared.fault.JournalFault.TheVariants as fault;
ghost use Rattle.qz_journal.specs.Frames.{stands_for};
ghost use Rattle.qz_journal.specs.Journals.{payloads_of, payloads_before, payload_of, roomy_frame, HoldsFrame, StandsFor, StandFor, StandsAs, StandsLike, IsAtRest, IsKept, IsLoaded, IsPut, IsRead, IsSound, TellsDamage, HasJournalCause};

use crate::JournalFault;
use crate::disk_steps::{cut_synced, write_synced};
use crate::reading::{Found, OPEN, SHORTEST, survey};
use qz_disks::{Disk, KeepErr, Keeper};
use qz_outside::Failed;
use qz_text::{Bytes, Listed};
use std::alloc::{AllocError, Global};
use std::marker::Model;

/// What a file without a frame holds: a header, and a gate that is shut.
const BEGUN: [u8; 9] = [0x51, 0x5a, 0x4a, 0x31, 1, 0, 0, 0, 0];

/// A gate that is shut.
const SHUT: u8 = 0;

/// How many bytes a frame has besides its payload: a gate, and the length in four bytes.
const FRAME: usize = 5;

/// How many zeros are written behind a frame that makes the file longer.
const AHEAD: usize = 4_096;

/// A list of payloads on a disk.
///
/// After its payloads the file has a gate that is shut, and it is shut on the disk before anything is written behind it. An
/// append writes the payload's frame behind it, syncs, opens the gate, and syncs. So a crash at any moment leaves the
/// payloads acknowledged, and the one in flight whole or not at all.
///
/// What stands behind the shut gate says nothing. An append that makes the file longer writes zeros behind its frame, as
/// room for those that come: a file system writes a journal of its own at each sync of a file that grew.
#[derive(Drop)]
pub struct Journal<D: Disk> {
    disk: D,
    /// The place of the gate behind the payloads.
    gate: u64,
    /// How far the file reaches, as far as it's known: up to there is room.
    end: u64,
    /// The frame of the payload in doubt.
    doubt: Option<Bytes>,
}

impl<D: Disk> Model for Journal<D> {
    ghost use Rattle.std.specs.Prelude.{◌+◌, ◌^◌, ◌<◌, option_map, IfSome};
    ghost use Rattle.qz_journal.specs.Journals.{Ledger, IsKept, payloads_before, payload_of};

    ghost Value = { Ledger D };

    ghost view = { λ j. record {
      disk = j.disk;
      kept = option_map (payloads_before j.gate) (D.reads j.disk);
      doubt = option_map payload_of j.doubt;
    } };

    ghost invariant = { λ j. IfSome (D.reads j.disk)
        (IsKept j.gate (option_map payload_of j.doubt) (D.left_at j.disk (D.moment j.disk)))
        × (j.gate + 1 < 2 ^ 64) };
}

impl<D: Disk> Journal<D> {
    /// The journal on this disk, and its payloads. It syncs, reads the file, and mends its end, and may crash at any
    /// moment: the file then stands for one of the lists that it might have stood for before.
    ///
    /// An error gives the disk back. `Fault`: the disk failed. `Damaged`: the bytes are, and nothing was written.
    /// `Memory`: nothing was written.
    pub fn load(alloc: Global, disk: D) -> Result<(Journal<D>, Listed<Bytes>), (D, JournalFault)>
        ensures list { IfOk result (λ made.
            IfSome (D.reads disk) (λ bytes. stands_for bytes ≡ Ok made.1)) }
        ensures kept { IfOk result (λ made.
            made.0.kept ≡ option_map (λ _. made.1) (D.reads disk)) }
        ensures no_doubt { IfOk result (λ made. made.0.doubt ≡ None) }
        ensures acknowledged { IfOk result (λ made. IfSome (D.reads disk) (λ _.
            StandFor made.1 None (D.left_at made.0.disk (D.moment made.0.disk)))) }
        ensures any_moment { IfOk result (λ made. IfSome (D.reads disk) (λ _. LeavesOnly
            (StandsAs (D.left_at disk (D.moment disk)))
            (D.moment disk) (D.moment made.0.disk) (D.left_at disk) (D.left_at made.0.disk))) }
        ensures damaged { IfErr result (λ e.
            IfSome (D.reads disk) (λ bytes. TellsDamage (stands_for bytes) e.1)) }
        ensures failed { IfErr result (λ e. e.1 ≡ fault.Fault
            → HasRisen (D.faults disk) (D.faults e.0)) }
        ensures blamed { MatchResult result
            (λ made. D.blamed made.0.disk ≡ D.blamed disk) (λ e. D.blamed e.0 ≡ D.blamed disk) }
        ensures stays_sound { IfOk result (λ made. StaysSound (D.sound disk) (D.sound made.0.disk)
            (D.faults disk) (D.faults made.0.disk) ⊥) }
        ensures stays_sound_of_err { IfErr result (λ e. StaysSound (D.sound disk) (D.sound e.0)
            (D.faults disk) (D.faults e.0) (e.1 ≡ fault.Fault)) }
        ensures any_moment_of_err { IfErr result (λ e. IfSome (D.reads disk) (λ _. LeavesOnly
            (StandsAs (D.left_at disk (D.moment disk)))
            (D.moment disk) (D.moment e.0) (D.left_at disk) (D.left_at e.0))) }
    {
        let mut disk = disk;
        match recover(alloc, &mut disk) {
            Ok(found) => {
                let journal = Journal {
                    disk,
                    gate: found.gate,
                    end: found.gate + 1,
                    doubt: None,
                };
                Ok((journal, found.payloads))
            }
            Err(fault) => Err((disk, fault)),
        }
    }

    /// The disk: a crash leaves of it the payloads kept, with the one in doubt or without. Where none is in doubt the room
    /// behind the gate is given up.
    pub fn into_disk(self) -> D
        ensures reads { D.reads result ≡ D.reads self.disk }
        ensures tells { is_some self.kept ≡ is_some (D.reads result) }
        ensures stands { IfSome self.kept (λ payloads.
            StandFor payloads self.doubt (D.left_at result (D.moment result))) }
        ensures faults { D.faults result ≡ D.faults self.disk }
        ensures blamed { D.blamed result ≡ D.blamed self.disk }
        ensures sound { D.sound self.disk → D.sound result }

        // A crash at each moment of the call leaves the list, with the payload in doubt or without.
        ensures any_moment { IfSome self.kept (λ payloads. LeavesOnly (StandsFor payloads self.doubt)
            (D.moment self.disk) (D.moment result) (D.left_at self.disk) (D.left_at result)) }
    {
        if self.doubt.is_some() {
            return self.disk;
        }
        let needed = self.gate + 1;
        let mut disk = self.disk;
        disk.spare(needed);
        disk
    }
}

// What stands behind the gate of a payload: its length, itself, a shut gate, and so many zeros.
fn framed(alloc: Global, payload: &[u8], room: usize) -> Result<Bytes, AllocError>
    requires size { length payload.now ≤ MOST_PAYLOAD }
    requires room { room ≤ AHEAD }
    ensures { IfOk result (λ frame. frame ≡ roomy_frame room payload.now) }
{
    let mut items = Vec::with_capacity(alloc, payload.len() + FRAME + room)?;
    items.extend_from_slice(&(payload.len() as u32).to_le_bytes())?;
    items.extend_from_slice(payload)?;
    items.push(SHUT)?;
    let frame = items.len();
    items.resize(frame + room, 0)?;
    Ok(Bytes { items })
}

// How many zeros go behind the frame of so many bytes of a payload, where the file reaches so far from the gate on.
fn room_behind(reach: u64, count: usize) -> usize
    requires { count ≤ MOST_PAYLOAD }
    ensures { result ≤ AHEAD }
{
    if reach > (count + FRAME) as u64 {
        0
    } else {
        AHEAD
    }
}

// Puts a frame behind the gate, and opens it.
fn put<D: Disk>(disk: &mut D, gate: u64, frame: &[u8]) -> Result<(), Failed>
    requires kept { IfSome (D.reads disk.old)
        (IsKept gate None (D.left_at disk.old (D.moment disk.old))) }
    requires framed { HoldsFrame frame.now }
    requires size { length (payload_of frame.now) ≤ MOST_PAYLOAD }
    requires gate { gate + 1 < 2 ^ 64 }
    requires room { HasRoom 4 (length frame.now) (D.room disk.old) }
    ensures put { OnOk result (IfSome (D.reads disk.old) (λ bytes. IfSome (D.reads disk.new)
        (IsPut gate (payload_of frame.now) (payloads_before gate bytes)
        (D.left_at disk.new (D.moment disk.new))))) }
    ensures bound { OnOk result (gate + 1 + length frame.now < 2 ^ 64) }
    ensures tells { is_some (D.reads disk.new) ≡ is_some (D.reads disk.old) }
    ensures crash { IfSome (D.reads disk.old) (λ bytes. LeavesOnly
        (StandsFor (payloads_before gate bytes) (Some (payload_of frame.now)))
        (D.moment disk.old) (D.moment disk.new) (D.left_at disk.old) (D.left_at disk.new)) }
    ensures cause { HasCause (D.faults disk.old) (D.faults disk.new) result }
    ensures blamed { D.blamed disk.new ≡ D.blamed disk.old }
    ensures stays_sound { StaysSound (D.sound disk.old) (D.sound disk.new)
        (D.faults disk.old) (D.faults disk.new) (IsErr result) }
{
    write_synced(disk, gate + 1, frame)?;
    write_synced(disk, gate, &[OPEN])
}

// Cuts off what stands behind the gate, or writes a header and a gate where the file is as short.
fn mend<D: Disk>(disk: &mut D, size: u64, gate: u64) -> Result<(), Failed>
    requires read { IfSome (D.reads disk.old) (λ bytes. IsRead size gate (payloads_of bytes) bytes) }
    requires durable { IfSome (D.reads disk.old)
        (λ bytes. IsDurable bytes (D.left_at disk.old (D.moment disk.old))) }
    requires gate { gate + 1 < 2 ^ 64 }
    requires room { HasRoom 3 9 (D.room disk.old) }
    ensures rests { OnOk result (IfSome (D.reads disk.new)
        (λ bytes. IsAtRest gate bytes (D.left_at disk.new (D.moment disk.new)))) }
    ensures tells { is_some (D.reads disk.new) ≡ is_some (D.reads disk.old) }
    ensures crash { IfSome (D.reads disk.old) (λ bytes. LeavesOnly (StandsLike bytes)
        (D.moment disk.old) (D.moment disk.new) (D.left_at disk.old) (D.left_at disk.new)) }
    ensures cause { HasCause (D.faults disk.old) (D.faults disk.new) result }
    ensures blamed { D.blamed disk.new ≡ D.blamed disk.old }
    ensures stays_sound { StaysSound (D.sound disk.old) (D.sound disk.new)
        (D.faults disk.old) (D.faults disk.new) (IsErr result) }
{
    if size > SHORTEST {
        return cut_synced(disk, gate + 1);
    }
    disk.cut(0)?;
    write_synced(disk, 0, &BEGUN)
}

// Reads a file and mends it.
fn recover<D: Disk>(alloc: Global, disk: &mut D) -> Result<Found, JournalFault>
    ensures list { IfOk result (λ found.
        IfSome (D.reads disk.old) (λ bytes. stands_for bytes ≡ Ok found.payloads)) }
    ensures loaded { IfOk result (λ found. IfSome (D.reads disk.new)
        (IsLoaded found.gate found.payloads (D.left_at disk.new (D.moment disk.new)))) }
    ensures bound { IfOk result (λ found. found.gate + 1 < 2 ^ 64) }
    ensures tells { is_some (D.reads disk.new) ≡ is_some (D.reads disk.old) }
    ensures damaged { IfErr result (λ fault.
        IfSome (D.reads disk.old) (λ bytes. TellsDamage (stands_for bytes) fault)) }
    ensures crash { IfSome (D.reads disk.old) (λ _. LeavesOnly
        (StandsAs (D.left_at disk.old (D.moment disk.old)))
        (D.moment disk.old) (D.moment disk.new) (D.left_at disk.old) (D.left_at disk.new)) }
    ensures cause { HasJournalCause (D.faults disk.old) (D.faults disk.new) result }
    ensures blamed { D.blamed disk.new ≡ D.blamed disk.old }
    ensures stays_sound { StaysSound (D.sound disk.old) (D.sound disk.new)
        (D.faults disk.old) (D.faults disk.new) (IsErrOf result fault.Fault) }
{
    let found = survey(alloc, disk)?;
    mend(disk, found.size, found.gate)?;
    Ok(found)
}

impl<D: Disk> Keeper for Journal<D> {
    ghost kept = { λ j. j.kept };

    ghost doubt = { λ j. j.doubt };

    ghost faults = { λ j. D.faults j.disk };

    ghost sound = { λ j. IsSound D.sound j };

    fn append(&mut self, alloc: Global, payload: &[u8]) -> Result<(), KeepErr>
        requires settled { self.old.doubt ≡ None }
        requires size { length payload.now ≤ MOST_PAYLOAD }
        ensures list { EndsAppending self.old.kept self.new.kept self.new.doubt payload.now result }
        ensures cause { HasKeepCause (D.faults self.old.disk) (D.faults self.new.disk) result }
        ensures stays_sound { StaysSound (IsSound D.sound self.old) (IsSound D.sound self.new)
            (D.faults self.old.disk) (D.faults self.new.disk) (IsErrOf result keep.Fault) }

        // Each fault of it is a failed call of the disk.
        ensures blamed { D.blamed self.new.disk ≡ D.blamed self.old.disk }

        // A crash at each moment of the call, and after it, leaves the list from before, with the payload or without.
        ensures any_moment { IfSome self.old.kept (λ payloads. LeavesOnly
            (StandsFor payloads (Some payload.now))
            (D.moment self.old.disk) (D.moment self.new.disk)
            (D.left_at self.old.disk) (D.left_at self.new.disk)) }

        // From then on each crash leaves the payload.
        ensures acknowledged { OnOk result (IfSome self.old.kept (λ payloads.
            StandFor (with_one_more payload.now payloads) None
            (D.left_at self.new.disk (D.moment self.new.disk)))) }
    {
        let gate = self.gate;
        let room = room_behind(self.end.saturating_sub(gate), payload.len());
        let frame = framed(alloc, payload, room)?;
        self.disk.reserve(frame.items.len() as u64)?;
        match put(&mut self.disk, gate, frame.as_slice()) {
            Ok(()) => {
                self.end = self.end.max(gate + 1 + frame.items.len() as u64);
                self.gate = gate + (FRAME + payload.len()) as u64;
                Ok(())
            }
            Err(Failed) => {
                self.doubt = Some(frame);
                Err(KeepErr::Fault)
            }
        }
    }

    fn reopen(&mut self, alloc: Global) -> Result<Listed<Bytes>, KeepErr>
        ensures list { EndsReopening self.old.kept self.new.kept self.old.doubt self.new.doubt result }
        ensures cause { HasKeepCause (D.faults self.old.disk) (D.faults self.new.disk) result }
        ensures stays_sound { StaysSound (IsSound D.sound self.old) (IsSound D.sound self.new)
            (D.faults self.old.disk) (D.faults self.new.disk) (IsErrOf result keep.Fault) }

        // It blames a disk only where that tells nothing of its bytes, and then it fails.
        ensures blamed { OnOk result (D.blamed self.new.disk ≡ D.blamed self.old.disk) }
        ensures unblamed { IfSome self.old.kept
            (λ _. D.blamed self.new.disk ≡ D.blamed self.old.disk) }

        // A crash at each moment of the call, and after it, leaves one of the lists that one might have left before.
        ensures any_moment { IfSome self.old.kept (λ _. LeavesOnly
            (StandsAs (D.left_at self.old.disk (D.moment self.old.disk)))
            (D.moment self.old.disk) (D.moment self.new.disk)
            (D.left_at self.old.disk) (D.left_at self.new.disk)) }

        // From then on each crash leaves the list that it gave.
        ensures acknowledged { IfOk result (λ found. IfSome self.old.kept (λ _.
            StandFor found None (D.left_at self.new.disk (D.moment self.new.disk)))) }
    {
        match survey(alloc, &mut self.disk) {
            Ok(found) => {
                if self.doubt.is_none() {
                    // The file is at rest, and there is nothing to mend.
                    return Ok(found.payloads);
                }
                mend(&mut self.disk, found.size, found.gate)?;
                self.gate = found.gate;
                self.end = found.gate + 1;
                self.doubt = None;
                Ok(found.payloads)
            }
            Err(JournalFault::Fault) => Err(KeepErr::Fault),
            Err(JournalFault::Damaged { .. }) => {
                // It was whole when it was loaded.
                self.disk.blame();
                Err(KeepErr::Fault)
            }
            Err(JournalFault::Memory) => Err(KeepErr::Memory),
        }
    }
}
