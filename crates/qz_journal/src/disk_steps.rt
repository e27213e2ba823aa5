//! Steps on a disk that end with a sync.

ghost use Rattle.std.specs.Prelude.{◌≡◌, ◌+◌, ◌^◌, ◌<◌, ◌≤◌, length, take, option_map, is_some, IfSome, IsErr, OnOk};
ghost use Rattle.qz_outside.specs.Causes.{HasCause};
ghost use Rattle.qz_disks.specs.Disks.{overwritten, growth, Torn, Cut, Elapses, IsDurable, Spends, HasRoom};
ghost use Rattle.qz_disks.specs.Sound.{StaysSound};

use qz_disks::Disk;
use qz_outside::Failed;

/// Writes a piece, and syncs.
pub(crate) fn write_synced<D: Disk>(disk: &mut D, at: u64, piece: &[u8]) -> Result<(), Failed>
    requires place { IfSome (D.reads disk.old) (λ bytes. at ≤ length bytes) }
    requires room { HasRoom 2 (growth at (length piece.now) (D.reads disk.old)) (D.room disk.old) }
    ensures written { OnOk result
        (D.reads disk.new ≡ option_map (overwritten at piece.now) (D.reads disk.old)) }
    ensures durable { OnOk result (IfSome (D.reads disk.new)
        (λ bytes. IsDurable bytes (D.left_at disk.new (D.moment disk.new)))) }
    ensures tells { is_some (D.reads disk.new) ≡ is_some (D.reads disk.old) }
    ensures bound { OnOk result (at + length piece.now < 2 ^ 64) }
    ensures crash { Elapses (Torn at (length piece.now)) (D.moment disk.old) (D.moment disk.new)
        (D.left_at disk.old) (D.left_at disk.new) }
    ensures room { Spends 2 (growth at (length piece.now) (D.reads disk.old))
        (D.room disk.old) (D.room disk.new) }
    ensures cause { HasCause (D.faults disk.old) (D.faults disk.new) result }
    ensures blamed { D.blamed disk.new ≡ D.blamed disk.old }
    ensures stays_sound { StaysSound (D.sound disk.old) (D.sound disk.new)
        (D.faults disk.old) (D.faults disk.new) (IsErr result) }
{
    disk.write_at(at, piece)?;
    disk.sync()
}

/// Cuts, and syncs.
pub(crate) fn cut_synced<D: Disk>(disk: &mut D, size: u64) -> Result<(), Failed>
    requires place { IfSome (D.reads disk.old) (λ bytes. size ≤ length bytes) }
    requires room { HasRoom 2 0 (D.room disk.old) }
    ensures written { OnOk result (D.reads disk.new ≡ option_map (take size) (D.reads disk.old)) }
    ensures durable { OnOk result (IfSome (D.reads disk.new)
        (λ bytes. IsDurable bytes (D.left_at disk.new (D.moment disk.new)))) }
    ensures tells { is_some (D.reads disk.new) ≡ is_some (D.reads disk.old) }
    ensures crash { Elapses (Cut size) (D.moment disk.old) (D.moment disk.new)
        (D.left_at disk.old) (D.left_at disk.new) }
    ensures cause { HasCause (D.faults disk.old) (D.faults disk.new) result }
    ensures blamed { D.blamed disk.new ≡ D.blamed disk.old }
    ensures stays_sound { StaysSound (D.sound disk.old) (D.sound disk.new)
        (D.faults disk.old) (D.faults disk.new) (IsErr result) }
{
    disk.cut(size)?;
    disk.sync()
}
