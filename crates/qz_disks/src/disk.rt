//! A disk: a file as a journal sees it.

ghost use Rattle.std.specs.Prelude.{◌≡◌, ℕ, ◌+◌, ◌-◌, ◌^◌, ◌<◌, ◌≤◌, List, length, take, drop, Option, None, option_map, is_some, IfSome, IfOk, IsErr, OnOk};
ghost use Rattle.qz_outside.specs.Causes.{HasCause, HasRisen};
ghost use Rattle.qz_disks.specs.Sound.{StaysSound};
ghost use Rattle.qz_disks.specs.Disks.{overwritten, growth, Torn, Cut, Same, Elapses, IsDurable, Room, Spends, HasRoom};

use qz_outside::Failed;
use qz_text::NoMemory;

/// One file. Its calls but `reserve` take no memory.
///
/// Between two syncs each range that was written, and what lies past the old end, may hold any bytes after a crash;
/// bytes outside stay. After a sync that succeeded a crash leaves what a read gives. A disk that tells nothing of its
/// bytes (`None`) names no outcome of a crash either.
pub trait Disk {
    /// The bytes that a read gives, where the disk tells them.
    ghost reads: { Self → Option (List ℕ) };

    /// The moment: a number that doesn't fall, and tells apart what crashes at different times may leave.
    ghost moment: { Self → ℕ };

    /// What a crash at that moment may have left, up to the disk's own moment: now.
    ghost left_at: { Self → ℕ → List ℕ → Type 0 };

    /// The room made for coming calls.
    ghost room: { Self → Room };

    /// How often it has failed: a count that never falls.
    ghost faults: { Self → ℕ };

    /// How often it was blamed: how many of its faults no call of its own told.
    ghost blamed: { Self → ℕ };

    /// It fails no call.
    ghost sound: { Self → Type 0 };

    /// How many bytes it holds.
    fn size(&mut self) -> Result<u64, Failed>
        ensures size { IfOk result (λ size. IfSome (reads self.old) (λ bytes. size ≡ length bytes)) }
        ensures reads { reads self.new ≡ reads self.old }
        ensures crash { Elapses Same (moment self.old) (moment self.new)
            (left_at self.old) (left_at self.new) }
        ensures room { Spends 0 0 (room self.old) (room self.new) }
        ensures cause { HasCause (faults self.old) (faults self.new) result }
        ensures blamed { blamed self.new ≡ blamed self.old }
        ensures stays_sound { StaysSound (sound self.old) (sound self.new)
            (faults self.old) (faults self.new) (IsErr result) };

    /// Reads as many bytes as `target` has, from a place on.
    fn read_at(&mut self, at: u64, target: &mut [u8]) -> Result<(), Failed>
        requires { IfSome (reads self.old) (λ bytes. at + length target.old ≤ length bytes) }
        ensures bytes { OnOk result (IfSome (reads self.old)
            (λ bytes. target.new ≡ take (length target.old) (drop at bytes))) }
        ensures reads { reads self.new ≡ reads self.old }
        ensures crash { Elapses Same (moment self.old) (moment self.new)
            (left_at self.old) (left_at self.new) }
        ensures room { Spends 0 0 (room self.old) (room self.new) }
        ensures cause { HasCause (faults self.old) (faults self.new) result }
        ensures blamed { blamed self.new ≡ blamed self.old }
        ensures stays_sound { StaysSound (sound self.old) (sound self.new)
            (faults self.old) (faults self.new) (IsErr result) };

    /// Writes a piece over what is there, and past the end where it reaches so far. Where it fails, the disk may
    /// read as any outcome of a crash.
    fn write_at(&mut self, at: u64, piece: &[u8]) -> Result<(), Failed>
        requires place { IfSome (reads self.old) (λ bytes. at ≤ length bytes) }
        requires room { HasRoom 1 (growth at (length piece.now) (reads self.old)) (room self.old) }
        ensures written { OnOk result
            (reads self.new ≡ option_map (overwritten at piece.now) (reads self.old)) }
        ensures tells { is_some (reads self.new) ≡ is_some (reads self.old) }
        ensures bound { OnOk result (at + length piece.now < 2 ^ 64) }
        ensures crash { Elapses (Torn at (length piece.now)) (moment self.old) (moment self.new)
            (left_at self.old) (left_at self.new) }
        ensures room { Spends 1 (growth at (length piece.now) (reads self.old))
            (room self.old) (room self.new) }
        ensures cause { HasCause (faults self.old) (faults self.new) result }
        ensures blamed { blamed self.new ≡ blamed self.old }
        ensures stays_sound { StaysSound (sound self.old) (sound self.new)
            (faults self.old) (faults self.new) (IsErr result) };

    /// Cuts off what stands behind so many bytes. Where it fails, the disk may read as any outcome of a crash.
    fn cut(&mut self, size: u64) -> Result<(), Failed>
        requires place { IfSome (reads self.old) (λ bytes. size ≤ length bytes) }
        requires room { HasRoom 1 0 (room self.old) }
        ensures written { OnOk result (reads self.new ≡ option_map (take size) (reads self.old)) }
        ensures tells { is_some (reads self.new) ≡ is_some (reads self.old) }
        ensures crash { Elapses (Cut size) (moment self.old) (moment self.new)
            (left_at self.old) (left_at self.new) }
        ensures room { Spends 1 0 (room self.old) (room self.new) }
        ensures cause { HasCause (faults self.old) (faults self.new) result }
        ensures blamed { blamed self.new ≡ blamed self.old }
        ensures stays_sound { StaysSound (sound self.old) (sound self.new)
            (faults self.old) (faults self.new) (IsErr result) };

    /// After it, a crash leaves what a read gives.
    fn sync(&mut self) -> Result<(), Failed>
        requires room { HasRoom 1 0 (room self.old) }
        ensures durable { OnOk result (IfSome (reads self.old)
            (λ bytes. IsDurable bytes (left_at self.new (moment self.new)))) }
        ensures reads { reads self.new ≡ reads self.old }
        ensures crash { Elapses Same (moment self.old) (moment self.new)
            (left_at self.old) (left_at self.new) }
        ensures room { Spends 1 0 (room self.old) (room self.new) }
        ensures cause { HasCause (faults self.old) (faults self.new) result }
        ensures blamed { blamed self.new ≡ blamed self.old }
        ensures stays_sound { StaysSound (sound self.old) (sound self.new)
            (faults self.old) (faults self.new) (IsErr result) };

    /// Makes room for the next eight writes, cuts and syncs, and for so many bytes past the end in all.
    fn reserve(&mut self, bytes: u64) -> Result<(), NoMemory>
        ensures room { OnOk result (HasRoom 8 bytes (room self.new)) }
        ensures reads { reads self.new ≡ reads self.old }
        ensures crash { Elapses Same (moment self.old) (moment self.new)
            (left_at self.old) (left_at self.new) }
        ensures faults { faults self.new ≡ faults self.old }
        ensures blamed { blamed self.new ≡ blamed self.old }
        ensures sound { sound self.old → sound self.new };

    /// Gives up what stands behind so many bytes: from then on a crash may leave the disk cut there, and who takes it back
    /// may cut it, where that tells nothing of its bytes.
    fn spare(&mut self, size: u64)
        ensures reads { reads self.new ≡ reads self.old }
        ensures crash { Elapses (Cut size) (moment self.old) (moment self.new)
            (left_at self.old) (left_at self.new) }
        ensures room { Spends 0 0 (room self.old) (room self.new) }
        ensures faults { faults self.new ≡ faults self.old }
        ensures blamed { blamed self.new ≡ blamed self.old }
        ensures sound { sound self.old → sound self.new };

    /// Counts a failure that no call told, and that it was blamed: what was read can't stand on the disk. Of one that tells its
    /// bytes that is never so, and nothing is counted.
    fn blame(&mut self)
        ensures reads { reads self.new ≡ reads self.old }
        ensures crash { Elapses Same (moment self.old) (moment self.new)
            (left_at self.old) (left_at self.new) }
        ensures later { faults self.old ≤ faults self.new }
        ensures rose { reads self.old ≡ None → HasRisen (faults self.old) (faults self.new) }
        ensures blamed { reads self.old ≡ None → HasRisen (blamed self.old) (blamed self.new) }
        ensures steady { IfSome (reads self.old) (λ _. self.new ≡ self.old) };

    /// A disk as it reads is one of the outcomes of a crash.
    ghost reads_now: { (disk : Self) → IfSome (reads disk) (left_at disk (moment disk)) };
}
