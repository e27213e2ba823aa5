//! What one process gave back is there for the next.

ghost use Rattle.qz_script_schools.specs.Again.{GivenBackIsLoaded};

use qz_disks::Shelf;

/// What was given back is loaded again. Each file was told, nobody else wrote it, and it reads as an image that a crash, or none, might have
/// left of it. Then each list that is loaded is as it was given back, its record in doubt adopted or dropped, or a fault or want of memory
/// keeps the school from being loaded.
pub fn given_back_is_loaded<F: Shelf>()
    ensures { GivenBackIsLoaded F.files F.faults
        (record { moment = F.Disk.moment; left_at = F.Disk.left_at; sound = F.Disk.sound; faults = F.Disk.faults }) }
{}
