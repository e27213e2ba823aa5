//! What the causes mean for which a school isn't loaded.

ghost use Rattle.qz_loading.specs.Once.{AreTold, IsToldOnce};

use qz_disks::Shelf;

/// Of a folder whose files are told just one cause is told why its school isn't loaded, but for a fault and want of memory.
pub fn one_cause_is_told<F: Shelf>(_shelf: &F, _folder: &[u8])
    requires told { AreTold _folder.now (F.files _shelf.now) }
    ensures { IsToldOnce _folder.now (F.files _shelf.now) }
{}
