//! What was asked of a school by one who noted it.

ghost use Rattle.std.specs.Prelude.{◌≡◌};
ghost use Rattle.qz_visit.specs.Visits.{seen_in};
ghost use Rattle.qz_gather.specs.Notes.{AreTrueOf};

use crate::note::Note;
use qz_disks::Keeper;
use qz_text::Listed;
use qz_visit::Passes;
use std::marker::Model;

/// The passes of one who asked a school, and a note of each request, the first one first. Each note is true of what the passes have seen of the
/// lists.
#[derive(Drop)]
pub struct Book<K: Keeper> {
    pub passes: Passes<K>,
    pub notes: Listed<Note>,
}

impl<K: Keeper> Model for Book<K> {
    ghost use Rattle.qz_visit.specs.Visits.{seen_in};
    ghost use Rattle.qz_gather.specs.Clerks.{Book};
    ghost use Rattle.qz_gather.specs.Notes.{AreTrueOf};

    ghost Value = { Book };

    ghost view = { λ b. record { passes = b.passes; notes = b.notes } };

    ghost invariant = { λ b. AreTrueOf (seen_in b.passes.seats) b.notes };
}

impl<K: Keeper> Book<K> {
    /// The notes, each of which is true of what the passes have seen.
    pub fn notes(&self) -> &[Note]
        ensures notes { result.now ≡ self.now.notes }
        ensures true_of { AreTrueOf (seen_in self.now.passes.seats) result.now }
    {
        self.notes.as_slice()
    }
}
