//! What the bytes of a journal mean.

ghost use Rattle.std.specs.Prelude.{◌≡◌, ℕ, ◌≤◌, List, [], length, Ok};
ghost use Rattle.qz_journal.specs.Frames.{stands_for};

/// A file that holds no more than a header and a gate stands for the empty list, whatever its bytes are.
pub fn short_image_is_empty()
    ensures { (image : List ℕ) → length image ≤ 9 → stands_for image ≡ Ok [] }
{}
