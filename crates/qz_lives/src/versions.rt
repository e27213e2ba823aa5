//! Where the questions of versions are found.

ghost use Rattle.std.specs.Prelude.{◌≡◌, ℕ, Option};
ghost use Rattle.std.specs.Option.{option_copied};
ghost use Rattle.qz_grading.specs.declared.question.Question.{Question};

use qz_grading::Question;

/// Something that knows the questions of versions.
pub trait Versions {
    /// The question of an entry's version, if it is known.
    ghost version_of: { Self → ℕ → ℕ → Option Question };

    /// Finds the question of an entry's version, if it is known.
    fn version(&self, entry: u32, number: u32) -> Option<&Question>
        ensures { option_copied result ≡ version_of self.now entry number };
}
