//! The pattern of a short answer.

ghost use Rattle.std.specs.Prelude.{◌≡◌, ◌↔◌, List, ℕ, map, IfOk, IsTrue, encode_utf8_all};
ghost use Rattle.qz_text.specs.Gaps.{parts_between_gaps};
ghost use Rattle.qz_text.specs.Patterns.{folded_parts, pattern_fits, PatternFits};

use crate::folding::fold;
use crate::gaps::with_gaps;
use crate::matching::fits_parts;
use crate::{NoMemory, Text, TryCopy, Typed};
use std::alloc::Global;
use std::marker::Model;

/// The pattern that a short answer is compared with, seen as the bytes of its text.
///
/// In a pattern `*` stands for any run of characters, also the empty one, and `\*` for a star. Any other backslash
/// stands for itself. Pattern and typed text are compared without the white space around them, and after Unicode
/// default case folding. This is the rule of Moodle's documentation page "Short-Answer question type".
#[derive(Debug, Drop)]
pub struct Pattern {
    text: Text,
    parts: Vec<u8>,
}

impl Model for Pattern {
    ghost Value = { List ℕ };

    ghost view = { λ p. p.text };

    ghost invariant = { λ p. parts_between_gaps p.parts.items
        ≡ map encode_utf8_all (folded_parts p.text) };
}

impl Pattern {
    /// The pattern that is written so. Each text is a pattern.
    pub fn of(alloc: Global, text: &str) -> Result<Pattern, NoMemory>
        ensures { IfOk result (λ made. made ≡ text.now) }
    {
        let folded = fold(alloc, text)?;
        Ok(Pattern {
            text: Text::of(alloc, text)?,
            parts: with_gaps(alloc, folded.as_str())?,
        })
    }

    /// The pattern as it was written.
    pub fn text(&self) -> &Text
        ensures { result.now ≡ self.now }
    {
        &self.text
    }

    /// Whether a typed text fits the pattern. It takes no memory, and time that grows with the two lengths added.
    pub fn fits(&self, typed: &Typed) -> bool
        ensures value { result ≡ pattern_fits self.now typed.now }
        ensures meaning { IsTrue result ↔ PatternFits self.now typed.now }
    {
        fits_parts(&self.parts, typed.compared().as_bytes())
    }
}

impl TryCopy for Pattern {
    fn try_copy(&self, alloc: Global) -> Result<Pattern, NoMemory> {
        Ok(Pattern {
            text: self.text.try_copy(alloc)?,
            parts: Vec::from_slice(alloc, &self.parts)?,
        })
    }
}
