//! A text that a student typed.

ghost use Rattle.std.specs.Prelude.{◌≡◌, List, ℕ, IfOk, string_bytes, encode_utf8_all};
ghost use Rattle.qz_text.specs.Patterns.{folded, is_blank};

use crate::folding::fold;
use crate::{NoMemory, Text, TryCopy};
use std::alloc::Global;
use std::marker::Model;

/// What a student typed, seen as the bytes of the text. It keeps what of the text is compared with patterns.
#[derive(Debug, Drop)]
pub struct Typed {
    text: Text,
    compared: String,
}

impl Model for Typed {
    ghost Value = { List ℕ };

    ghost view = { λ t. t.text };

    ghost invariant = { λ t. string_bytes t.compared ≡ encode_utf8_all (folded t.text) };
}

impl Typed {
    /// A typed text. It is folded here, once for all its comparisons.
    pub fn of(alloc: Global, text: &str) -> Result<Typed, NoMemory>
        ensures { IfOk result (λ made. made ≡ text.now) }
    {
        Ok(Typed {
            text: Text::of(alloc, text)?,
            compared: fold(alloc, text)?,
        })
    }

    /// The text as it was typed.
    pub fn text(&self) -> &Text
        ensures { result.now ≡ self.now }
    {
        &self.text
    }

    /// Whether nothing but white space was typed.
    pub fn is_blank(&self) -> bool
        ensures { result ≡ is_blank self.now }
    {
        self.compared().is_empty()
    }

    /// What is compared with patterns: the folded characters of the text without the white space around it, in UTF-8.
    pub(crate) fn compared(&self) -> &str
        ensures { result.now ≡ encode_utf8_all (folded self.now) }
    {
        self.compared.as_str()
    }
}

impl TryCopy for Typed {
    fn try_copy(&self, alloc: Global) -> Result<Typed, NoMemory> {
        Ok(Typed {
            text: self.text.try_copy(alloc)?,
            compared: String::from_str(alloc, self.compared.as_str())?,
        })
    }
}
