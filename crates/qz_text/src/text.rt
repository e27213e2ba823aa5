//! A text of its own.

ghost use Rattle.std.specs.Prelude.{◌≡◌, List, ℕ, IfOk, string_bytes};

use crate::{NoMemory, TryCopy};
use std::alloc::Global;
use std::marker::Model;

/// A text, seen as the list of its bytes in UTF-8.
#[derive(Debug, Drop)]
pub struct Text {
    pub items: String,
}

impl Model for Text {
    ghost Value = { List ℕ };

    ghost view = { λ t. string_bytes t.items };
}

impl Text {
    /// A text with these characters.
    pub fn of(alloc: Global, text: &str) -> Result<Text, NoMemory>
        ensures { IfOk result (λ made. made ≡ text.now) }
    {
        Ok(Text {
            items: String::from_str(alloc, text)?,
        })
    }

    pub fn as_str(&self) -> &str
        ensures { result.now ≡ self.now }
    {
        self.items.as_str()
    }

    pub fn as_bytes(&self) -> &[u8]
        ensures { result.now ≡ self.now }
    {
        self.items.as_bytes()
    }
}

impl TryCopy for Text {
    fn try_copy(&self, alloc: Global) -> Result<Text, NoMemory> {
        Text::of(alloc, self.as_str())
    }
}
