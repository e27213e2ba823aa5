//! What single words spell.

ghost use Rattle.qz_command.specs.Commands.{IsFolder, folder_of};
ghost use Rattle.qz_command.specs.Readings.{Reads};
ghost use Rattle.qz_wire.specs.Brief.{IsBriefToken};
ghost use Rattle.qz_wire.specs.Lines.{number_within};
ghost use Rattle.qz_wire.specs.Words.{token_of};
ghost use Rattle.std.specs.Prelude.{◌≡◌, ◌≤◌, IfOk};

use crate::WordsFault;
use qz_text::Text;
use qz_wire::{number, token_in};
use std::alloc::Global;

/// The name of a folder has at most so many bytes.
const LONGEST_FOLDER: usize = 4096;

/// The number from `low` to `high` that a word spells.
pub fn number_in(word: &str, low: u32, high: u32) -> Result<u32, WordsFault>
    ensures value { Reads (λ n. n) result (number_within low high word.now) }
    ensures range { IfOk result (λ n. (low ≤ n) × (n ≤ high)) }
{
    match number(word.as_bytes(), low, high) {
        Some(value) => Ok(value),
        None => Err(WordsFault::BadWords),
    }
}

/// The folder that a word names.
pub fn folder_in(alloc: Global, word: &str) -> Result<Text, WordsFault>
    ensures value { Reads (λ t. t) result (folder_of word.now) }
    ensures range { IfOk result IsFolder }
{
    if word.is_empty() || word.len() > LONGEST_FOLDER {
        return Err(WordsFault::BadWords);
    }
    Ok(Text::of(alloc, word)?)
}

/// The token that a word is.
pub fn token_text(alloc: Global, word: &str) -> Result<Text, WordsFault>
    ensures value { Reads (λ t. t) result (token_of word.now) }
    ensures range { IfOk result IsBriefToken }
{
    match token_in(word.as_bytes()) {
        Some(token) => Ok(Text::of(alloc, token)?),
        None => Err(WordsFault::BadWords),
    }
}
