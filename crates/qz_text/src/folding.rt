//! The characters of a text that are compared.

ghost use Rattle.std.specs.Prelude.{◌≡◌, IfOk, string_bytes, encode_utf8_all};
ghost use Rattle.qz_text.specs.Patterns.{folded};

use crate::NoMemory;
use caseless::default_case_fold_str;
use std::alloc::Global;

/// `text` without the white space around it, after Unicode default case folding.
pub(crate) fn fold(alloc: Global, text: &str) -> Result<String, NoMemory>
    ensures { IfOk result (λ t. string_bytes t ≡ encode_utf8_all (folded text.now)) }
{
    Ok(default_case_fold_str(alloc, text.trim())?)
}
