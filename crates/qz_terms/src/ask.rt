//! One request of one caller.

ghost use Rattle.std.specs.Prelude.{◌≡◌, IfOk};

use crate::{Caller, Request};
use qz_text::{NoMemory, Text, TryCopy};
use std::alloc::Global;

/// A request with its caller, and the key by which the caller may ask it again. Requests that only look have no
/// key, nor have those of workers.
#[derive(Drop)]
pub struct Ask {
    pub caller: Caller,
    pub key: Option<Text>,
    pub request: Request,
}

/// A copy of a text, such as a key, if there is one.
pub fn copy_of_text(text: &Option<Text>, alloc: Global) -> Result<Option<Text>, NoMemory>
    ensures { IfOk result (λ copy. copy ≡ text.now) }
{
    match text {
        None => Ok(None),
        Some(text) => Ok(Some(text.try_copy(alloc)?)),
    }
}
