//! The names of the files of a school's lists.

ghost use Rattle.std.specs.Prelude.{◌≡◌, ◌<◌, IfOk};
ghost use Rattle.qz_folders.specs.Names.{part_name};
ghost use Rattle.qz_loading.specs.Telling.{name_of};

use qz_text::{NoMemory, Text};
use std::alloc::Global;

/// The file of a list.
#[derive(Clone, Copy)]
pub(crate) enum ListFile {
    Catalog,
    /// Of the shard with this index.
    Part { index: u8 },
}

impl ListFile {
    pub(crate) fn name(self, alloc: Global) -> Result<Text, NoMemory>
        ensures { IfOk result (λ name. name ≡ name_of self) }
    {
        match self {
            ListFile::Catalog => Text::of(alloc, "catalog.jnl"),
            ListFile::Part { index } => qz_folders::part_name(alloc, index),
        }
    }
}

/// The name of the file of a shard below 100, without memory.
pub(crate) fn part_name(shard: u8) -> [u8; 11]
    requires { shard < 100 }
    ensures { result ≡ part_name shard }
{
    let tens = b'0' + shard / 10;
    let ones = b'0' + shard % 10;
    [
        b'p', b'a', b'r', b't', b'-', tens, ones, b'.', b'j', b'n', b'l',
    ]
}
