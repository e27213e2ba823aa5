//! The names of a folder's files.

ghost use Rattle.std.specs.Prelude.{◌≡◌, IfOk};
ghost use Rattle.qz_folders.specs.Names.{catalog_name, part_name};

use qz_text::{NoMemory, Text};
use std::alloc::Global;

/// The name of the catalogue's journal.
pub fn catalog_name() -> &'static [u8]
    ensures { result.now ≡ catalog_name }
{
    b"catalog.jnl"
}

/// The name of a shard's journal. A shard's number has two digits, or three from 100 on.
pub fn part_name(alloc: Global, shard: u8) -> Result<Text, NoMemory>
    ensures { IfOk result (λ name. name ≡ part_name shard) }
{
    Ok(Text {
        items: format!(in alloc; "part-{shard:02}.jnl")?,
    })
}
