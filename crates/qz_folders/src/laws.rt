//! What the names of a folder's files mean.

ghost use Rattle.qz_folders.specs.Names.{AreApart};

/// Different shards below 100 have different names, and none has the catalogue's.
pub fn names_are_apart()
    ensures { AreApart }
{}
