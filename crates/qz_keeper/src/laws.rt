//! What the calls of a keeper of records mean for a list.

ghost use Rattle.qz_keeper.specs.Lists.{ListsFollow};

/// What an append and a mending do to the payloads, they do to the list of which these are the spellings.
pub fn lists_follow()
    ensures { ListsFollow }
{}
