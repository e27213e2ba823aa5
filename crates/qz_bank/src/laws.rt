//! What a bank has to do with the records of a catalogue.

ghost use Rattle.qz_bank.specs.Laws.{FollowsTheRecords};

/// The bank that a list of records makes stays so: an import, an edit or a tuning that one more record keeps changes it as the
/// calls of `Entries` do, and any other record leaves it. Its entries, their latest numbers and their versions are those that
/// the records tell, and so is why a change is refused.
pub fn follows_the_records()
    ensures { FollowsTheRecords }
{}
