//! A reply, and what became of the record that its request put.

ghost use Rattle.std.specs.Prelude.{◌≡◌};
ghost use Rattle.qz_catalog_turns.specs.Owning.{own_of};

use qz_terms::Reply;

/// What became of a request's own record, in the turn in which it was answered.
#[derive(Clone, Copy, Debug, PartialEq, Eq)]
pub enum OwnRecord {
    /// It put none.
    Absent,
    /// It stands last in the list.
    Stands,
    /// It is in doubt.
    InDoubt,
}

/// A reply, and what became of the request's own record.
#[derive(Drop)]
pub struct Replied {
    pub reply: Reply,
    pub own: OwnRecord,
}

impl OwnRecord {
    /// What became of the record of a request over a list in which none was in doubt: by whether none is in doubt now, and by how many
    /// records were found and how many were left.
    pub fn of(is_settled: bool, found: u64, left: u64) -> OwnRecord
        ensures { result ≡ own_of is_settled found left }
    {
        if !is_settled {
            return OwnRecord::InDoubt;
        }
        if found < left {
            OwnRecord::Stands
        } else {
            OwnRecord::Absent
        }
    }
}
