//! What is kept of a request.

ghost use Rattle.std.specs.Prelude.{◌≡◌, ◌<◌, None};
ghost use Rattle.qz_terms.specs.declared.limits.TheConstants.{MOST_SHARDS};
ghost use Rattle.qz_catalog_turns.specs.declared.replied.OwnRecord.TheVariants as own;
ghost use Rattle.qz_visit.specs.Visits.{at_part};
ghost use Rattle.qz_visit.specs.Ways.{replied_of};

use qz_catalog_turns::{OwnRecord, Replied};
use qz_grading::Refusal;
use qz_terms::Reply;
use qz_text::Listed;

/// How far one who asks a school has seen its lists, and what became of the record of the last request.
///
/// Before the first request the numbers are the lengths that were loaded, and both words are false.
#[derive(Drop)]
pub struct Last {
    /// How many records were seen of the catalogue's list, without the request's own.
    pub catalog: u64,
    /// The same of each shard's list, in order.
    pub parts: Listed<u64>,
    /// The shard that the request went to. `None`: the catalogue, a report, or a request that was refused before it went to a shard.
    pub list: Option<u8>,
    /// Whether the request's own record stands next in that list.
    pub put: bool,
    /// Whether the request was refused with `KeepFault`, and its own record is in doubt there.
    pub doubt: bool,
}

/// A reply, the shard that gave it (`None`: the catalogue), and what became of the request's own record there.
#[derive(Drop)]
pub(crate) struct Said {
    pub reply: Reply,
    pub list: Option<u8>,
    pub own: OwnRecord,
}

impl Said {
    /// What the shard at this index said.
    pub(crate) fn by_shard(index: usize, told: Result<Replied, Refusal>) -> Said
        requires { index < MOST_SHARDS }
        ensures { result ≡ at_part index (replied_of told) }
    {
        let list = Some(index as u8);
        match told {
            Ok(Replied { reply, own }) => Said { reply, list, own },
            Err(refusal) => Said {
                reply: Reply::Refused(refusal),
                list,
                own: OwnRecord::Absent,
            },
        }
    }

    /// What the catalogue said.
    pub(crate) fn by_catalog(told: Replied) -> Said
        ensures { result ≡ record { reply = told.reply; list = None; own = told.own } }
    {
        let Replied { reply, own } = told;
        Said {
            reply,
            list: None,
            own,
        }
    }

    /// What was said without a record.
    pub(crate) fn without(reply: Reply, list: Option<u8>) -> Said
        ensures { result ≡ record { reply = reply; list = list; own = own.Absent } }
    {
        Said {
            reply,
            list,
            own: OwnRecord::Absent,
        }
    }
}
