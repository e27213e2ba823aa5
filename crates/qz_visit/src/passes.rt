//! The passes of a school.

ghost use Rattle.std.specs.Prelude.{◌≡◌, IfOk, length};
ghost use Rattle.qz_terms.specs.Serial.{is_catalog, is_part};
ghost use Rattle.qz_visit.specs.Visits.{AreLeft, IsUnasked, own_if, own_kept, seen_by, without_own};

use crate::last::Last;
use qz_catalog_turns::{OwnRecord, Records};
use qz_disks::Keeper;
use qz_shard_turns::Part;
use qz_text::{Listed, NoMemory};
use qz_turn::Pass;
use std::alloc::Global;
use std::marker::Model;

/// A pass of the catalogue's lock, and one of each shard's, in order. To a contract it is what their holder has seen of each list.
#[derive(Drop)]
pub(crate) struct Seats<K: Keeper> {
    pub records: Pass<Records<K>>,
    pub parts: Vec<Pass<Part<K>>>,
}

impl<K: Keeper> Model for Seats<K> {
    ghost use Rattle.qz_visit.specs.Visits.{Seats};

    ghost Value = { Seats };

    ghost view = { λ p. record { records = p.records; parts = p.parts.items } };
}

/// The right to ask a school: passes of its locks, and what is kept of the last request. To a contract it is what its holder has seen of each
/// list, and that.
#[derive(Drop)]
pub struct Passes<K: Keeper> {
    pub(crate) seats: Seats<K>,
    pub(crate) last: Last,
}

impl<K: Keeper> Model for Passes<K> {
    ghost use Rattle.std.specs.Prelude.{◌≡◌, length};
    ghost use Rattle.qz_visit.specs.Visits.{Holder};

    ghost Value = { Holder };

    ghost view = { λ p. record { seats = p.seats; last = p.last } };

    ghost invariant = { λ p. length p.last.parts ≡ length p.seats.parts };
}

/// A number for each of so many lists.
pub(crate) fn zeros(alloc: Global, count: usize) -> Result<Listed<u64>, NoMemory>
    ensures { IfOk result (λ made. length made ≡ count) }
{
    Ok(Listed {
        items: vec![in alloc; 0; count]?,
    })
}

/// Whether it is the number of this shard.
fn is_number(list: Option<u8>, index: usize) -> bool
    ensures { result ≡ is_part index list }
{
    match list {
        Some(number) => usize::from(number) == index,
        None => false,
    }
}

/// How many records a list has without a request's own, where that went there.
fn without_own(count: u64, is_there: bool, own: OwnRecord) -> u64
    ensures { result ≡ without_own (own_if is_there own) count }
{
    match own {
        OwnRecord::Stands => {
            if is_there {
                count.saturating_sub(1)
            } else {
                count
            }
        }
        OwnRecord::InDoubt | OwnRecord::Absent => count,
    }
}

/// Counts the records that were seen of each shard's list, without a request's own.
fn count_parts<K: Keeper>(
    parts: &Vec<Pass<Part<K>>>,
    counts: &mut Listed<u64>,
    list: Option<u8>,
    own: OwnRecord,
)
    requires { length counts.old ≡ length parts.now.items }
    ensures { AreLeft own list (seen_by parts.now.items) counts.new }
{
    for index in 0..parts.len() {
        counts.items[index] = without_own(parts[index].len(), is_number(list, index), own);
    }
}

impl<K: Keeper> Passes<K> {
    /// Passes by which nothing was asked yet, with a number for each shard.
    pub(crate) fn unasked(seats: Seats<K>, mut parts: Listed<u64>) -> Passes<K>
        requires { length parts ≡ length seats.parts }
        ensures seats { result.seats ≡ seats }
        ensures unasked { IsUnasked seats result.last }
    {
        count_parts(&seats.parts, &mut parts, None, OwnRecord::Absent);
        let catalog = seats.records.len();
        Passes {
            seats,
            last: Last {
                catalog,
                parts,
                list: None,
                put: false,
                doubt: false,
            },
        }
    }

    /// Keeps what became of a request, and how long each list is that was seen, without the request's own record.
    pub(crate) fn keep(&mut self, list: Option<u8>, own: OwnRecord)
        ensures seats { self.new.seats ≡ self.old.seats }
        ensures list { self.new.last.list ≡ list }
        ensures own { own_kept self.new.last.put self.new.last.doubt ≡ own }
        ensures catalog { self.new.last.catalog ≡ without_own (own_if (is_catalog list) own)
            (length self.old.seats.records.seen.list) }
        ensures parts { AreLeft own list (seen_by self.old.seats.parts) self.new.last.parts }
    {
        self.last.catalog = without_own(self.seats.records.len(), list.is_none(), own);
        count_parts(&self.seats.parts, &mut self.last.parts, list, own);
        self.last.list = list;
        self.last.put = matches!(own, OwnRecord::Stands);
        self.last.doubt = matches!(own, OwnRecord::InDoubt);
    }

    /// What is kept of the last request: how long each list is that was seen, without the request's own record, and what became of that.
    /// It takes no memory.
    pub fn last(&self) -> &Last
        ensures { result.now ≡ self.now.last }
    {
        &self.last
    }
}
