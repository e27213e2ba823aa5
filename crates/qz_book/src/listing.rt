//! A list of records, and what is kept beside it.

ghost use Rattle.std.specs.Prelude.{◌≡◌, ◌+◌, ◌≤◌, ◌++◌, ◌∷◌, [], IfOk};
ghost use Rattle.qz_lives.specs.Changes.{gradings_by};
ghost use Rattle.qz_book.specs.Listings.{HasEntries, HasRoom, IsFollowed, IsListing};
ghost use Rattle.qz_book.specs.Nexts.{CanGrow};

use crate::known::Known;
use qz_grading::Steps;
use qz_index::Index;
use qz_lives::{Lives, Prepared};
use qz_terms::{Record, make_room};
use qz_text::NoMemory;
use std::alloc::Global;
use std::sync::ledger::Ledger;

/// Records, an index of them, and what each attempt has come to.
#[derive(Drop)]
pub(crate) struct Listing {
    pub records: Vec<Record>,
    pub index: Index,
    pub lives: Lives,
}

impl Listing {
    /// Of no record. It takes no memory.
    pub(crate) fn new(alloc: Global) -> Listing
        ensures listing { IsListing result }
        ensures none { result.records.items ≡ [] }
    {
        Listing {
            records: Vec::new(alloc),
            index: Index::new(alloc),
            lives: Lives::new(alloc),
        }
    }

    /// Makes all that takes memory before a record is put. The list is as before, also where memory is wanting.
    pub(crate) fn grow(&mut self, alloc: Global, made: &Record) -> Result<Prepared, NoMemory>
        requires listing { IsListing self.old }
        requires grows { CanGrow self.old.records.items made.now }
        ensures listing { IsListing self.new }
        ensures same { self.new.records.items ≡ self.old.records.items }
        ensures room { IfOk result (HasRoom self.new made.now) }
    {
        make_room(&mut self.records)?;
        self.index.grow(alloc, made)?;
        self.prepare(alloc, made)
    }

    /// Makes what the attempt of a record takes, which the index and the list have room for.
    fn prepare(&mut self, alloc: Global, made: &Record) -> Result<Prepared, NoMemory>
        requires listing { IsListing self.old }
        requires grows { CanGrow self.old.records.items made.now }
        requires entered { HasEntries self.old made.now }
        ensures listing { IsListing self.new }
        ensures same { self.new.records.items ≡ self.old.records.items }
        ensures room { IfOk result (HasRoom self.new made.now) }
    {
        let known = Known::of(&self.index, &self.records, made);
        self.lives.grow(alloc, &self.records, made, &known)
    }

    /// Follows the record in the attempt that it is about.
    fn follow<L: Ledger>(&mut self, made: &Record, prepared: Prepared, steps: &mut Steps<L>)
        requires listing { IsListing self.old }
        requires grows { CanGrow self.old.records.items made.now }
        requires room { HasRoom self.old made.now prepared }
        ensures followed { IsFollowed self.old self.new made.now }
        ensures count { steps.new ≤ steps.old + gradings_by self.old.records.items made.now.event }
    {
        let place = self.index.place(made.owner) + 1;
        let known = Known::of(&self.index, &self.records, made);
        self.lives
            .put(&self.records, made, prepared, place, &known, steps);
    }

    /// Puts a record at the end. It takes no memory.
    pub(crate) fn put<L: Ledger>(&mut self, made: Record, prepared: Prepared, steps: &mut Steps<L>)
        requires listing { IsListing self.old }
        requires grows { CanGrow self.old.records.items made }
        requires room { HasRoom self.old made prepared }
        ensures listing { IsListing self.new }
        ensures put { self.new.records.items ≡ self.old.records.items ++ made ∷ [] }
        ensures count { steps.new ≤ steps.old + gradings_by self.old.records.items made.event }
    {
        self.follow(&made, prepared, steps);
        self.index.put(&self.records, &made);
        self.records.push(made).unwrap();
    }
}
