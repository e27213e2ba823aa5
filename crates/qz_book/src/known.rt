//! The versions that a shard has learned, with one record more.

ghost use Rattle.std.specs.Prelude.{◌≡◌, ◌++◌, ◌∷◌, [], option_copied};
ghost use Rattle.qz_index.specs.Indexed.{IsIndexed};
ghost use Rattle.qz_terms.specs.History.{learned_version, learns, version};

use qz_grading::Question;
use qz_index::{Index, learned_by};
use qz_lives::Versions;
use qz_terms::{Learned, Record};
use std::marker::Model;

/// What is known of versions where one record more comes behind those of an index, seen as the longer list.
#[derive(Drop)]
pub(crate) struct Known<'a> {
    index: &'a Index,
    records: &'a [Record],
    made: &'a Record,
}

impl<'a> Model for Known<'a> {
    ghost use Rattle.std.specs.Prelude.{List, ◌++◌, ◌∷◌, []};
    ghost use Rattle.qz_terms.specs.declared.record.Record.{Record};
    ghost use Rattle.qz_index.specs.Indexed.{IsIndexed};

    ghost Value = { List Record };

    ghost view = { λ k. k.records.now ++ k.made.now ∷ [] };

    ghost invariant = { λ k. IsIndexed k.index.now k.records.now };
}

impl<'a> Known<'a> {
    pub(crate) fn of(index: &'a Index, records: &'a [Record], made: &'a Record) -> Known<'a>
        requires { IsIndexed index.now records.now }
        ensures { result ≡ records.now ++ made.now ∷ [] }
    {
        Known {
            index,
            records,
            made,
        }
    }

    /// The question of a version, if it is learned.
    pub(crate) fn question(&self, entry: u32, number: u32) -> Option<&'a Question>
        ensures { option_copied result ≡ version self.now entry number }
    {
        match self.index.version(self.records, entry, number) {
            Some(question) => Some(question),
            None => learns(entry, number, self.made),
        }
    }
}

/// The question that is learned, if it is this version of this entry.
fn learned_version(entry: u32, version: u32, learned: &Learned) -> Option<&Question>
    ensures { option_copied result ≡ learned_version entry version learned.now }
{
    if learned.entry == entry && learned.version == version {
        Some(&learned.question)
    } else {
        None
    }
}

/// The question of a version, if this record learned it.
fn learns(entry: u32, version: u32, record: &Record) -> Option<&Question>
    ensures { option_copied result ≡ learns entry version «record».now }
{
    let mut found = None;
    for learned in learned_by(record) {
        found = found.or(learned_version(entry, version, learned));
    }
    found
}

impl Versions for Known<'_> {
    ghost version_of = { version };

    fn version(&self, entry: u32, number: u32) -> Option<&Question> {
        self.question(entry, number)
    }
}
