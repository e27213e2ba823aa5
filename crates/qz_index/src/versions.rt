//! Which record a version was learned by.

ghost use Rattle.std.specs.Prelude.{◌≡◌, ℕ, All, List, [], ◌∷◌, ◌++◌, Some, None, if◌then◌else◌, ◌&&◌, ◌==◌, IfSome, OnOk, option_copied};
ghost use Rattle.std.specs.Option.{option_or};
ghost use Rattle.qz_grading.specs.Questions.{IsQuestion};
ghost use Rattle.qz_terms.specs.History.{learned_by, version};
ghost use Rattle.qz_terms.specs.Kept.{IsKept};
ghost use Rattle.qz_index.specs.Versions.{AreVersions, HasOrigins, HasOrigin, origin};

use crate::events::learned_by;
use qz_grading::Question;
use qz_room::{fill, make};
use qz_terms::Record;
use qz_text::NoMemory;
use std::alloc::Global;
use std::collections::BTreeMap;

/// Where a version was learned: the place of its record in the list, and its own among what that record learned, both from 0.
#[derive(Clone, Copy)]
pub(crate) struct Origin {
    pub(crate) place: usize,
    pub(crate) item: usize,
}

/// The origins of the versions that are learned, by entry and version.
#[derive(Drop)]
pub(crate) struct Versions {
    pub(crate) origins: BTreeMap<(u32, u32), Option<Origin>>,
}

impl Versions {
    pub(crate) fn new(alloc: Global) -> Versions
        ensures { AreVersions result [] }
    {
        Versions {
            origins: BTreeMap::new(alloc),
        }
    }

    fn origin(&self, entry: u32, version: u32) -> Option<Origin>
        ensures { result ≡ origin self.now entry version }
    {
        *self.origins.get(&(entry, version))?
    }

    pub(crate) fn version<'a>(
        &self,
        records: &'a [Record],
        entry: u32,
        number: u32,
    ) -> Option<&'a Question>
        ensures value { AreVersions self.now records.now → option_copied result ≡ version records.now entry number }
        ensures kept { All IsKept records.now → IfSome result (λ q. IsQuestion q.now) }
    {
        let origin = self.origin(entry, number)?;
        let record = records.get(origin.place)?;
        let learned = learned_by(record).get(origin.item)?;
        Some(&learned.question)
    }

    pub(crate) fn grow(&mut self, record: &Record) -> Result<(), NoMemory>
        ensures room { OnOk result (HasOrigins self.new (learned_by («record».now).event)) }
        ensures same { (entry version : ℕ) → origin self.new entry version ≡ origin self.old entry version }
    {
        for learned in learned_by(record) {
            make(&mut self.origins, (learned.entry, learned.version), None)?;
        }
        Ok(())
    }

    pub(crate) fn put(&mut self, records: &[Record], record: &Record)
        requires placed { AreVersions self.old records.now }
        requires room { HasOrigins self.old (learned_by («record».now).event) }
        ensures { AreVersions self.new (records.now ++ «record».now ∷ []) }
    {
        for (item, learned) in learned_by(record).iter().enumerate() {
            let origin = Origin {
                place: records.len(),
                item,
            };
            self.learn(learned.entry, learned.version, origin);
        }
    }

    /// Learns a version, if it isn't learned.
    fn learn(&mut self, entry: u32, version: u32, at: Origin)
        requires { HasOrigin self.old entry version }
        ensures learned { (e v : ℕ) → origin self.new e v ≡ option_or (origin self.old e v) (if (entry == e) && (version == v) then Some at else None) }
        ensures kept { (e v : ℕ) → HasOrigin self.old e v → HasOrigin self.new e v }
    {
        if self.origin(entry, version).is_none() {
            fill(&mut self.origins, (entry, version), Some(at));
        }
    }
}
